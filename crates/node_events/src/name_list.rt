//! The names that a node gives all at once.
ghost use Rattle.std.specs.Prelude.{◌≡◌, IfOk};

use std::alloc::{AllocError, Global};
use term::Name;

/// Names, in the order in which they were given: those of a table rise.
#[derive(Debug, PartialEq, Eq, Drop)]
pub struct NameList {
    names: Vec<Name>,
}

impl NameList {
    /// These names.
    pub fn new(names: Vec<Name>) -> Self
        ensures { result.names.items ≡ names.items }
    {
        NameList { names }
    }

    /// The names, one by one.
    pub fn as_slice(&self) -> &[Name]
        ensures { result.now ≡ self.now.names.items }
    {
        self.names.as_slice()
    }

    /// The same names, in memory of their own.
    pub fn copy(&self) -> Result<Self, AllocError>
        ensures { IfOk result (λ copy. copy.names.items ≡ self.now.names.items) }
    {
        let alloc: Global = *self.names.allocator();
        let names = self.names.iter().map(|name| name.copy()).collect(alloc)?;
        Ok(NameList { names })
    }
}
