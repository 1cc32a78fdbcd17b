//! Lists of names in as little memory as their texts take.
ghost use Rattle.std.specs.Prelude.{◌≡◌, IfOk};

use crate::kept_name::KeptName;
use node_events::NameList;
use std::alloc::{AllocError, Global};
use std::marker::Model;

/// The names that a node gave all at once, in their order. Contracts see the list of them.
#[derive(Drop)]
pub(crate) struct KeptNames {
    names: Vec<KeptName>,
}

impl Model for KeptNames {
    ghost use Rattle.node_events.specs.declared.name_list.NameList.{NameList};

    ghost Value = { NameList };

    ghost view = { λ n. record { names = n.names } };
}

impl KeptNames {
    /// Keeps these names.
    pub(crate) fn keep(alloc: Global, names: &NameList) -> Result<Self, AllocError>
        ensures { IfOk result (λ kept. kept.names.items ≡ names.now.names.items) }
    {
        let mut kept = Vec::with_capacity(alloc, names.as_slice().len())?;
        for name in names.as_slice() {
            kept.push(KeptName::keep(alloc, name)?)?;
        }
        Ok(KeptNames { names: kept })
    }

    /// The names, in memory of their own.
    pub(crate) fn names(&self) -> Result<NameList, AllocError>
        ensures { IfOk result (λ list. list.names.items ≡ self.now.names.items) }
    {
        let alloc: Global = *self.names.allocator();
        let names = self.names.iter().map(|name| name.name()).collect(alloc)?;
        Ok(NameList::new(names))
    }
}
