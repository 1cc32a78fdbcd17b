//! Tables that are refused memory.
ghost use Rattle.std.specs.Prelude.{◌≡◌};

use name_table::{Change, ListTable, Names, Pair, Registration};
use std::alloc::{AllocError, Allocator, Global};
use term::{Name, Node, Pid};

/// A table that is refused memory for the name `twice` or `thrice`, as often as that says.
#[derive(Drop)]
pub(crate) struct Stubborn {
    list: ListTable<Global>,
    /// How often it was refused it.
    refused: u32,
}

/// How often there is no memory for a name.
fn refusals_of(name: &Name) -> u32 {
    match name.as_str() {
        "twice" => 2,
        "thrice" => 3,
        _ => 0,
    }
}

impl Names for Stubborn {
    type Memory = Global;

    ghost contents = { λ t. t.list };

    fn empty(memory: Global) -> Self {
        Stubborn {
            list: <ListTable<Global> as Names>::empty(memory),
            refused: 0,
        }
    }

    fn get(&self, name: &Name) -> Option<Registration> {
        self.list.get(name)
    }

    fn owner(&self, name: &Name) -> Option<Pid> {
        self.list.owner(name)
    }

    fn len(&self) -> usize {
        self.list.len()
    }

    fn write(&mut self, change: Change) -> Result<(), AllocError> {
        if let Change::Put(pair) = &change
            && self.refused < refusals_of(&pair.name)
        {
            self.refused += 1;
            return Err(AllocError);
        }
        self.list.write(change)
    }

    fn drop_node(&mut self, node: &Node) {
        self.list.drop_node(node);
    }

    fn owned_by(&self, owner: &Pid) -> Option<Name> {
        self.list.owned_by(owner)
    }

    fn names<B: Allocator>(&self, alloc: B) -> Result<Vec<Name, B>, AllocError> {
        self.list.names(alloc)
    }

    fn pairs<B: Allocator>(&self, alloc: B) -> Result<Vec<Pair, B>, AllocError> {
        self.list.pairs(alloc)
    }

    fn rising(&self) {
        self.list.rising();
    }

    fn copy(&self, memory: Global) -> Result<Self, AllocError> {
        let list = self.list.copy(memory)?;
        Ok(Stubborn {
            list,
            refused: self.refused,
        })
    }
}
