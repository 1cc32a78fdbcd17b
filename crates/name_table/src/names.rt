//! The tables that a node may keep.
ghost use Rattle.std.specs.Prelude.{◌≡◌, ◌==◌, true, [], is_some, length, IfOk, OnOk, OnErr};
ghost use Rattle.registry_model.specs.Table.{Table, get, entry, owns, changed, is_rising, names, without};
ghost use Rattle.name_table.specs.Changes.{change_of, is_put, pair_under};
ghost use Rattle.name_table.specs.Owners.{name_of};

use crate::change::{Change, Pair, Registration};
use std::alloc::{AllocError, Allocator};
use term::{Name, Node, Pid};

/// A table of names: a finite map from names to processes, each with a rule.
pub trait Names: Sized + Drop {
    /// What the table takes its memory from.
    type Memory: Allocator;

    /// The names with their owners and rules, rising by name.
    ghost contents: { Self → Table };

    /// A table without names. It takes no memory.
    fn empty(memory: Self::Memory) -> Self
        ensures { contents result ≡ [] };

    /// What stands under a name, if it has an owner.
    fn get(&self, name: &Name) -> Option<Registration>
        ensures { pair_under name.now result ≡ entry name.now (contents self.now) };

    /// The owner of a name, if it has one.
    fn owner(&self, name: &Name) -> Option<Pid>
        ensures { result ≡ get name.now (contents self.now) };

    /// How many names it has.
    fn len(&self) -> usize
        ensures { result ≡ length (contents self.now) };

    /// Makes a change. Where memory is refused the table is as before; only a put takes memory.
    fn write(&mut self, change: Change) -> Result<(), AllocError>
        ensures ok { OnOk result (contents self.new ≡ changed (change_of change) (contents self.old)) }
        ensures err { OnErr result (contents self.new ≡ contents self.old) }
        ensures refused { OnErr result (is_put (change_of change) ≡ true) };

    /// Takes all names away that are owned on a node. It takes no memory.
    fn drop_node(&mut self, node: &Node)
        ensures { contents self.new ≡ without (λ d. d == node.now) (contents self.old) };

    /// The least name of a process, if it owns one.
    fn owned_by(&self, owner: &Pid) -> Option<Name>
        ensures least { result ≡ name_of owner.now (contents self.now) }
        ensures some { is_some result ≡ owns owner.now (contents self.now) };

    /// All names, rising.
    fn names<B: Allocator>(&self, alloc: B) -> Result<Vec<Name, B>, AllocError>
        ensures { IfOk result (λ list. list.items ≡ names (contents self.now)) };

    /// All names with their owners and rules, rising by name.
    fn pairs<B: Allocator>(&self, alloc: B) -> Result<Vec<Pair, B>, AllocError>
        ensures all { IfOk result (λ pairs. pairs.items ≡ contents self.now) }
        ensures rising { is_rising (contents self.now) ≡ true };

    /// The names rise. It does nothing: what it promises holds of each table.
    fn rising(&self)
        ensures { is_rising (contents self.now) ≡ true };

    /// The same table, in memory of its own.
    fn copy(&self, memory: Self::Memory) -> Result<Self, AllocError>
        ensures { IfOk result (λ copy. contents copy ≡ contents self.now) };
}
