//! A table as a sorted list.
ghost use Rattle.std.specs.Prelude.{◌≡◌, ◌==◌, ◌≤◌, true, [], is_some, length, vec_len, vec_capacity, OnOk, OnErr, IfOk};
ghost use Rattle.registry_model.specs.Table.{get, entry, owns, put, remove, strike, without, names, is_rising};
ghost use Rattle.name_table.specs.Changes.{pair_under};
ghost use Rattle.name_table.specs.Owners.{name_of};
ghost use Rattle.name_table.specs.Places.{place, stands};

use crate::change::{Change, Pair, Registration};
use crate::names::Names;
use std::alloc::{AllocError, Allocator};
use std::marker::Model;
use term::{Name, Node, Pid};

/// A table of names that keeps its pairs in one list, rising by name. Finding a name halves the list again and again; a
/// change moves what stands behind it, and the least name of a process is sought from the front on.
#[derive(Drop)]
pub struct ListTable<A: Allocator> {
    pairs: Vec<Pair, A>,
}

impl<A: Allocator> Model for ListTable<A> {
    ghost use Rattle.std.specs.Prelude.{◌≡◌, true};
    ghost use Rattle.registry_model.specs.Table.{Table, is_rising};

    ghost Value = { Table };

    ghost view = { λ t. t.pairs.items };

    ghost invariant = { λ t. is_rising t.pairs.items ≡ true };
}

/// Where the name stands, or would stand.
fn place_of(pairs: &[Pair], name: &Name) -> usize
    requires { is_rising pairs.now ≡ true }
    ensures { result ≡ place name.now pairs.now }
{
    pairs.partition_point(|pair| pair.name < *name)
}

/// Whether the name stands at this place.
fn stands_at(pairs: &[Pair], at: usize, name: &Name) -> bool
    ensures { result ≡ stands name.now pairs.now at }
{
    match pairs.get(at) {
        Some(pair) => pair.name == *name,
        None => false,
    }
}

/// What stands under a name.
fn entry_in(pairs: &[Pair], name: &Name) -> Option<Registration>
    requires { is_rising pairs.now ≡ true }
    ensures { pair_under name.now result ≡ entry name.now pairs.now }
{
    let at = place_of(pairs, name);
    if stands_at(pairs, at, name) {
        let pair = &pairs[at];
        Some(Registration {
            owner: pair.owner.copy(),
            rule: pair.rule,
        })
    } else {
        None
    }
}

/// The owner of a name.
fn owner_in(pairs: &[Pair], name: &Name) -> Option<Pid>
    requires { is_rising pairs.now ≡ true }
    ensures { result ≡ get name.now pairs.now }
{
    let entry = entry_in(pairs, name)?;
    Some(entry.owner)
}

/// The pair stands under its name from now on. Memory is refused only for a new name where the list has no room left.
fn put_in<A: Allocator>(pairs: &mut Vec<Pair, A>, pair: Pair) -> Result<(), AllocError>
    requires { is_rising pairs.old.items ≡ true }
    ensures ok { OnOk result (pairs.new.items ≡ put pair pairs.old.items) }
    ensures err { OnErr result (pairs.new.items ≡ pairs.old.items) }
    ensures absent { OnErr result (get pair.name pairs.old.items ≡ None) }
    ensures full { OnErr result (vec_capacity pairs.old ≤ vec_len pairs.old) }
    ensures rising { is_rising pairs.new.items ≡ true }
{
    let at = place_of(pairs.as_slice(), &pair.name);
    if stands_at(pairs.as_slice(), at, &pair.name) {
        pairs[at] = pair;
    } else {
        pairs.insert(at, pair)?;
    }
    Ok(())
}

/// Nobody has the name from now on.
fn remove_from<A: Allocator>(pairs: &mut Vec<Pair, A>, name: &Name)
    requires { is_rising pairs.old.items ≡ true }
    ensures { pairs.new.items ≡ remove name.now pairs.old.items }
{
    let at = place_of(pairs.as_slice(), name);
    if stands_at(pairs.as_slice(), at, name) {
        pairs.remove(at);
    }
}

/// The process has no name from now on.
fn strike_in<A: Allocator>(pairs: &mut Vec<Pair, A>, owner: &Pid)
    ensures { pairs.new.items ≡ strike owner.now pairs.old.items }
{
    pairs.retain(|pair| pair.owner != *owner);
}

/// The least name of a process.
fn name_in(pairs: &[Pair], owner: &Pid) -> Option<Name>
    ensures least { result ≡ name_of owner.now pairs.now }
    ensures some { is_some result ≡ owns owner.now pairs.now }
{
    for pair in pairs {
        if pair.owner == *owner {
            return Some(pair.name.copy());
        }
    }
    None
}

/// The names of these pairs.
fn names_in<A: Allocator>(alloc: A, pairs: &[Pair]) -> Result<Vec<Name, A>, AllocError>
    ensures { IfOk result (λ list. list.items ≡ names pairs.now) }
{
    pairs.iter().map(|pair| pair.name.copy()).collect(alloc)
}

/// A list of the same pairs.
fn copied<A: Allocator>(alloc: A, pairs: &[Pair]) -> Result<Vec<Pair, A>, AllocError>
    ensures { IfOk result (λ copy. copy.items ≡ pairs.now) }
{
    let mut copy = Vec::new(alloc);
    for pair in pairs {
        copy.push(pair.copy())?;
    }
    Ok(copy)
}

impl<A: Allocator + Drop> Names for ListTable<A> {
    type Memory = A;

    ghost contents = { λ t. t };

    fn empty(memory: A) -> Self {
        ListTable {
            pairs: Vec::new(memory),
        }
    }

    fn get(&self, name: &Name) -> Option<Registration> {
        entry_in(self.pairs.as_slice(), name)
    }

    fn owner(&self, name: &Name) -> Option<Pid> {
        owner_in(self.pairs.as_slice(), name)
    }

    fn len(&self) -> usize {
        self.pairs.len()
    }

    fn write(&mut self, change: Change) -> Result<(), AllocError> {
        match change {
            Change::Put(pair) => put_in(&mut self.pairs, pair)?,
            Change::Remove(name) => remove_from(&mut self.pairs, &name),
            Change::StrikeOwner(owner) => strike_in(&mut self.pairs, &owner),
        }
        Ok(())
    }

    fn drop_node(&mut self, node: &Node) {
        self.pairs.retain(|pair| pair.owner.node != *node);
    }

    fn owned_by(&self, owner: &Pid) -> Option<Name> {
        name_in(self.pairs.as_slice(), owner)
    }

    fn names<B: Allocator>(&self, alloc: B) -> Result<Vec<Name, B>, AllocError> {
        names_in(alloc, self.pairs.as_slice())
    }

    fn pairs<B: Allocator>(&self, alloc: B) -> Result<Vec<Pair, B>, AllocError> {
        copied(alloc, self.pairs.as_slice())
    }

    fn rising(&self) {
        let _pairs = self.pairs.as_slice();
    }

    fn copy(&self, memory: A) -> Result<Self, AllocError> {
        let pairs = copied(memory, self.pairs.as_slice())?;
        Ok(ListTable { pairs })
    }
}
