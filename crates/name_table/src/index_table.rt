//! A table that is found by hashing.
ghost use Rattle.std.specs.Prelude.{◌≡◌, [], map, IfOk, OnOk, OnErr};
ghost use Rattle.registry_model.specs.Table.{put, remove, strike, names};
ghost use Rattle.name_table.specs.Index.{table_of, pair_of, HaveNames, Lists, Unlists, Forgets};

use crate::change::{Change, Pair, Registration};
use crate::name_set::NameSet;
use crate::names::Names;
use indexmap::IndexMap;
use std::alloc::{AllocError, Allocator};
use std::hash::{BuildHasherDefault, FoldHasher};
use std::marker::Model;
use term::{Name, Node, Pid};

/// What stands under each name.
type Owners<A> = IndexMap<Name, Registration, BuildHasherDefault<FoldHasher>, A>;

/// The names of each process that owns one.
type Owned<A> = IndexMap<Pid, NameSet<A>, BuildHasherDefault<FoldHasher>, A>;

/// A name with what stands under it, where they lie in a map.
type Standing<'a> = (&'a Name, &'a Registration);

/// A table of names that finds a name, and the names of a process, by hashing: what a look-up or a change of one
/// name costs doesn't grow with the table, but that a put whose map has no room left moves the whole map, as rarely as a
/// doubled map fills up. A list of all names is sorted when it is asked for.
#[derive(Drop)]
pub struct IndexTable<A: Allocator> {
    owners: Owners<A>,
    owned: Owned<A>,
}

impl<A: Allocator> Model for IndexTable<A> {
    ghost use Rattle.registry_model.specs.Table.{Table};
    ghost use Rattle.name_table.specs.Index.{table_of, Agrees};

    ghost Value = { Table };

    ghost view = { λ t. table_of t.owners.entries };

    ghost invariant = { λ t. Agrees t.owners.entries t.owned.entries };
}

/// Lists a name under its owner. Where memory is refused the index is as before.
fn list<A: Allocator + Copy + Drop>(
    owned: &mut Owned<A>,
    owner: &Pid,
    name: &Name,
) -> Result<(), AllocError>
    ensures ok { OnOk result (Lists owner.now name.now owned.old.entries owned.new.entries) }
    ensures err { OnErr result (owned.new.entries ≡ owned.old.entries) }
    ensures named { HaveNames owned.old.entries → HaveNames owned.new.entries }
{
    if let Some(names) = owned.get_mut(owner) {
        names.insert(name.copy())?;
        return Ok(());
    }
    let names = NameSet::one(*owned.allocator(), name.copy());
    owned.insert(owner.copy(), names)?;
    Ok(())
}

/// Lists a name under this process no more. It takes no memory.
fn unlist<A: Allocator + Copy + Drop>(owned: &mut Owned<A>, owner: &Pid, name: &Name)
    ensures unlisted { Unlists owner.now name.now owned.old.entries owned.new.entries }
    ensures named { HaveNames owned.old.entries → HaveNames owned.new.entries }
{
    if let Some(names) = owned.get_mut(owner) {
        names.remove(name);
        if names.is_empty() {
            owned.swap_remove(owner);
        }
    }
}

/// Nothing stands under these names from now on. It takes no memory.
fn forget<A: Allocator + Copy + Drop>(owners: &mut Owners<A>, mut names: NameSet<A>)
    ensures { Forgets names owners.old.entries owners.new.entries }
{
    while let Some(name) = names.pop() {
        owners.swap_remove(&name);
    }
}

/// The entries of a map, rising by name. They are sorted where they stand: only what leads to them is moved.
fn sorted<'a, A: Allocator + Copy>(
    owners: &'a Owners<A>,
) -> Result<Vec<Standing<'a>, A>, AllocError>
    ensures { IfOk result (λ sorted. map (λ e. pair_of (e.0.now, e.1.now)) sorted.items ≡ table_of owners.now.entries) }
{
    let mut sorted: Vec<Standing<'a>, A> = owners.iter().collect(*owners.allocator())?;
    sorted.sort_by(|left, right| left.0.cmp(right.0))?;
    Ok(sorted)
}

/// The names of these entries.
fn names_in<A: Allocator>(alloc: A, entries: &[Standing<'_>]) -> Result<Vec<Name, A>, AllocError>
    ensures { IfOk result (λ list. list.items ≡ map (λ e. e.0.now) entries.now) }
{
    entries.iter().map(|entry| entry.0.copy()).collect(alloc)
}

/// The pairs of these entries.
fn pairs_in<A: Allocator>(alloc: A, entries: &[Standing<'_>]) -> Result<Vec<Pair, A>, AllocError>
    ensures { IfOk result (λ pairs. pairs.items ≡ map (λ e. pair_of (e.0.now, e.1.now)) entries.now) }
{
    entries
        .iter()
        .map(|entry| Pair {
            name: entry.0.copy(),
            owner: entry.1.owner.copy(),
            rule: entry.1.rule,
        })
        .collect(alloc)
}

impl<A: Allocator + Copy + Drop> IndexTable<A> {
    /// A table without names. It takes no memory.
    fn new(memory: A) -> Self
        ensures { result ≡ [] }
    {
        IndexTable {
            owners: IndexMap::new(memory),
            owned: IndexMap::new(memory),
        }
    }

    /// This stands under the name from now on. Behind the listing nothing can be refused, so a refusal changes nothing.
    fn put(&mut self, name: Name, entry: Registration) -> Result<(), AllocError>
        ensures ok { OnOk result (self.new ≡ put (pair_of (name, entry)) self.old) }
        ensures err { OnErr result (self.new ≡ self.old) }
    {
        self.owners.reserve(1)?;
        list(&mut self.owned, &entry.owner, &name)?;
        let before = self.owners.insert(name.copy(), entry.copy()).unwrap();
        if let Some(before) = before {
            if before.owner != entry.owner {
                unlist(&mut self.owned, &before.owner, &name);
            }
        }
        Ok(())
    }

    /// Nobody has the name from now on.
    fn remove(&mut self, name: &Name)
        ensures { self.new ≡ remove name.now self.old }
    {
        if let Some(before) = self.owners.swap_remove(name) {
            unlist(&mut self.owned, &before.owner, name);
        }
    }

    /// The process has no name from now on.
    fn strike(&mut self, owner: &Pid)
        ensures { self.new ≡ strike owner.now self.old }
    {
        if let Some(names) = self.owned.swap_remove(owner) {
            forget(&mut self.owners, names);
        }
    }
}

impl<A: Allocator + Copy + Drop> Names for IndexTable<A> {
    type Memory = A;

    ghost contents = { λ t. t };

    fn empty(memory: A) -> Self {
        IndexTable::new(memory)
    }

    fn get(&self, name: &Name) -> Option<Registration> {
        let entry = self.owners.get(name)?;
        Some(entry.copy())
    }

    fn owner(&self, name: &Name) -> Option<Pid> {
        let entry = self.owners.get(name)?;
        Some(entry.owner.copy())
    }

    fn len(&self) -> usize {
        self.owners.len()
    }

    fn write(&mut self, change: Change) -> Result<(), AllocError> {
        match change {
            Change::Put(pair) => self.put(
                pair.name,
                Registration {
                    owner: pair.owner,
                    rule: pair.rule,
                },
            )?,
            Change::Remove(name) => self.remove(&name),
            Change::StrikeOwner(owner) => self.strike(&owner),
        }
        Ok(())
    }

    fn drop_node(&mut self, node: &Node) {
        // A name has one entry: the proof has this from `len`.
        let _owners = self.owners.len();
        self.owners.retain(|_name, entry| entry.owner.node != *node);
        self.owned.retain(|owner, _names| owner.node != *node);
    }

    fn owned_by(&self, owner: &Pid) -> Option<Name> {
        let names = self.owned.get(owner)?;
        let least = names.least()?;
        Some(least.copy())
    }

    fn names<B: Allocator>(&self, alloc: B) -> Result<Vec<Name, B>, AllocError> {
        names_in(alloc, &sorted(&self.owners)?)
    }

    fn pairs<B: Allocator>(&self, alloc: B) -> Result<Vec<Pair, B>, AllocError> {
        pairs_in(alloc, &sorted(&self.owners)?)
    }

    fn rising(&self) {
        let _owners = self.owners.len();
    }

    // The clone of a map takes its memory from where the map does.
    fn copy(&self, _memory: A) -> Result<Self, AllocError> {
        Ok(IndexTable {
            owners: self.owners.clone()?,
            owned: self.owned.clone()?,
        })
    }
}
