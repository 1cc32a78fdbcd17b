//! The names of one process.
ghost use Rattle.std.specs.Prelude.{◌≡◌, ◌==◌, ◌<◌, ◌↔◌, [], ◌∷◌, true, false, length, option_to_list, OnOk, OnErr, IfSome, IsSome, IsTrue};
ghost use Rattle.std.specs.BTreeSet.{contains, IsLowerBound};
ghost use Rattle.std.specs.List.{list_any};
ghost use Rattle.std.specs.Ordering.{nat_cmp};
ghost use Rattle.name_table.specs.Index.{Gains, Loses};

use std::alloc::{AllocError, Allocator};
use std::collections::BTreeSet;
use std::marker::Model;
use term::Name;

/// The names of one process. The first that came is kept in place, since most processes have one name.
#[derive(Drop)]
pub(crate) struct NameSet<A: Allocator> {
    first: Option<Name>,
    others: BTreeSet<Name, A>,
}

impl<A: Allocator> Model for NameSet<A> {
    ghost use Rattle.std.specs.Prelude.{◌++◌, option_to_list};
    ghost use Rattle.std.specs.BTreeSet.{BTreeSet};
    ghost use Rattle.registry_model.specs.Process.{Text};

    ghost Value = { BTreeSet Text };

    ghost view = { λ s. record { keys = option_to_list s.first ++ s.others.keys } };
}

/// The same name, where there is one.
fn copied(place: &Option<Name>) -> Option<Name>
    ensures { result ≡ place.now }
{
    match place {
        Some(there) => Some(there.copy()),
        None => None,
    }
}

/// Whether this name is there.
fn is_there(place: &Option<Name>, name: &Name) -> bool
    ensures { result ≡ list_any (λ x. name.now == x) (option_to_list place.now) }
{
    match place {
        Some(there) => *there == *name,
        None => false,
    }
}

impl<A: Allocator + Copy + Drop> NameSet<A> {
    /// The set of one name. It takes no memory.
    pub(crate) fn one(memory: A, name: Name) -> Self
        ensures { result.keys ≡ name ∷ [] }
    {
        NameSet {
            first: Some(name),
            others: BTreeSet::new(memory),
        }
    }

    /// Whether it has no name.
    pub(crate) fn is_empty(&self) -> bool
        ensures { IsTrue result ↔ (length self.now.keys ≡ 0) }
    {
        self.first.is_none() && self.others.is_empty()
    }

    /// Puts a name in. Where memory is refused the set is as before.
    pub(crate) fn insert(&mut self, name: Name) -> Result<(), AllocError>
        ensures ok { OnOk result (Gains name self.old self.new) }
        ensures err { OnErr result (self.new ≡ self.old) }
    {
        if self.is_empty() {
            self.first = Some(name);
        } else if !is_there(&self.first, &name) {
            self.others.insert(name)?;
        }
        Ok(())
    }

    /// Takes a name out. It takes no memory.
    pub(crate) fn remove(&mut self, name: &Name)
        ensures { Loses name.now self.old self.new }
    {
        if is_there(&self.first, name) {
            self.first = None;
        }
        self.others.remove(name);
    }

    /// Takes any name out. It takes no memory.
    pub(crate) fn pop(&mut self) -> Option<Name>
        ensures variant { IsSome result ↔ (0 < length self.old.keys) }
        ensures member { IfSome result (λ name. IsTrue (contains nat_cmp self.old name)) }
        ensures others { IfSome result (λ name. Loses name self.old self.new) }
        ensures len { IfSome result (λ name. length self.new.keys < length self.old.keys) }
    {
        match self.first.take() {
            Some(first) => {
                self.others.remove(&first);
                Some(first)
            }
            None => self.others.pop_first(),
        }
    }

    /// The least of its names.
    pub(crate) fn least(&self) -> Option<&Name>
        ensures variant { IsSome result ↔ (0 < length self.now.keys) }
        ensures member { IfSome result (λ name. IsTrue (contains nat_cmp self.now name.now)) }
        ensures least { IfSome result (λ name. IsLowerBound nat_cmp self.now name.now) }
    {
        match (&self.first, self.others.first()) {
            (Some(first), Some(other)) if *other < *first => Some(other),
            (Some(first), _) => Some(first),
            (None, other) => other,
        }
    }
}

impl<A: Allocator + Copy + Drop> Clone for NameSet<A> {
    ghost is_clone = { λ s t. t ≡ s };

    fn clone(&self) -> Result<Self, AllocError> {
        Ok(NameSet {
            first: copied(&self.first),
            others: self.others.clone()?,
        })
    }
}
