//! The grants that are filed by what they are on and who has them, and by their holders.
ghost use Rattle.std.specs.Prelude.{◌≡◌, ◌==◌, ◌<◌, ◌-◌, ◌^◌, [], None, Some, false, length, All, MatchBool, IfOk, IfNone, IfSome, OnOk, OnErr};
ghost use Rattle.std.specs.Option.{option_copied};
ghost use Rattle.registry_model.specs.Process.{is_process};
ghost use Rattle.lock_table.specs.Filed.{held_at};
ghost use Rattle.lock_table.specs.Grants.{HasUnder, IsSomeOn, IsNoneOn, IsOpenTo, IsFreeFor, IsHeld, Recounts, Gains, Loses};

use crate::grant::{Held, Key};
use crate::sharers::{Shared, join, leave, other_requester};
use crate::slots::{Places, Slot, first_from, put, take};
use indexmap::IndexMap;
use std::alloc::{AllocError, Global};
use std::marker::Model;
use term::{Node, Pid, Requester, Resource};

/// Grants by what they are on and who has them, with the requester that each resource is under, and where the grants of
/// each holder stand.
#[derive(Debug, Drop)]
pub(crate) struct OtherGrants {
    grants: IndexMap<Key, Held>,
    shared: Shared,
    /// The resource of each grant, where the grant stands among its holder's.
    by_holder: Places,
}

impl Model for OtherGrants {
    ghost use Rattle.std.specs.Prelude.{List};
    ghost use Rattle.lock_table.specs.Filed.{Entry};
    ghost use Rattle.lock_table.specs.Kept.{IsKept};

    ghost Value = { List Entry };

    ghost view = { λ t. t.grants.entries };

    ghost invariant = { λ t. IsKept t.grants.entries t.by_holder.entries t.shared.entries };
}

impl OtherGrants {
    /// No grant. It takes no memory yet.
    pub(crate) fn new(alloc: Global) -> Self
        ensures { result ≡ [] }
    {
        OtherGrants {
            grants: IndexMap::new(alloc),
            shared: IndexMap::new(alloc),
            by_holder: IndexMap::new(alloc),
        }
    }

    /// The same grants, in memory of their own.
    pub(crate) fn copy(&self) -> Result<Self, AllocError>
        ensures { IfOk result (λ copy. copy ≡ self.now) }
    {
        Ok(OtherGrants {
            grants: self.grants.clone()?,
            shared: self.shared.clone()?,
            by_holder: self.by_holder.clone()?,
        })
    }

    /// How many there are.
    pub(crate) fn len(&self) -> usize
        ensures count { result ≡ length self.now }
        ensures few { result < 2 ^ 63 }
    {
        self.grants.len()
    }

    /// What is filed under a key.
    pub(crate) fn get(&self, key: &Key) -> Option<&Held>
        ensures value { option_copied result ≡ held_at self.now key.now }
    {
        self.grants.get(key)
    }

    /// Whether some grant is on a resource.
    pub(crate) fn is_locked(&self, resource: &Resource) -> bool
        ensures { MatchBool result (IsSomeOn resource.now self.now) (IsNoneOn resource.now self.now) }
    {
        self.shared.contains_key(resource)
    }

    /// The requester that keeps others from a resource, where it is not this one.
    pub(crate) fn other_requester(
        &self,
        resource: &Resource,
        requester: &Requester,
    ) -> Option<Requester>
        ensures some { IfSome result (λ other. HasUnder resource.now self.now other × ((other == requester.now) ≡ false)) }
        ensures none { IfNone result (IsOpenTo resource.now self.now requester.now) }
    {
        other_requester(&self.shared, resource, requester)
    }

    /// Gives the grant of a key, if there is one, another count.
    pub(crate) fn set_count(&mut self, key: &Key, count: u32)
        ensures { Recounts key.now count self.old self.new }
    {
        let Some(held) = self.grants.get_mut(key) else {
            return;
        };
        held.count = count;
    }

    /// Files the first grant of a key. What can be refused comes before what can't, so a refusal changes nothing.
    pub(crate) fn file(
        &mut self,
        key: Key,
        requester: Requester,
        number: u64,
    ) -> Result<(), AllocError>
        requires absent { held_at self.old key ≡ None }
        requires free { IsFreeFor key.resource requester self.old }
        requires last { All (λ e. e.1.number < number) self.old }
        requires few { length self.old < 2 ^ 64 - 1 }
        ensures ok { OnOk result (Gains (key, record { requester = requester; count = 1; number = number }) self.old self.new) }
        ensures err { OnErr result (self.new ≡ self.old) }
    {
        self.grants.reserve(1)?;
        self.shared.reserve(1)?;
        put(&mut self.by_holder, &key.holder, number, &key.resource)?;
        join(&mut self.shared, &key.resource, &requester);
        let held = Held {
            requester,
            count: 1,
            number,
        };
        let _none = self.grants.insert(key, held).unwrap();
        Ok(())
    }

    /// Takes the grant of a key away, where there is one.
    pub(crate) fn remove(&mut self, key: &Key)
        ensures { Loses key.now self.old self.new }
    {
        if let Some(held) = self.grants.swap_remove(key) {
            take(&mut self.by_holder, &key.holder, held.number);
            leave(&mut self.shared, &key.resource);
        }
    }

    /// What a holder's first grant is filed under, if the holder has any.
    pub(crate) fn first_of(&self, holder: &Pid) -> Option<Key>
        ensures some { IfSome result (λ key. IsHeld key self.now × (key.holder ≡ holder.now)) }
        ensures none { IfNone result (All (λ e. is_process e.0.holder holder.now ≡ false) self.now) }
    {
        let from = Slot {
            serial: holder.serial,
            number: 0,
        };
        let key = first_from(&self.by_holder, &holder.node, &from)?;
        if key.holder.serial == holder.serial {
            Some(key)
        } else {
            None
        }
    }

    /// What the first grant of a node's first holder is filed under, if any of its processes has one.
    pub(crate) fn first_on(&self, node: &Node) -> Option<Key>
        ensures some { IfSome result (λ key. IsHeld key self.now × (key.holder.node ≡ node.now)) }
        ensures none { IfNone result (All (λ e. (e.0.holder.node == node.now) ≡ false) self.now) }
    {
        let from = Slot {
            serial: 0,
            number: 0,
        };
        first_from(&self.by_holder, node, &from)
    }
}
