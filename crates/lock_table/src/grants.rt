//! The grants of one node: one on the resource `global`, which is kept in place, and the others.
ghost use Rattle.std.specs.Prelude.{◌≡◌, ◌==◌, ◌<◌, ◌-◌, ◌^◌, [], None, Some, false, length, All, IfOk, IfNone, IfSome, OnOk, OnErr};
ghost use Rattle.std.specs.Option.{option_copied};
ghost use Rattle.registry_model.specs.Process.{is_process};
ghost use Rattle.lock_table.specs.Filed.{held_at};
ghost use Rattle.lock_table.specs.Grants.{is_in_place, HasUnder, IsOpenTo, IsFreeFor, IsHeld, Recounts, Gains, Loses};

use crate::grant::{Held, KeptGrant, Key};
use crate::others::OtherGrants;
use std::alloc::{AllocError, Global};
use std::marker::Model;
use term::{Node, Pid, Requester, Resource};

/// Grants by what they are on and who has them. The resource `global` is asked for with each name that is registered, and
/// one registrar has it at a time: that grant is kept in place, so it costs no search and no memory. A second holder's
/// grant of it goes to the others.
#[derive(Debug, Drop)]
pub(crate) struct AllGrants {
    /// The resource `global`.
    global: Resource,
    kept: Option<KeptGrant>,
    /// Whether none of the others is on `global`.
    is_apart: bool,
    others: OtherGrants,
}

impl Model for AllGrants {
    ghost use Rattle.std.specs.Prelude.{List, ◌≡◌, true};
    ghost use Rattle.lock_table.specs.Filed.{Entry};
    ghost use Rattle.lock_table.specs.Grants.{and_others, IsNoneOn};

    ghost Value = { List Entry };

    ghost view = { λ t. and_others t.kept t.others };

    ghost invariant = { λ t. t.is_apart ≡ true → IsNoneOn t.global t.others };
}

/// Whether the grant that is kept is the key's.
fn is_kept(kept: &Option<KeptGrant>, key: &Key) -> bool
    ensures { result ≡ is_in_place key.now kept.now }
{
    match kept {
        Some(grant) => *key == grant.key,
        None => false,
    }
}

/// The same, if any is kept.
fn copied(kept: &Option<KeptGrant>) -> Option<KeptGrant>
    ensures { result ≡ kept.now }
{
    match kept {
        Some(grant) => Some(grant.copy()),
        None => None,
    }
}

impl AllGrants {
    /// No grant. It takes no memory yet.
    pub(crate) fn new(alloc: Global) -> Self
        ensures { result ≡ [] }
    {
        AllGrants {
            global: Resource::global(),
            kept: None,
            is_apart: true,
            others: OtherGrants::new(alloc),
        }
    }

    /// The same grants, in memory of their own.
    pub(crate) fn copy(&self) -> Result<Self, AllocError>
        ensures { IfOk result (λ copy. copy ≡ self.now) }
    {
        Ok(AllGrants {
            global: self.global.copy(),
            kept: copied(&self.kept),
            is_apart: self.is_apart,
            others: self.others.copy()?,
        })
    }

    /// How many there are.
    pub(crate) fn len(&self) -> usize
        ensures { result ≡ length self.now }
    {
        let others = self.others.len();
        match &self.kept {
            Some(_) => others + 1,
            None => others,
        }
    }

    /// What is filed under a key.
    pub(crate) fn get(&self, key: &Key) -> Option<&Held>
        ensures value { option_copied result ≡ held_at self.now key.now }
    {
        match &self.kept {
            Some(grant) if *key == grant.key => Some(&grant.held),
            _ if self.is_apart && key.resource == self.global => None,
            _ => self.others.get(key),
        }
    }

    /// The requester that keeps others from a resource, where it is not this one.
    pub(crate) fn other_requester(
        &self,
        resource: &Resource,
        requester: &Requester,
    ) -> Option<Requester>
        ensures some { IfSome result (λ other. HasUnder resource.now self.now other × ((other == requester.now) ≡ false)) }
        ensures none { IfNone result (IsOpenTo resource.now self.now requester.now) }
    {
        match &self.kept {
            Some(grant) if grant.key.resource == *resource => grant.held.other_requester(requester),
            _ if self.is_apart && *resource == self.global => None,
            _ => self.others.other_requester(resource, requester),
        }
    }

    /// Gives the grant of a key, if there is one, another count.
    pub(crate) fn set_count(&mut self, key: &Key, count: u32)
        ensures { Recounts key.now count self.old self.new }
    {
        if !is_kept(&self.kept, key) {
            self.others.set_count(key, count);
            return;
        }
        if let Some(grant) = &mut self.kept {
            grant.held.count = count;
        }
    }

    /// Files the first grant of a key, in place where it is on `global` and none is kept there. A refusal changes nothing.
    pub(crate) fn file(
        &mut self,
        key: Key,
        requester: Requester,
        number: u64,
    ) -> Result<(), AllocError>
        requires absent { held_at self.old key ≡ None }
        requires free { IsFreeFor key.resource requester self.old }
        requires last { All (λ e. e.1.number < number) self.old }
        requires few { length self.old < 2 ^ 64 - 1 }
        ensures ok { OnOk result (Gains (key, record { requester = requester; count = 1; number = number }) self.old self.new) }
        ensures err { OnErr result (self.new ≡ self.old) }
    {
        let is_global = key.resource == self.global;
        if is_global && self.kept.is_none() {
            let held = Held {
                requester,
                count: 1,
                number,
            };
            self.kept = Some(KeptGrant { key, held });
            return Ok(());
        }
        self.others.file(key, requester, number)?;
        self.is_apart = self.is_apart && !is_global;
        Ok(())
    }

    /// Takes the grant of a key away, where there is one.
    pub(crate) fn remove(&mut self, key: &Key)
        ensures { Loses key.now self.old self.new }
    {
        if is_kept(&self.kept, key) {
            self.kept = None;
        } else {
            self.others.remove(key);
            self.is_apart = self.is_apart || !self.others.is_locked(&self.global);
        }
    }

    /// What one of a holder's grants is filed under, if the holder has any.
    pub(crate) fn first_of(&self, holder: &Pid) -> Option<Key>
        ensures some { IfSome result (λ key. IsHeld key self.now × (key.holder ≡ holder.now)) }
        ensures none { IfNone result (All (λ e. is_process e.0.holder holder.now ≡ false) self.now) }
    {
        match &self.kept {
            Some(grant) if grant.key.holder == *holder => Some(grant.key.copy()),
            _ => self.others.first_of(holder),
        }
    }

    /// What one of the grants of a node's processes is filed under, if any of them has one.
    pub(crate) fn first_on(&self, node: &Node) -> Option<Key>
        ensures some { IfSome result (λ key. IsHeld key self.now × (key.holder.node ≡ node.now)) }
        ensures none { IfNone result (All (λ e. (e.0.holder.node == node.now) ≡ false) self.now) }
    {
        match &self.kept {
            Some(grant) if grant.key.holder.node == *node => Some(grant.key.copy()),
            _ => self.others.first_on(node),
        }
    }
}
