//! Grants, and where they are filed.
ghost use Rattle.std.specs.Prelude.{◌≡◌, ◌==◌, true, false, IfNone, IfSome};

use term::{LockId, Pid, Requester, Resource};

/// What a grant is filed under: what the lock is on, and who has it.
#[derive(Clone, Debug, PartialEq, Eq, Hash, Drop)]
pub(crate) struct Key {
    pub(crate) resource: Resource,
    pub(crate) holder: Pid,
}

/// How often a holder has a lock, and in whose name.
#[derive(Clone, Debug, Drop)]
pub(crate) struct Held {
    pub(crate) requester: Requester,
    pub(crate) count: u32,
    /// Rises with each first grant.
    pub(crate) number: u64,
}

/// A grant, and what it would be filed under.
#[derive(Debug, Drop)]
pub(crate) struct KeptGrant {
    pub(crate) key: Key,
    pub(crate) held: Held,
}

impl Key {
    /// Where the grant of this id to this holder is filed, if there is one.
    pub(crate) fn of(id: &LockId, holder: &Pid) -> Key
        ensures { result ≡ record { resource = id.now.resource; holder = holder.now } }
    {
        Key {
            resource: id.resource.copy(),
            holder: holder.copy(),
        }
    }

    /// The same key.
    pub(crate) fn copy(&self) -> Key
        ensures { result ≡ self.now }
    {
        Key {
            resource: self.resource.copy(),
            holder: self.holder.copy(),
        }
    }
}

impl Held {
    /// In whose name it is held, where that is another requester than this one.
    pub(crate) fn other_requester(&self, requester: &Requester) -> Option<Requester>
        ensures some { IfSome result (λ other. (other ≡ self.now.requester) × ((other == requester.now) ≡ false)) }
        ensures none { IfNone result ((self.now.requester == requester.now) ≡ true) }
    {
        if self.requester == *requester {
            None
        } else {
            Some(self.requester.copy())
        }
    }

    /// The same.
    pub(crate) fn copy(&self) -> Held
        ensures { result ≡ self.now }
    {
        Held {
            requester: self.requester.copy(),
            count: self.count,
            number: self.number,
        }
    }
}

impl KeptGrant {
    /// The same grant.
    pub(crate) fn copy(&self) -> KeptGrant
        ensures { result ≡ self.now }
    {
        KeptGrant {
            key: self.key.copy(),
            held: self.held.copy(),
        }
    }
}
