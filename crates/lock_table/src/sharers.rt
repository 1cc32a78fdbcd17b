//! Who shares a resource: whose name it is under, and how many grants are on it.
ghost use Rattle.std.specs.Prelude.{◌≡◌, ◌<◌, ◌==◌, ◌-◌, ◌^◌, ℕ, false, None, Some, IfNone, IfSome, OnOk};
ghost use Rattle.indexmap.specs.IndexMap.{spare};
ghost use Rattle.lock_table.specs.Sharers.{sharers_of, grants_in, IsUnder, IsOpen, Joins, Leaves};

use indexmap::IndexMap;
use term::{Requester, Resource};

/// The requester that a resource is under, and how many grants are on it.
#[derive(Clone, Debug, Drop)]
pub(crate) struct Sharers {
    pub(crate) requester: Requester,
    pub(crate) grants: u64,
}

/// The sharers of each resource that has a grant.
pub(crate) type Shared = IndexMap<Resource, Sharers>;

/// The requester that keeps others from a resource, where it is not this one.
pub(crate) fn other_requester(
    shared: &Shared,
    resource: &Resource,
    requester: &Requester,
) -> Option<Requester>
    ensures some { IfSome result (λ other. IsUnder resource.now other shared.now.entries × ((other == requester.now) ≡ false)) }
    ensures none { IfNone result (IsOpen resource.now requester.now shared.now.entries) }
{
    let sharers = shared.get(resource)?;
    if sharers.requester == *requester {
        None
    } else {
        Some(sharers.requester.copy())
    }
}

/// Counts one grant more on a resource. It takes no memory, since there is room.
pub(crate) fn join(shared: &mut Shared, resource: &Resource, requester: &Requester)
    requires room { 0 < spare shared.old }
    requires countable { grants_in (sharers_of resource.now shared.old.entries) < 2 ^ 64 - 1 }
    ensures { Joins resource.now requester.now shared.old.entries shared.new.entries }
{
    if let Some(sharers) = shared.get_mut(resource) {
        sharers.grants += 1;
        return;
    }
    let first = Sharers {
        requester: requester.copy(),
        grants: 1,
    };
    let _none = shared.insert(resource.copy(), first).unwrap();
}

/// Counts one grant less on a resource, and forgets it with its last.
pub(crate) fn leave(shared: &mut Shared, resource: &Resource)
    ensures { Leaves resource.now shared.old.entries shared.new.entries }
{
    if let Some(sharers) = shared.get_mut(resource) {
        if sharers.grants > 1 {
            sharers.grants -= 1;
        } else {
            shared.swap_remove(resource);
        }
    }
}
