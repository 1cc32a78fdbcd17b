//! Nothing is left over: once no letter waits, nobody keeps a lock, a name or a life that was told to be gone.
//! Each law is the contract of a function with an empty body.
#![tactic(auto)]

ghost use Rattle.headline.specs.Worlds.{OfNodes};
ghost use Rattle.leftovers.specs.Leftovers.{NothingIsLeft, HeldLocksStand, LocksAreAsTold, NoEmptyGrants, NobodyKeepsTheGlobalLock, DeadHoldersHoldNothing, FreeLocksAreGranted, DeathsAreKnown, DeathsAreCarriedOut, DeathsAreCarriedOutWhenFree, DeparturesAreTold, NoNameOnADepartedNode, DeadOwnersOwnNothing, KnownDeadOwnNothing};

/// Nothing is left over: all that follows, in one record.
pub fn nothing_is_left()
    ensures { OfNodes NothingIsLeft }
{}

/// At any time a running node's lock table has each lock for each process at least as often as events and answers tell.
pub fn held_locks_stand()
    ensures { OfNodes HeldLocksStand }
{}

/// Where no letter waits on a link to a running node it has each lock for each process exactly so often.
pub fn locks_are_as_told()
    ensures { OfNodes LocksAreAsTold }
{}

/// And it lists no grant but those of locks that are held.
pub fn no_empty_grants()
    ensures { OfNodes NoEmptyGrants }
{}

/// Nor is anybody's global lock left there.
pub fn nobody_keeps_the_global_lock()
    ensures { OfNodes NobodyKeepsTheGlobalLock }
{}

/// A lock of a process that died, or whose node has left, doesn't stand there.
pub fn dead_holders_hold_nothing()
    ensures { OfNodes DeadHoldersHoldNothing }
{}

/// And a lock whose resource nobody holds under another requester is granted to whoever asks.
pub fn free_locks_are_granted()
    ensures { OfNodes FreeLocksAreGranted }
{}

/// At any time a process that is dead at its node is dead in the registry.
pub fn deaths_are_known()
    ensures { OfNodes DeathsAreKnown }
{}

/// Where no letter waits a process that is dead in the registry is dead at its node, if that runs.
pub fn deaths_are_carried_out()
    ensures { OfNodes DeathsAreCarriedOut }
{}

/// And so it is at any time at which no operation holds in the group of that node.
pub fn deaths_are_carried_out_when_free()
    ensures { OfNodes DeathsAreCarriedOutWhenFree }
{}

/// Where no letter waits each running node was told of each node that has left.
pub fn departures_are_told()
    ensures { OfNodes DeparturesAreTold }
{}

/// And has no name of a process of such a node.
pub fn no_name_on_a_departed_node()
    ensures { OfNodes NoNameOnADepartedNode }
{}

/// Where no operation waits for a retry either, no running node has a name of a process that is dead at its node.
pub fn dead_owners_own_nothing()
    ensures { OfNodes DeadOwnersOwnNothing }
{}

/// Nor of one that is dead in the registry.
pub fn known_dead_own_nothing()
    ensures { OfNodes KnownDeadOwnNothing }
{}
