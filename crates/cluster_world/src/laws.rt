//! What holds of every world, whatever is played on it.
ghost use Rattle.cluster_world.specs.Agreeing.{EveryWorldAgrees};
ghost use Rattle.cluster_world.specs.Locks.{LocksInEveryWorld, NeverBothHold};
ghost use Rattle.cluster_world.specs.Leftovers.{EveryWorldLeavesNothing};

/// The headline, of every world and of every list of events: all answers to name calls and joins are those of one sequential registry
/// that takes the granted operations in lock order, and whenever the lock is free, the tables are that registry's, less the names on
/// nodes that a node was told have left, and each node keeps for its processes what the registry has sent them.
pub fn headline_of_every_world()
    ensures { EveryWorldAgrees }
{}

/// Clients' locks, of every world and of every list of events: at a running node no resource is held under two requesters, where a
/// process holds a lock at a node as often as its `set_lock`s that asked it were answered `true`, less its `del_lock`s that went
/// there, and not at all once it is dead or its node has left. And so is answered: `false` for a reason and when all retries are used
/// up, `true` where a node that was asked isn't told of as departed, a `del_lock` when the lock is back, and a process that is dead never.
pub fn locks_of_every_world()
    ensures { LocksInEveryWorld }
{}

/// Nothing is left over, in any world and behind any list of events: once no letter waits on any link to any running node, each
/// running node's lock table has exactly the clients' locks that were granted and not given back, none of a process that died and
/// nobody's global lock, and a process that is dead in the registry is dead at its node, if that runs; once no operation waits for a
/// retry either, no running node has a name of a dead process.
pub fn nothing_is_left_in_any_world()
    ensures { EveryWorldLeavesNothing }
{}

/// Two requesters whose granted locks on one resource asked a common running node never both hold it there.
pub fn requesters_exclude_each_other()
    ensures { NeverBothHold }
{}
