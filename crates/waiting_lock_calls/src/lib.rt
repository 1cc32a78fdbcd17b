//! What becomes of lock calls that wait: each call of a node that is retried wins, fails, waits on with one retry less, or
//! is dropped with its process. Each law is the contract of a function with an empty body.
#![tactic(auto)]

ghost use Rattle.waiting_lock_calls.specs.Retried.{RetriesAreTold, FreeCallsWin};
ghost use Rattle.waiting_lock_calls.specs.NoDeadEnd.{NoDeadEnd};
ghost use Rattle.getting_through.specs.Worlds.{OfNodes};
ghost use Rattle.getting_through.specs.WorldsOfNames.{OfNames};

/// A node is retried where no letter waits, and letters are delivered until none waits again: each of its lock calls that
/// waited has won, has failed by its last retry or for want of anybody to ask, waits on with one retry less, or its process
/// has died.
pub fn retries_are_told()
    ensures { OfNodes RetriesAreTold }
{}

/// And it has won, unless its process has died, where its lock is free at the nodes that it asks and no other call of its
/// node asks one of them for the same resource under another requester.
pub fn free_calls_win()
    ensures { OfNodes FreeCallsWin }
{}

/// No dead end: from every world that events can reach some deliveries and retries lead on to one in which each name call and
/// each join has been answered, and of lock calls only those wait that are held up: by a lock, by their own count, or by a
/// rival of their node that comes first and is held up itself.
pub fn no_dead_end()
    ensures { OfNodes NoDeadEnd }
{}

/// Where nodes have names and come back each lock call of a retried node becomes one of the same, once letters were delivered until
/// none waits for a node that runs.
pub fn retries_of_names_are_told()
    ensures { OfNames RetriesAreTold }
{}

/// And it has won, unless its process has died, where its lock is free at the nodes that it asks and it has no rival.
pub fn free_calls_of_names_win()
    ensures { OfNames FreeCallsWin }
{}

/// No dead end there, either: deliveries by names, and retries, lead on to where of lock calls only those wait that are held up.
pub fn no_dead_end_of_names()
    ensures { OfNames NoDeadEnd }
{}
