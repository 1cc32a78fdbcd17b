//! That nobody starves at an inbox: the contract of a function that does nothing.
ghost use Rattle.node_threads.specs.Fairness.{LettersGiveWay, TasksComeUp};

/// While a task waits at a node's end 64 letters at most are taken there in a row; and a task that waits behind others is taken, whatever
/// else comes: with the second task behind it at the latest where it waits longest, and so among the next 130 items.
pub fn nobody_starves()
    ensures letters { LettersGiveWay }
    ensures tasks { TasksComeUp }
{}
