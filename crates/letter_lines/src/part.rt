//! The parts of letters.
use exchange::Noted;
use name_table::{Change, Pair};
use term::{LockId, Name, Node, Pid};

/// A part of a letter, which is what one line says: an item of one of its lists, or behind its items the letter itself.
#[derive(Debug, PartialEq, Eq, Drop)]
pub enum Part {
    /// A name of a table: a joiner's own, or of the cluster that it joins.
    Pair(Pair),
    /// A name of a joiner that is put.
    Put(Pair),
    /// A name that nobody has from then on.
    Remove(Name),
    /// A process that dies.
    Kill(Pid),
    /// What a process is sent.
    Notice(Noted),
    /// A member.
    Member(Node),
    /// A node that is told to have left.
    Told(Node),
    /// Asks for one grant of a lock.
    SetLock(LockId, Pid),
    /// Answers that: whether it is granted.
    LockAnswer(LockId, Pid, bool),
    /// Takes one grant of a lock back, and asks for a `GivenBack` where the flag is set.
    GiveBack(LockId, Pid, bool),
    /// Answers that.
    GivenBack(Pid),
    /// Takes all grants of a process back.
    ReleaseOf(Pid),
    /// Write this.
    Apply(Change),
    /// It was written, or the admission or welcome was carried out.
    Applied,
    /// A lone node asks to join, with the pairs before it.
    JoinAsk,
    /// Answers that: the node that was asked isn't joined itself.
    JoinRefused,
    /// This node joins, with the puts, removes, kills and notices before it.
    Admit(Node),
    /// The receiver has joined, with the members, pairs, told nodes, kills and notices before it.
    Welcome,
    /// The sender has left.
    Down,
}
