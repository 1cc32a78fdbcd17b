//! What a lock table says to one that asks.
use term::Requester;

/// What a lock table says to a holder that asks for a lock.
#[derive(Debug, PartialEq, Eq, Drop)]
pub enum Verdict {
    /// The holder has it once more.
    Grant,
    /// It is kept from the lock. The requester is the one that the resource is under: another one, or the holder's own
    /// where the holder has the lock as often as can be counted.
    Refuse(Requester),
}
