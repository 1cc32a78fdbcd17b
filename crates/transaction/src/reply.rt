//! What the calls of a lock holder are answered.

use term::LockId;

/// A reply to a lock call.
#[derive(Debug, PartialEq, Eq, Drop)]
pub enum LockReply {
    /// Whether the lock was granted.
    Set(LockId, bool),
    /// A count of the lock was taken away, if there was one.
    Deleted(LockId),
}
