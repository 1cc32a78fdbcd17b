//! Why a call of a watch is refused.
use thiserror::Error;

/// Why a call is refused, in the order in which the causes are looked for.
#[derive(Clone, Copy, Debug, PartialEq, Eq, Error)]
pub enum WatchFault {
    /// No serial is left.
    #[error("serials_spent")]
    SerialsSpent,
    /// The process is another node's, or its serial wasn't given.
    #[error("no_such_process")]
    NoSuchProcess,
    /// The process is dead already.
    #[error("already_exited")]
    AlreadyExited,
    /// Memory was refused.
    #[error("memory")]
    Memory,
}
