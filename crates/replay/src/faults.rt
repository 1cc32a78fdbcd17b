//! Why a run isn't one of the world's.
ghost use Rattle.std.specs.Prelude.{◌≡◌};

use std::alloc::AllocError;
use term::Node;
use thiserror::Error;

/// Why a cluster's run isn't one of the world's, in the order in which the causes are looked for.
#[derive(Debug, PartialEq, Eq, Error, Drop)]
pub enum CloseFault {
    /// The log of this node can't be played further than to its entry `at`, counted from 0: its stamp isn't above that before it,
    /// its event is another node's, the world refuses it, or the world answers it otherwise. Or all logs were played, and then the
    /// node's table isn't the world's: `at` is the length of its log.
    #[error("torn {node} {at}")]
    Torn {
        /// The node.
        node: Node,
        /// The place in its log.
        at: usize,
    },
    /// The last turn of the thread of this node, the least such, failed, and the node hadn't left. It is looked for before anything
    /// is played.
    #[error("left_in_hold {0}")]
    LeftInHold(Node),
    /// All was played, and a transcript of this seat, the least such, has an entry that isn't, in its order, among what the run gave
    /// the seat; or it is the seat's second transcript.
    #[error("stranger {0}")]
    Stranger(u32),
    /// Memory was refused.
    #[error("memory")]
    Memory,
}

impl From<AllocError> for CloseFault {
    ghost use Rattle.replay.specs.declared.faults.CloseFault.{CloseFault};

    ghost from_gives = { λ _ fault. fault ≡ CloseFault.Memory };

    fn from(_: AllocError) -> CloseFault {
        CloseFault::Memory
    }
}
