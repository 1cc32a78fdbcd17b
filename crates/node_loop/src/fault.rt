//! Why a node's thread ends.
ghost use Rattle.std.specs.Prelude.{◌≡◌};

use std::alloc::AllocError;
use thiserror::Error;

/// Why a turn ends its node's thread.
#[derive(Clone, Copy, Debug, PartialEq, Eq, Error)]
pub enum TurnFault {
    /// No stamp is left for a step.
    #[error("stamps_spent")]
    StampsSpent,
    /// Memory was refused as often as it is asked for.
    #[error("memory")]
    Memory,
}

impl From<AllocError> for TurnFault {
    ghost use Rattle.node_loop.specs.declared.fault.TurnFault.{TurnFault};

    ghost from_gives = { λ _ fault. fault ≡ TurnFault.Memory };

    fn from(_: AllocError) -> TurnFault {
        TurnFault::Memory
    }
}
