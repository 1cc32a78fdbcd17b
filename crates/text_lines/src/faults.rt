//! Why lines aren't read or answered to their end.
ghost use Rattle.std.specs.Prelude.{◌≡◌};
ghost use Rattle.text_lines.specs.Writing.{stop_of};
ghost use Rattle.text_lines.specs.declared.faults.StreamFault.TheVariants.{Memory};
ghost use Rattle.text_lines.specs.declared.faults.WriteFault.TheVariants as write;

use std::alloc::AllocError;
use thiserror::Error;

/// Why lines aren't read to their end and answered, be they those of a script or of a console. The text doesn't say which.
#[derive(Debug, Drop, Error)]
pub enum StreamFault {
    /// The reader failed: all is written that the lines before print.
    #[error("the lines can't be read")]
    Read,
    /// The writer failed: a part is written of what the lines so far print.
    #[error("the answers can't be written")]
    Write,
    /// The next line takes the count past the lines that may come, or counts for more than 1,000,000 itself: all is written that the
    /// lines before it print.
    #[error("too many lines")]
    TooManyLines,
    /// Memory was refused: a part is written of what the lines so far print.
    #[error("out of memory")]
    Memory,
}

impl From<AllocError> for StreamFault {
    ghost from_gives = { λ _ e. e ≡ Memory };

    fn from(_: AllocError) -> Self {
        StreamFault::Memory
    }
}

/// Why a text wasn't written.
#[derive(Drop)]
pub enum WriteFault {
    /// The writer failed.
    Writer,
    /// Memory was refused.
    Memory,
}

impl From<AllocError> for WriteFault {
    ghost from_gives = { λ _ e. e ≡ write.Memory };

    fn from(_: AllocError) -> Self {
        WriteFault::Memory
    }
}

impl From<WriteFault> for StreamFault {
    ghost from_gives = { λ f e. e ≡ stop_of f };

    fn from(fault: WriteFault) -> Self {
        match fault {
            WriteFault::Writer => StreamFault::Write,
            WriteFault::Memory => StreamFault::Memory,
        }
    }
}
