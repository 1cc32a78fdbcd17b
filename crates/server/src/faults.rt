//! Why a cluster isn't served to its end.
ghost use Rattle.std.specs.Prelude.{◌≡◌};
ghost use Rattle.server.specs.Faults.{fault_of_taking};
ghost use Rattle.server.specs.declared.faults.ServeFault.{ServeFault as AnyFault};
ghost use Rattle.server.specs.declared.faults.StayFault.{StayFault as AnyStayFault};
ghost use Rattle.server.specs.declared.faults.TakeFault.{TakeFault as AnyTakeFault};

use std::alloc::AllocError;
use text_lines::WriteFault;
use thiserror::Error;

/// Why a cluster isn't served to its end. Then no further console is taken and no line tells how it closed; it is closed all the
/// same, behind the consoles that were taken.
#[derive(Debug, PartialEq, Eq, Error, Drop)]
pub enum ServeFault {
    /// A connection couldn't be taken: nothing is written.
    #[error("no console can be taken")]
    Accept,
    /// The writer failed: a part of the last line is written.
    #[error("the last line can't be written")]
    Write,
    /// Memory was refused, or a thread couldn't be had: nothing is written.
    #[error("out of memory")]
    Memory,
}

impl From<AllocError> for ServeFault {
    ghost from_gives = { λ _ fault. fault ≡ AnyFault.Memory };

    fn from(_: AllocError) -> ServeFault {
        ServeFault::Memory
    }
}

impl From<WriteFault> for ServeFault {
    ghost from_gives = { λ _ fault. fault ≡ AnyFault.Write };

    fn from(_: WriteFault) -> ServeFault {
        ServeFault::Write
    }
}

/// Why a cluster that stays isn't served to its end. It is ended all the same.
#[derive(Debug, PartialEq, Eq, Error, Drop)]
pub enum StayFault {
    /// Memory was refused, or a thread couldn't be had, before anybody could be served: nothing is written.
    #[error("no memory or no threads for so many nodes and consoles")]
    Start,
    /// The writer failed: a part of the first line is written, or a part of the last one.
    #[error("a line can't be written")]
    Write,
    /// Memory was refused for the last line: the first one is written alone.
    #[error("out of memory")]
    Memory,
}

impl From<AllocError> for StayFault {
    ghost from_gives = { λ _ fault. fault ≡ AnyStayFault.Memory };

    fn from(_: AllocError) -> StayFault {
        StayFault::Memory
    }
}

impl From<WriteFault> for StayFault {
    ghost from_gives = { λ _ fault. fault ≡ AnyStayFault.Write };

    fn from(_: WriteFault) -> StayFault {
        StayFault::Write
    }
}

/// Why consoles aren't taken any more.
#[derive(Debug, Drop)]
pub(crate) enum TakeFault {
    /// A connection couldn't be taken.
    Accept,
    /// Memory was refused, or a thread couldn't be had.
    Memory,
}

impl From<AllocError> for TakeFault {
    ghost from_gives = { λ _ fault. fault ≡ AnyTakeFault.Memory };

    fn from(_: AllocError) -> TakeFault {
        TakeFault::Memory
    }
}

impl From<TakeFault> for ServeFault {
    ghost from_gives = { λ cause fault. fault ≡ fault_of_taking cause };

    fn from(fault: TakeFault) -> ServeFault {
        match fault {
            TakeFault::Accept => ServeFault::Accept,
            TakeFault::Memory => ServeFault::Memory,
        }
    }
}
