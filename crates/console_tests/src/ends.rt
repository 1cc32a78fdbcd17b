//! How consoles ended.
use console::{ConsoleEnd, ConsoleFault};

/// How a console ended.
#[derive(Clone, Copy, PartialEq, Eq)]
pub(crate) enum Ended {
    /// Without a fault.
    Whole,
    /// Its reader failed.
    Read,
    /// Its writer failed.
    Write,
    /// More lines came than may.
    TooMany,
    /// It was refused memory.
    Memory,
}

/// How it ended that met a fault.
pub(crate) fn ended_by(fault: &ConsoleFault) -> Ended {
    match fault {
        ConsoleFault::Read => Ended::Read,
        ConsoleFault::Write => Ended::Write,
        ConsoleFault::TooManyLines => Ended::TooMany,
        ConsoleFault::Memory => Ended::Memory,
    }
}

/// How it ended that came to this.
pub(crate) fn how_ended(found: Result<ConsoleEnd, ConsoleFault>) -> Ended {
    match found {
        Ok(_) => Ended::Whole,
        Err(fault) => ended_by(&fault),
    }
}
