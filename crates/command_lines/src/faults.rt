//! Why a line is refused before it is played.
ghost use Rattle.std.specs.Prelude.{◌≡◌};
ghost use Rattle.command_lines.specs.Printing.{word_of};
ghost use Rattle.command_lines.specs.declared.faults.LineFault.TheVariants.{Text, Memory};

use std::alloc::AllocError;
use term::TextFault;
use world_events::StartFault;

/// Why a line is refused before it is played.
#[derive(Debug, Drop)]
pub enum LineFault {
    /// It is no command, or has the wrong number of words.
    BadLine,
    /// It is longer than a line may be.
    LineTooLong,
    /// It has a byte above 127.
    NotAscii,
    /// A text spells nothing.
    Text(TextFault),
    /// There can't be a world of these nodes. Want of memory is no such cause: that is `Memory`.
    Start(StartFault),
    /// Memory was refused for it. A console ends there; a script goes on, unless the line is a header.
    Memory,
}

impl From<AllocError> for LineFault {
    ghost from_gives = { λ _ e. e ≡ Memory };

    fn from(_: AllocError) -> Self {
        LineFault::Memory
    }
}

impl From<TextFault> for LineFault {
    ghost from_gives = { λ f e. e ≡ Text f };

    fn from(fault: TextFault) -> Self {
        LineFault::Text(fault)
    }
}

impl LineFault {
    /// The word for which the line is refused.
    pub fn word(&self) -> &'static str
        ensures { result.now ≡ word_of self.now }
    {
        match self {
            LineFault::BadLine => "bad_line",
            LineFault::LineTooLong => "line_too_long",
            LineFault::NotAscii => "not_ascii",
            LineFault::Text(TextFault::Empty) => "empty",
            LineFault::Text(TextFault::TooLong) => "too_long",
            LineFault::Text(TextFault::BadByte(_)) => "bad_byte",
            LineFault::Text(TextFault::BadCreation) => "bad_creation",
            LineFault::Text(TextFault::BadSerial) => "bad_serial",
            LineFault::Text(TextFault::BadRule) => "bad_rule",
            LineFault::Text(TextFault::TooManyNodes) => "too_many_nodes",
            LineFault::Start(fault) => fault.word(),
            LineFault::Memory => "memory",
        }
    }
}
