//! Why a line of a link isn't taken.
ghost use Rattle.std.specs.Prelude.{◌≡◌};
ghost use Rattle.letter_lines.specs.declared.faults.LetterFault.TheVariants.{Memory};
ghost use Rattle.wire_end.specs.declared.faults.HearFault.TheVariants.{Part};

use letter_lines::LetterFault;
use std::alloc::AllocError;

/// Why a line of a link isn't taken. Nothing changed then, but where memory was refused for the letter that it ends.
#[derive(Debug, Drop)]
pub enum HearFault {
    /// No other node of the world is this one.
    NoSuchNode,
    /// It isn't the next line of its link: one was lost, or doubled, or overtaken.
    Gap,
    /// It ends a letter that no node says, as far as this one knows: one that names a node that hasn't started, or a welcome to another.
    Stray,
    /// What it says is no part of the letter that the lines before it began, or memory was refused. Then the letter that it ends may be
    /// lost, so the end isn't to be used any more.
    Part(LetterFault),
}

impl From<LetterFault> for HearFault {
    ghost from_gives = { λ f fault. fault ≡ Part f };

    fn from(fault: LetterFault) -> HearFault {
        HearFault::Part(fault)
    }
}

impl From<AllocError> for HearFault {
    ghost from_gives = { λ _ fault. fault ≡ Part Memory };

    fn from(_: AllocError) -> HearFault {
        HearFault::Part(LetterFault::Memory)
    }
}
