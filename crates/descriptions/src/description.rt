//! What is said of a process.
ghost use Rattle.std.specs.Prelude.{◌≡◌, MatchOption, MatchResult};
ghost use Rattle.std.specs.List.{AllPass};
ghost use Rattle.descriptions.specs.Texts.{IsDescription, IsFirstUnprintable, RefusesDescription, SpellsDescription, is_printable as is_printable_byte};

use arrayvec::ArrayString;
use std::marker::Model;
use term::{LONGEST_DESCRIPTION, TextFault};

/// What is said of a process: 1 to 256 bytes of printable ASCII, spaces among them, held in place.
#[derive(Drop)]
pub struct Description {
    text: ArrayString<LONGEST_DESCRIPTION>,
}

impl Model for Description {
    ghost use Rattle.std.specs.Prelude.{ℕ, List};
    ghost use Rattle.descriptions.specs.Texts.{IsDescription};

    ghost Value = { List ℕ };

    ghost view = { λ d. d.text.bytes };

    ghost invariant = { λ d. IsDescription d.text.bytes };
}

/// Whether a byte may stand in a description.
fn is_printable(byte: u8) -> bool
    ensures { result ≡ is_printable_byte byte }
{
    byte.is_ascii_graphic() || byte == b' '
}

/// The place of the first byte that may not.
fn first_unprintable(bytes: &[u8]) -> Option<usize>
    ensures { MatchOption result (AllPass is_printable_byte bytes.now) (IsFirstUnprintable bytes.now) }
{
    bytes.iter().position(|byte| !is_printable(*byte))
}

impl Description {
    /// Reads a description, which is the whole text. One that is none is refused: an empty one, else one of more than 256 bytes, else one
    /// with a byte that can't be printed.
    pub fn parse(text: &str) -> Result<Self, TextFault>
        ensures { MatchResult result (SpellsDescription text.now) (RefusesDescription text.now) }
    {
        if text.is_empty() {
            return Err(TextFault::Empty);
        }
        let held = ArrayString::from(text).map_err(|_| TextFault::TooLong)?;
        if let Some(place) = first_unprintable(text.as_bytes()) {
            return Err(TextFault::BadByte(place));
        }
        Ok(Description { text: held })
    }

    /// Its text.
    pub fn as_str(&self) -> &str
        ensures text { result.now ≡ self.now }
        ensures kept { IsDescription self.now }
    {
        self.text.as_str()
    }

    /// The same. It takes no memory.
    pub fn copy(&self) -> Self
        ensures { result ≡ self.now }
    {
        Description { text: self.text }
    }
}
