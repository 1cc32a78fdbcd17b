//! Names that processes are registered under.
ghost use Rattle.std.specs.Prelude.{◌≡◌, IfOk, Some, MatchResult, string_bytes};
ghost use Rattle.term.specs.Spelling.{SpellsText, RefusesText, bytes_of};

use crate::faults::TextFault;
use crate::text::ShortText;
use std::alloc::{AllocError, Allocator};
use std::fmt;
use std::marker::Model;

/// A name that a process is registered under: 1 to 64 bytes, each an ASCII letter, a digit, `_`, `-` or `@`.
/// Names are ordered by bytes.
#[derive(Clone, Debug, PartialEq, Eq, PartialOrd, Ord, Hash, Drop)]
pub struct Name {
    text: ShortText,
}

impl Model for Name {
    ghost use Rattle.std.specs.Prelude.{ℕ};

    ghost Value = { ℕ };

    ghost view = { λ n. n.text };

    ghost inverse = { λ v. record { text = v } };
}

impl Name {
    /// The same name. It takes no memory.
    pub fn copy(&self) -> Self
        ensures { result ≡ self.now }
    {
        Name {
            text: self.text.copy(),
        }
    }

    /// Its text.
    pub fn as_str(&self) -> &str
        ensures spelled { SpellsText result.now self.now }
        ensures bytes { result.now ≡ bytes_of self.now }
    {
        self.text.as_str()
    }
}

/// Reads a name. A text that spells none is refused: an empty one, else one of more than 64 bytes,
/// else one with a byte that is not allowed.
pub fn parse_name(text: &str) -> Result<Name, TextFault>
    ensures { MatchResult result (SpellsText text.now) (RefusesText text.now) }
{
    let text = ShortText::parse(text)?;
    Ok(Name { text })
}

/// The text of a name.
pub fn print_name<A: Allocator>(alloc: A, name: &Name) -> Result<String<A>, AllocError>
    ensures { IfOk result (λ text. SpellsText (string_bytes text) name.now) }
{
    String::from_str(alloc, name.as_str())
}

impl fmt::Display for Name {
    ghost output = { λ n. Some (bytes_of n) };

    fn fmt<W: fmt::Write>(&self, f: &mut fmt::Formatter<W>) -> fmt::Result {
        fmt::Display::fmt(&self.text, f)
    }
}
