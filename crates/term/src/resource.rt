//! Resources that locks are on.
ghost use Rattle.std.specs.Prelude.{◌≡◌, IfOk, Some, MatchResult, string_bytes};
ghost use Rattle.term.specs.LockIds.{global_text};
ghost use Rattle.term.specs.Spelling.{SpellsText, RefusesText, bytes_of};

use crate::faults::TextFault;
use crate::text::ShortText;
use std::alloc::{AllocError, Allocator};
use std::fmt;
use std::marker::Model;

/// A resource, which is what a lock is on: 1 to 64 bytes, each an ASCII letter, a digit, `_`, `-` or `@`.
/// Resources are ordered by bytes.
#[derive(Clone, Debug, PartialEq, Eq, PartialOrd, Ord, Hash, Drop)]
pub struct Resource {
    text: ShortText,
}

impl Model for Resource {
    ghost use Rattle.std.specs.Prelude.{ℕ};

    ghost Value = { ℕ };

    ghost view = { λ n. n.text };

    ghost inverse = { λ v. record { text = v } };
}

impl Resource {
    /// The resource `global`, under which the registrars of the nodes agree on names. It takes no memory.
    pub fn global() -> Self
        ensures { result ≡ global_text }
    {
        Resource {
            text: ShortText::of("global"),
        }
    }

    /// The same resource. It takes no memory.
    pub fn copy(&self) -> Self
        ensures { result ≡ self.now }
    {
        Resource {
            text: self.text.copy(),
        }
    }

    /// Its text.
    pub fn as_str(&self) -> &str
        ensures spelled { SpellsText result.now self.now }
        ensures bytes { result.now ≡ bytes_of self.now }
    {
        self.text.as_str()
    }
}

/// Reads a resource. A text that spells none is refused: an empty one, else one of more than 64 bytes,
/// else one with a byte that is not allowed.
pub fn parse_resource(text: &str) -> Result<Resource, TextFault>
    ensures { MatchResult result (SpellsText text.now) (RefusesText text.now) }
{
    let text = ShortText::parse(text)?;
    Ok(Resource { text })
}

/// The text of a resource.
pub fn print_resource<A: Allocator>(alloc: A, resource: &Resource) -> Result<String<A>, AllocError>
    ensures { IfOk result (λ text. SpellsText (string_bytes text) resource.now) }
{
    String::from_str(alloc, resource.as_str())
}

impl fmt::Display for Resource {
    ghost output = { λ n. Some (bytes_of n) };

    fn fmt<W: fmt::Write>(&self, f: &mut fmt::Formatter<W>) -> fmt::Result {
        fmt::Display::fmt(&self.text, f)
    }
}
