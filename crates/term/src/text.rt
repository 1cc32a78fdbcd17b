//! A short text, the block that the names are made of.
ghost use Rattle.std.specs.Prelude.{◌≡◌, ◌≤◌, nat_eq, get_or, length, Some, ⊤, MatchOption, MatchResult};
ghost use Rattle.std.specs.Cmp.Rules.{comparing, hashing};
ghost use Rattle.std.specs.Hash as fed;
ghost use Rattle.std.specs.Ordering.{nat_cmp, as_partial_cmp};
ghost use Rattle.std.specs.List.{AllPass};
ghost use Rattle.std.proofs.Common.{rules};
ghost use Rattle.registry_model.specs.Process.{text_of};
ghost use Rattle.term.specs.Spelling.{is_allowed as is_allowed_byte, IsFirstBad, IsText, SpellsText, RefusesText, bytes_of};
ghost use Rattle.term.specs.Keys.{key_of as any_key};

use crate::faults::TextFault;
use crate::limits::LONGEST_TEXT;
use arrayvec::ArrayString;
use std::alloc::AllocError;
use std::cmp::Ordering;
use std::fmt;
use std::hash::{Hash, Hasher};
use std::marker::Model;

/// How many of a text's bytes are in its key.
const KEY_BYTES: usize = 8;

/// A text of 1 to 64 bytes, each an ASCII letter, a digit, `_`, `-` or `@`, held in place.
#[derive(Drop)]
pub(crate) struct ShortText {
    /// The first bytes as one number: most texts that differ differ in it, and it is compared before they are.
    key: u64,
    bytes: ArrayString<LONGEST_TEXT>,
}

impl Model for ShortText {
    ghost use Rattle.std.specs.Prelude.{ℕ};
    ghost use Rattle.registry_model.specs.Process.{text_of};
    ghost use Rattle.term.specs.Keys.{IsKeyed};

    ghost Value = { ℕ };

    ghost view = { λ t. text_of t.bytes.bytes };

    ghost invariant = { λ t. IsKeyed t.bytes.bytes t.key };
}

/// Whether a byte may stand in a text.
fn is_allowed(byte: u8) -> bool
    ensures { result ≡ is_allowed_byte byte }
{
    byte.is_ascii_alphanumeric() || byte == b'_' || byte == b'-' || byte == b'@'
}

/// The place of the first byte that may not stand in a text.
fn first_bad(bytes: &[u8]) -> Option<usize>
    ensures { MatchOption result (AllPass is_allowed_byte bytes.now) (IsFirstBad bytes.now) }
{
    bytes.iter().position(|byte| !is_allowed(*byte))
}

/// The byte at a place, or 0 behind the last.
fn byte_at(bytes: &[u8], place: usize) -> u64
    ensures { result ≡ get_or bytes.now place 0 }
{
    match bytes.get(place) {
        Some(byte) => u64::from(*byte),
        None => 0,
    }
}

/// The key of a text of at least as many bytes as a key has.
fn front_key(bytes: &[u8]) -> u64
    requires { KEY_BYTES ≤ length bytes.now }
    ensures { result ≡ any_key bytes.now }
{
    u64::from_be_bytes([
        bytes[0], bytes[1], bytes[2], bytes[3], bytes[4], bytes[5], bytes[6], bytes[7],
    ])
}

/// The key of a text that may be shorter.
fn short_key(bytes: &[u8]) -> u64
    requires { IsText bytes.now }
    ensures { result ≡ any_key bytes.now }
{
    let mut key = 0;
    for place in 0..KEY_BYTES {
        key = key * 256 + byte_at(bytes, place);
    }
    key
}

/// The key of a text.
fn key_of(text: &str) -> u64
    requires { IsText text.now }
    ensures { result ≡ any_key text.now }
{
    let bytes = text.as_bytes();
    if bytes.len() < KEY_BYTES {
        short_key(bytes)
    } else {
        front_key(bytes)
    }
}

impl ShortText {
    /// Reads a text.
    pub(crate) fn parse(text: &str) -> Result<Self, TextFault>
        ensures { MatchResult result (SpellsText text.now) (RefusesText text.now) }
    {
        if text.is_empty() {
            return Err(TextFault::Empty);
        }
        let bytes = ArrayString::from(text).map_err(|_| TextFault::TooLong)?;
        if let Some(place) = first_bad(text.as_bytes()) {
            return Err(TextFault::BadByte(place));
        }
        Ok(ShortText {
            key: key_of(text),
            bytes,
        })
    }

    /// A text of one byte.
    pub(crate) fn shortest() -> Self {
        ShortText::of("a")
    }

    /// The text of these bytes, which are known to be one.
    pub(crate) fn of(text: &str) -> Self
        requires { IsText text.now }
        ensures { result ≡ text_of text.now }
    {
        let mut bytes = ArrayString::new();
        bytes.push_str(text);
        ShortText {
            key: key_of(text),
            bytes,
        }
    }

    /// Its bytes.
    pub(crate) fn as_str(&self) -> &str
        ensures spelled { SpellsText result.now self.now }
        ensures bytes { result.now ≡ bytes_of self.now }
    {
        self.bytes.as_str()
    }

    /// The same text.
    pub(crate) fn copy(&self) -> Self
        ensures { result ≡ self.now }
    {
        ShortText {
            key: self.key,
            bytes: self.bytes,
        }
    }
}

impl Clone for ShortText {
    ghost is_clone = { λ t u. u ≡ t };

    ghost is_infallible = { λ t. t ≡ t };

    fn clone(&self) -> Result<Self, AllocError> {
        Ok(self.copy())
    }
}

impl PartialEq for ShortText {
    ghost eq = { nat_eq };

    ghost laws = { Prim.search (comparing, rules) };

    fn eq(&self, other: &Self) -> bool {
        self.key == other.key && self.bytes == other.bytes
    }
}

impl Eq for ShortText {
    ghost laws = { Prim.search (comparing, rules) };
}

impl PartialOrd for ShortText {
    ghost partial_cmp = { as_partial_cmp nat_cmp };

    ghost laws = { Prim.search (comparing, rules) };

    fn partial_cmp(&self, other: &Self) -> Option<Ordering> {
        Some(self.cmp(other))
    }
}

impl Ord for ShortText {
    ghost cmp = { nat_cmp };

    ghost total = { Prim.search (comparing, rules) };

    ghost matches_partial_cmp = { Prim.search (comparing, rules) };

    ghost matches_eq = { Prim.search (comparing, rules) };

    fn cmp(&self, other: &Self) -> Ordering {
        match self.key.cmp(&other.key) {
            Ordering::Equal => self.bytes.cmp(&other.bytes),
            decided => decided,
        }
    }
}

impl fmt::Debug for ShortText {
    fn fmt<W: fmt::Write>(&self, f: &mut fmt::Formatter<W>) -> fmt::Result {
        fmt::Debug::fmt(&self.bytes, f)
    }
}

impl Hash for ShortText {
    ghost hash_input = { λ t. fed.str (bytes_of t) };

    ghost respects_eq = { Prim.search (hashing, rules) };

    fn hash<H: Hasher>(&self, state: &mut H) {
        self.bytes.hash(state);
    }
}

impl fmt::Display for ShortText {
    ghost output = { λ t. Some (bytes_of t) };

    fn fmt<W: fmt::Write>(&self, f: &mut fmt::Formatter<W>) -> fmt::Result {
        fmt::Display::fmt(&self.bytes, f)
    }
}
