//! What a client must show before it is attached.
ghost use Rattle.std.specs.Prelude.{◌≡◌, ◌≢◌, MatchBool, MatchOption};
ghost use Rattle.std.specs.List.{list_all};
ghost use Rattle.console.specs.Cookies.{IsCookie, is_printable as is_printable_byte};

use arrayvec::ArrayString;
use std::marker::Model;
use term::{LONGEST_COOKIE, SHORTEST_COOKIE};

/// What a client must show before it is attached: 16 to 255 printable bytes of ASCII, without a space.
#[derive(Drop)]
pub struct Cookie {
    text: ArrayString<LONGEST_COOKIE>,
}

impl Model for Cookie {
    ghost use Rattle.std.specs.Prelude.{ℕ, List};

    ghost Value = { List ℕ };

    ghost view = { λ c. c.text.bytes };
}

/// Whether a byte is printable, and no space.
fn is_printable(byte: u8) -> bool
    ensures { result ≡ is_printable_byte byte }
{
    byte > b' ' && byte < 127
}

/// Whether each byte of a text is printable, and no space.
fn all_printable(text: &str) -> bool
    ensures { result ≡ list_all is_printable_byte text.now }
{
    text.as_bytes().iter().all(|byte| is_printable(*byte))
}

/// Whether bytes are the same. It looks at each of them, wherever they differ first: so how long it takes tells nobody how many bytes of a
/// guess are right.
fn are_same(left: &[u8], right: &[u8]) -> bool
    ensures { MatchBool result (left.now ≡ right.now) (left.now ≢ right.now) }
{
    if left.len() != right.len() {
        return false;
    }
    let mut differs = false;
    for at in 0..left.len() {
        differs |= left[at] != right[at];
    }
    !differs
}

impl Cookie {
    /// The cookie of this text, if it is one.
    pub fn new(text: &str) -> Option<Cookie>
        ensures { MatchOption result (IsCookie text.now → ⊥) (λ cookie. IsCookie text.now × (cookie ≡ text.now)) }
    {
        if text.len() < SHORTEST_COOKIE || !all_printable(text) {
            return None;
        }
        let text = ArrayString::from(text).ok()?;
        Some(Cookie { text })
    }

    /// Whether a text is this cookie.
    pub(crate) fn is(&self, text: &str) -> bool
        ensures { MatchBool result (text.now ≡ self.now) (text.now ≢ self.now) }
    {
        are_same(text.as_bytes(), self.text.as_bytes())
    }
}
