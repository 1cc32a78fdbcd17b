//! Numbers of lines.
ghost use Rattle.std.specs.Prelude.{◌≡◌, ℕ, MatchOption, codes, slice_index};
ghost use Rattle.std.specs.Int.{is_in_range};
ghost use Rattle.node_port.specs.Numbers.{SpellsNumber};

/// Whether digits begin with one of 1 to 9.
fn begins_number(digits: &[u8]) -> bool
    ensures { result ≡ is_in_range 49 57 (slice_index digits.now 0) }
{
    matches!(digits.first(), Some(b'1'..=b'9'))
}

/// Reads a number of 1 to 18,446,744,073,709,551,615 in decimal digits, with no needless zero.
fn parse_positive(digits: &str) -> Option<u64>
    ensures { MatchOption result ((n : ℕ) → SpellsNumber digits.now n → digits.now ≡ codes "0") (SpellsNumber digits.now) }
{
    if begins_number(digits.as_bytes()) {
        digits.parse().ok()
    } else {
        None
    }
}

/// Reads a number of 0 to 18,446,744,073,709,551,615 in decimal digits, with no needless zero.
pub(crate) fn parse_number(digits: &str) -> Option<u64>
    ensures { MatchOption result ((n : ℕ) → SpellsNumber digits.now n → ⊥) (SpellsNumber digits.now) }
{
    match digits {
        "0" => Some(0),
        _ => parse_positive(digits),
    }
}
