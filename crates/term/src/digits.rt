//! Numbers that stand in the texts of nodes and of processes.
ghost use Rattle.std.specs.Prelude.{◌≡◌, ℕ, MatchOption, slice_index};
ghost use Rattle.std.specs.Int.{is_in_range};
ghost use Rattle.term.specs.Spelling.{SpellsSerial, SpellsCreation};

/// Whether the digits begin with one of 1 to 9.
fn begins_serial(digits: &[u8]) -> bool
    ensures { result ≡ is_in_range 49 57 (slice_index digits.now 0) }
{
    matches!(digits.first(), Some(b'1'..=b'9'))
}

/// Reads a serial, which has no leading zero and is at least 1.
pub(crate) fn parse_serial(digits: &str) -> Option<u32>
    ensures { MatchOption result ((serial : ℕ) → SpellsSerial digits.now serial → ⊥) (SpellsSerial digits.now) }
{
    if begins_serial(digits.as_bytes()) {
        digits.parse().ok()
    } else {
        None
    }
}

/// Reads a creation that is written, which has no leading zero and is at least 2.
pub(crate) fn parse_creation(digits: &str) -> Option<u32>
    ensures { MatchOption result ((creation : ℕ) → SpellsCreation digits.now creation → ⊥) (SpellsCreation digits.now) }
{
    let creation = parse_serial(digits)?;
    if creation == 1 {
        return None;
    }
    Some(creation)
}
