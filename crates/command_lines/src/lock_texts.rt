//! The texts of a lock call that say whom it asks, and how often.
ghost use Rattle.std.specs.Prelude.{◌≡◌, ℕ, MatchOption, MatchResult, slice_index};
ghost use Rattle.std.specs.Int.{is_in_range};
ghost use Rattle.transaction.specs.Calls.{retries_of};
ghost use Rattle.command_lines.specs.LockTexts.{target_in, SpellsTarget, RefusesTarget, SpellsCount, SpellsRetries, SpellsNoRetries};

use term::{NodeNames, TextFault, parse_nodes};
use transaction::Retries;

/// Reads which nodes a lock call names: none for `all`, which asks all members, else names of nodes parted by commas. A node
/// that is called `all` is named beside another one, or twice.
pub fn parse_target(text: &str) -> Result<Option<NodeNames>, TextFault>
    ensures { MatchResult result (λ named. SpellsTarget text.now (target_in named)) (RefusesTarget text.now) }
{
    if text == "all" {
        return Ok(None);
    }
    Ok(Some(parse_nodes(text)?))
}

/// Whether the digits begin with one of 1 to 9.
fn begins_count(digits: &[u8]) -> bool
    ensures { result ≡ is_in_range 49 57 (slice_index digits.now 0) }
{
    matches!(digits.first(), Some(b'1'..=b'9'))
}

/// Reads a number of 0 to 4,294,967,295 in decimal digits, with no needless zero.
fn parse_count(digits: &str) -> Option<u32>
    ensures { MatchOption result ((n : ℕ) → SpellsCount digits.now n → ⊥) (SpellsCount digits.now) }
{
    if digits == "0" {
        return Some(0);
    }
    if begins_count(digits.as_bytes()) {
        digits.parse().ok()
    } else {
        None
    }
}

/// Reads how often a refused lock call may begin anew: `infinity`, or a number of 0 to 4,294,967,295 in decimal digits, with
/// no needless zero.
pub fn parse_retries(text: &str) -> Option<Retries>
    ensures { MatchOption result (SpellsNoRetries text.now) (λ retries. SpellsRetries text.now (retries_of retries)) }
{
    if text == "infinity" {
        return Some(Retries::Endless);
    }
    parse_count(text).map(Retries::Times)
}
