//! What a line asks for.
ghost use Rattle.std.specs.Prelude.{◌≡◌, ◌≢◌, MatchBool, MatchResult, MatchOption, true, false, List, ℕ, Some, None, Err};
ghost use Rattle.text_lines.specs.Lines.{IsKept};
ghost use Rattle.command_lines.specs.declared.faults.LineFault.TheVariants.{Memory};
ghost use Rattle.command_lines.specs.Commands.{LineAsks, LineNamesNodes, asked_by, unread, is_ascii};

use crate::faults::LineFault;
use crate::grammar::{LineCommand, read_words};
use std::alloc::Global;
use std::str;
use text_lines::{Line, first_words};

/// Whether each byte is below 128.
fn all_ascii(bytes: &[u8]) -> bool
    ensures { result ≡ is_ascii bytes.now }
{
    bytes.iter().all(|byte| *byte < 128)
}

/// The bytes as a text, if they are ASCII.
fn ascii_text(bytes: &[u8]) -> Option<&str>
    ensures { MatchOption result (is_ascii bytes.now ≡ false) (λ text. (is_ascii bytes.now ≡ true) × (text.now ≡ bytes.now)) }
{
    if !all_ascii(bytes) {
        return None;
    }
    match str::from_utf8(bytes) {
        Ok(text) => Some(text),
        Err(_) => None,
    }
}

/// The text of a line, or why it can't be read.
pub fn text_of(line: &Line) -> Result<&str, LineFault>
    ensures { (bytes : List ℕ) → IsKept bytes line.now → MatchResult result
        (λ text. (unread bytes ≡ None) × (text.now ≡ bytes)) (λ f. unread bytes ≡ Some f) }
{
    match line {
        Line::Text(bytes) => ascii_text(bytes).ok_or(LineFault::NotAscii),
        Line::TooLong => Err(LineFault::LineTooLong),
    }
}

/// What a line asks for, or why it is refused. No line of the grammar has seven words, so a longer one reads as its first seven.
/// Only a lock call that names nodes takes memory; where that is refused the fault is `Memory`.
#[tactic(auto, using(crate::proofs::Words::first_words_ask))]
pub fn read_command(alloc: Global, line: &Line) -> Result<LineCommand, LineFault>
    ensures asks { result ≢ Err Memory → (bytes : List ℕ) → IsKept bytes line.now → LineAsks bytes (asked_by result) }
    ensures memory { result ≡ Err Memory → (bytes : List ℕ) → IsKept bytes line.now → LineNamesNodes bytes }
{
    read_words(alloc, &first_words(text_of(line)?))
}

/// Whether a line couldn't be read for want of memory.
pub fn ran_out(command: &Result<LineCommand, LineFault>) -> bool
    ensures { MatchBool result (command.now ≡ Err Memory) (command.now ≢ Err Memory) }
{
    match command {
        Ok(_) => false,
        Err(fault) => matches!(fault, LineFault::Memory),
    }
}
