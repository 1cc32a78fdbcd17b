//! What lines say of processes and names that a server looks after which stays.
ghost use Rattle.std.specs.Prelude.{◌≡◌, ◌<◌, ◌≤◌, ◌&&◌, ◌∷◌, [], true, false, bytes_eq, codes, map, not, length, IfSome, MatchOption};
ghost use Rattle.std.specs.List.{position};
ghost use Rattle.text_lines.specs.Words.{is_space};
ghost use Rattle.console.specs.Commands.{AsksServer, AwaitsLoss, Inquires, InquiresOfOne, SaysOf, behind_word as any_behind_word, describes, inquires, second, spaces_before as any_spaces_before};

use crate::commands::name_and_pid;
use crate::orders::{Awaited, Command, Inquiry};
use command_lines::LineFault;
use descriptions::Description;
use term::{parse_name, parse_pid};

/// The place of the first byte that is no space, if there is one.
fn first_other(bytes: &[u8]) -> Option<usize>
    ensures first { result ≡ position (λ b. not (is_space b)) bytes.now }
    ensures within { IfSome result (λ place. place < length bytes.now) }
{
    bytes.iter().position(|byte| *byte != b' ')
}

/// How many spaces stand before the first word of a line.
fn spaces_before(line: &[u8]) -> usize
    ensures count { result ≡ any_spaces_before line.now }
    ensures within { result ≤ length line.now }
{
    first_other(line).unwrap_or(line.len())
}

/// The place of the first space, if there is one.
fn first_space(bytes: &[u8]) -> Option<usize>
    ensures { result ≡ position is_space bytes.now }
{
    bytes.iter().position(|byte| *byte == b' ')
}

/// What stands behind the first word of a line and one space.
pub(crate) fn behind_word<'a>(line: &'a str) -> &'a str
    ensures { result.now ≡ any_behind_word line.now }
{
    let bytes = line.as_bytes();
    let start = spaces_before(bytes);
    match first_space(&bytes[start..]) {
        Some(place) => &line[start + place + 1..],
        None => "",
    }
}

/// The text of a process behind this word, if something is said of it.
fn described_by<'a>(word: &str, process: &'a str) -> Option<&'a str>
    ensures { MatchOption result (bytes_eq word.now (codes "describe") ≡ false)
        (λ found. (bytes_eq word.now (codes "describe") ≡ true) × (found.now ≡ process.now)) }
{
    match word {
        "describe" => Some(process),
        _ => None,
    }
}

/// The text of the process of which words say something: in a console of a server that stays.
pub(crate) fn described_in<'a>(words: &[&'a str], stays: bool) -> Option<&'a str>
    ensures { MatchOption result ((stays && describes (map (λ word. word.now) words.now)) ≡ false)
        (λ process. ((stays && describes (map (λ word. word.now) words.now)) ≡ true)
        × (process.now ≡ second (map (λ word. word.now) words.now))) }
{
    if !stays {
        return None;
    }
    match words {
        [word, process, _, ..] => described_by(word, process),
        _ => None,
    }
}

/// What is said of a process, by its text and what stands behind that.
pub(crate) fn read_described(process: &str, text: &str) -> Result<Command, LineFault>
    ensures { SaysOf process.now text.now result }
{
    let process = parse_pid(process)?;
    let text = Description::parse(text)?;
    Ok(Command::Inquire(Inquiry::Describe(process, text)))
}

/// What a word with one text asks, if it is one of these.
fn of_one(word: &str, text: &str) -> Option<Result<Inquiry, LineFault>>
    ensures { MatchOption result (inquires (word.now ∷ text.now ∷ []) ≡ false) (InquiresOfOne word.now text.now) }
{
    match word {
        "describe" => Some(description_of(text)),
        "find" => Some(find(text)),
        "wait" => Some(wait(text)),
        _ => None,
    }
}

/// What `describe` with a process asks.
fn description_of(process: &str) -> Result<Inquiry, LineFault>
    ensures { InquiresOfOne (codes "describe") process.now result }
{
    Ok(Inquiry::Description(parse_pid(process)?))
}

/// What `find` asks.
fn find(name: &str) -> Result<Inquiry, LineFault>
    ensures { InquiresOfOne (codes "find") name.now result }
{
    Ok(Inquiry::Find(parse_name(name)?))
}

/// What `wait` with a name asks.
fn wait(name: &str) -> Result<Inquiry, LineFault>
    ensures { InquiresOfOne (codes "wait") name.now result }
{
    Ok(Inquiry::Wait(Awaited::Taken(parse_name(name)?)))
}

/// What `wait` with two texts asks.
fn wait_for_loss(name: &str, process: &str) -> Result<Inquiry, LineFault>
    ensures { AwaitsLoss name.now process.now result }
{
    let (name, process) = name_and_pid(name, process)?;
    Ok(Inquiry::Wait(Awaited::Lost(name, process)))
}

/// What a word with two texts asks, if it is `wait`.
fn of_two(word: &str, name: &str, process: &str) -> Option<Result<Inquiry, LineFault>>
    ensures { MatchOption result (inquires (word.now ∷ name.now ∷ process.now ∷ []) ≡ false)
        (Inquires (word.now ∷ name.now ∷ process.now ∷ [])) }
{
    match word {
        "wait" => Some(wait_for_loss(name, process)),
        _ => None,
    }
}

/// What words ask of what a server knows; nothing where they don't.
fn inquiry_of(words: &[&str]) -> Option<Result<Inquiry, LineFault>>
    ensures { MatchOption result (inquires (map (λ word. word.now) words.now) ≡ false)
        (Inquires (map (λ word. word.now) words.now)) }
{
    match words {
        [word, text] => of_one(word, text),
        [word, name, process] => of_two(word, name, process),
        _ => None,
    }
}

/// The same, in a console of a server that stays. In any other one no words do.
#[tactic(auto, using(crate::proofs::Meaning::asked_where_it_stays))]
pub(crate) fn inquiry_in(words: &[&str], stays: bool) -> Option<Result<Inquiry, LineFault>>
    ensures { MatchOption result (stays ≡ true → inquires (map (λ word. word.now) words.now) ≡ false)
        (AsksServer stays (map (λ word. word.now) words.now)) }
{
    if stays { inquiry_of(words) } else { None }
}
