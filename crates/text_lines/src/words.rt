//! The words of a line.
ghost use Rattle.std.specs.Prelude.{◌≡◌, IfOk, map, take};
ghost use Rattle.std.specs.List.{position, before_first, after_first};
ghost use Rattle.text_lines.specs.Words.{words, is_space};

use arrayvec::ArrayVec;
use std::alloc::{AllocError, Global};
use term::MOST_WORDS;

/// The words of a line, which are parted by spaces.
pub fn words_of<'a>(alloc: Global, line: &'a str) -> Result<Vec<&'a str>, AllocError>
    ensures { IfOk result (λ parts. map (λ part. part.now) parts.items ≡ words line.now) }
{
    line.split(' ')
        .filter(|part| !part.is_empty())
        .collect(alloc)
}

/// The place of the first space, if there is one.
fn first_space(bytes: &[u8]) -> Option<usize>
    ensures { result ≡ position is_space bytes.now }
{
    bytes.iter().position(|byte| *byte == b' ')
}

/// A text cut at its first space: what stands before it, and what stands behind it. Where it has none, that is all and nothing.
fn cut<'a>(text: &'a str) -> (&'a str, &'a str)
    ensures before { result.0.now ≡ before_first is_space text.now }
    ensures behind { result.1.now ≡ after_first is_space text.now }
{
    match first_space(text.as_bytes()) {
        Some(place) => (&text[..place], &text[place + 1..]),
        None => (text, ""),
    }
}

/// The first words of a line, as many as are looked at, or all of them where it has no more. They take no memory.
pub fn first_words<'a>(line: &'a str) -> ArrayVec<&'a str, MOST_WORDS>
    ensures { map (λ word. word.now) result.items ≡ take MOST_WORDS (words line.now) }
{
    let mut first = ArrayVec::new();
    let mut rest = line;
    while !rest.is_empty() {
        let (word, behind) = cut(rest);
        if !word.is_empty() && first.try_push(word).is_err() {
            break;
        }
        rest = behind;
    }
    first
}
