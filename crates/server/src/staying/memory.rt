//! How much memory the process has, as the system tells.
use libc::{_SC_PAGESIZE, sysconf};
use std::fs::Files;
use std::io::Read;
use std::{fs, str};
use text_lines::first_words;

/// Where Linux tells how many pages of memory a process has: its second number is of those that are resident.
const PAGES: &str = "/proc/self/statm";

/// How many bytes of it are read: more than seven numbers have.
const MOST_BYTES: usize = 160;

/// The second number of a text.
fn second_number(text: &str) -> Option<u64> {
    let words = first_words(text);
    let word = words.as_slice().get(1)?;
    word.parse().ok()
}

/// How many pages are resident.
fn pages<R: Files>(rt: &R) -> Option<u64> {
    let mut file = fs::open(rt, PAGES).ok()?;
    let mut bytes = [0u8; MOST_BYTES];
    let count = file.read(&mut bytes).ok()?;
    let text = str::from_utf8(bytes.get(..count)?).ok()?;
    second_number(text)
}

/// How many bytes of memory the process has, or 0 where the system doesn't tell.
pub(crate) fn resident<R: Files>(rt: &R) -> u64 {
    let page = u64::try_from(sysconf(_SC_PAGESIZE)).unwrap_or(0);
    pages(rt).unwrap_or(0).saturating_mul(page)
}
