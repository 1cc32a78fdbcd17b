//! Lines of a reader.
ghost use Rattle.std.specs.Prelude.{true, false, ◌≡◌, ◌≤◌, ◌<◌, ◌+◌, ◌==◌, ℕ, List, Some, ◌∷◌, ◌++◌, [], length, MatchResult, MatchOption, IfSome, IfErr, OnOk, IfOk, IsTrue, All, ◌≢◌};
ghost use Rattle.std.specs.List.{list_all};
ghost use Rattle.std.specs.Io.KnownBytes.{Keeps, Consumes, IsAtEnd};
ghost use Rattle.std.specs.Io.Buffered.{reader_remaining};
ghost use Rattle.text_lines.specs.declared.faults.StreamFault.TheVariants as fault;
ghost use Rattle.text_lines.specs.Lines.{IsPart, IsKept, line_of, count_for, count_of, is_blank as blank, HasNoFeed, TakesByte, TakesPart, TakesLine, StopsAtByte, StopsAtLine, LosesLines, HasNoLine, longest_part, GrowsByBytes, TakesAtHand, room_of};
ghost use Rattle.term.specs.declared.limits.TheConstants.{MOST_LINES};

use crate::faults::StreamFault;
use crate::writing::hand_on;
use memchr::memchr;
use std::alloc::{AllocError, Global};
use std::io::{BufRead, BufReader, ErrorKind, Read, Write};
use term::LONGEST_LINE;

/// A line without its end.
#[derive(Drop)]
pub enum Line {
    /// Its bytes.
    Text(Vec<u8>),
    /// It is longer than a line may be.
    TooLong,
}

impl Line {
    /// The memory of the line, as room for the next one.
    pub fn into_room(self, alloc: Global) -> Vec<u8>
        ensures { result.items ≡ room_of self }
    {
        match self {
            Line::Text(bytes) => bytes,
            Line::TooLong => Vec::new(alloc),
        }
    }
}

/// The bytes of a line as far as they were read.
#[derive(Drop)]
struct Part {
    /// The first bytes: one more than a line may have.
    text: Vec<u8>,
    /// How many bytes were read.
    len: usize,
    /// Whether the last byte is a carriage return.
    ends_in_return: bool,
}

/// For how many lines so many bytes count.
fn count(len: usize) -> usize
    ensures { result ≡ count_for len }
{
    1 + len.saturating_sub(LONGEST_LINE) / LONGEST_LINE
}

/// Hands on what was written, where the reader has nothing at hand and may wait for more.
fn hand_on_before_wait<R: Read, W: Write>(
    reader: &BufReader<R, Global>,
    writer: &mut W,
) -> Result<(), StreamFault>
    ensures fault { IfErr result (λ f. f ≡ fault.Write) }
    ensures kept { Keeps (W.contents writer.old) (W.contents writer.new) }
{
    if reader.buffer().is_empty() {
        hand_on(writer)?;
    }
    Ok(())
}

/// The next byte of a reader, or none at its end.
fn take_byte<R: Read>(reader: &mut R) -> Result<Option<u8>, StreamFault>
    ensures { MatchResult result (TakesByte (R.remaining reader.old) (R.remaining reader.new))
        (λ f. (f ≡ fault.Read) × Keeps (R.remaining reader.old) (R.remaining reader.new)) }
{
    let mut one = [0u8; 1];
    for _ in 0..u64::MAX {
        match reader.read(&mut one) {
            Ok(0) => return Ok(None),
            Ok(_) => return Ok(Some(one[0])),
            Err(e) => {
                if e.kind() != ErrorKind::Interrupted {
                    return Err(StreamFault::Read);
                }
            }
        }
    }
    Err(StreamFault::Read)
}

/// The next byte of a reader, or none at its end. Nothing that was written is held back while the reader waits for it.
fn next_byte<R: Read, W: Write>(
    reader: &mut BufReader<R, Global>,
    writer: &mut W,
) -> Result<Option<u8>, StreamFault>
    ensures read { MatchResult result
        (TakesByte (reader_remaining R.remaining reader.old) (reader_remaining R.remaining reader.new))
        (StopsAtByte (reader_remaining R.remaining reader.old) (reader_remaining R.remaining reader.new)) }
    ensures kept { Keeps (W.contents writer.old) (W.contents writer.new) }
{
    hand_on_before_wait(reader, writer)?;
    take_byte(reader)
}

impl Part {
    /// Nothing was read yet. What is read goes into `room`, which is emptied first.
    fn new(mut room: Vec<u8>) -> Self
        ensures { IsPart [] result }
    {
        room.clear();
        Part {
            text: room,
            len: 0,
            ends_in_return: false,
        }
    }

    /// These bytes were read, too.
    fn extend(&mut self, bytes: &[u8]) -> Result<(), AllocError>
        requires { self.old.len ≤ longest_part + 1 }
        ensures { OnOk result (GrowsByBytes bytes.now self.old self.new) }
    {
        let room = (LONGEST_LINE + 1).saturating_sub(self.len);
        self.text
            .extend_from_slice(&bytes[..bytes.len().min(room)])?;
        if let Some(last) = bytes.last() {
            self.ends_in_return = *last == b'\r';
        }
        self.len += bytes.len();
        Ok(())
    }

    /// How many bytes the line has, where it ends here.
    fn line_len(&self, is_ended: bool) -> usize
        ensures { (bytes : List ℕ) → IsPart bytes self.now → result ≡ length (line_of is_ended bytes) }
    {
        if is_ended && self.ends_in_return {
            self.len.saturating_sub(1)
        } else {
            self.len
        }
    }

    /// Whether what was read of a line counts for more lines than the most.
    fn exceeds(&self, most: u32) -> bool
        requires { most ≤ MOST_LINES }
        ensures past { result ≡ true → (bytes : List ℕ) → IsPart bytes self.now
            → (0 < length bytes) × (most < count_of (line_of true bytes)) }
        ensures short { result ≡ false → (bytes : List ℕ) → IsPart bytes self.now → length bytes ≤ longest_part }
    {
        self.len > 0 && count(self.line_len(true)) > most as usize
    }

    /// The line, which ends here.
    fn end(self, is_ended: bool) -> Line
        ensures { (bytes : List ℕ) → IsPart bytes self → IsKept (line_of is_ended bytes) result }
    {
        let len = self.line_len(is_ended);
        let Part { mut text, .. } = self;
        if len <= LONGEST_LINE {
            text.truncate(len);
            Line::Text(text)
        } else {
            Line::TooLong
        }
    }
}

/// Takes what is at hand of a line, and its line feed where that is at hand: whether it is.
fn take_at_hand<R: Read>(
    reader: &mut BufReader<R, Global>,
    part: &mut Part,
) -> Result<bool, AllocError>
    requires { part.old.len ≤ longest_part + 1 }
    ensures { MatchResult result
        (TakesAtHand (reader_remaining R.remaining reader.old) (reader_remaining R.remaining reader.new) part.old part.new)
        (λ _. Keeps (reader_remaining R.remaining reader.old) (reader_remaining R.remaining reader.new)) }
{
    let bytes = reader.buffer();
    let end = memchr(b'\n', bytes);
    let len = end.unwrap_or(bytes.len());
    part.extend(&bytes[..len])?;
    reader.consume(len + usize::from(end.is_some()));
    Ok(end.is_some())
}

/// Reads on to the end of a line, which is a line feed or the end of the input: whether it is a line feed. The line may count for
/// `most` lines.
fn read_part<R: Read, W: Write>(
    reader: &mut BufReader<R, Global>,
    writer: &mut W,
    part: &mut Part,
    most: u32,
) -> Result<bool, StreamFault>
    requires start { IsPart [] part.old }
    requires most { most ≤ MOST_LINES }
    ensures read { MatchResult result (λ is_ended. (bytes : List ℕ) × IsPart bytes part.new × HasNoFeed bytes
        × TakesPart (reader_remaining R.remaining reader.old) (reader_remaining R.remaining reader.new) is_ended bytes)
        (StopsAtLine (reader_remaining R.remaining reader.old) (reader_remaining R.remaining reader.new) most) }
    ensures kept { Keeps (W.contents writer.old) (W.contents writer.new) }
{
    loop {
        if take_at_hand(reader, part)? {
            return Ok(true);
        }
        if part.exceeds(most) {
            return Err(StreamFault::TooManyLines);
        }
        match next_byte(reader, writer)? {
            None => return Ok(false),
            Some(b'\n') => return Ok(true),
            Some(byte) => part.extend(&[byte])?,
        }
    }
}

/// The next line of a reader, or none at its end. `left` says how many more lines may come. The line is kept in the memory of
/// `room`, so that lines one after the other need none of their own; what `room` held is of no account.
pub fn read_line<R: Read, W: Write>(
    room: Vec<u8>,
    reader: &mut BufReader<R, Global>,
    writer: &mut W,
    left: &mut u32,
) -> Result<Option<Line>, StreamFault>
    requires { left.old ≤ MOST_LINES }
    ensures read { MatchResult result
        (TakesLine (reader_remaining R.remaining reader.old) (reader_remaining R.remaining reader.new)
        left.old left.new)
        (StopsAtLine (reader_remaining R.remaining reader.old) (reader_remaining R.remaining reader.new) left.old) }
    ensures kept { Keeps (W.contents writer.old) (W.contents writer.new) }
{
    let mut part = Part::new(room);
    let is_ended = read_part(reader, writer, &mut part, *left)?;
    if !is_ended && part.len == 0 {
        return Ok(None);
    }
    let count = count(part.line_len(is_ended));
    if count > *left as usize {
        return Err(StreamFault::TooManyLines);
    }
    *left -= count as u32;
    Ok(Some(part.end(is_ended)))
}

/// Whether each byte is a space.
fn all_spaces(bytes: &[u8]) -> bool
    ensures { result ≡ list_all (λ b. b == 32) bytes.now }
{
    bytes.iter().all(|byte| *byte == b' ')
}

/// Whether a line is empty: it has spaces alone.
pub fn is_blank(line: &Line) -> bool
    ensures { (bytes : List ℕ) → IsKept bytes line.now → result ≡ blank bytes }
{
    match line {
        Line::Text(bytes) => all_spaces(bytes),
        Line::TooLong => false,
    }
}
