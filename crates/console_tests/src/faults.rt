//! Consoles whose line has no end, and whose readers and writers fail at each point.
use crate::clerks::{Clerk, MOST_LINES, hold};
use crate::ends::{Ended, how_ended};
use crate::streams::Endless;
use failing_streams::{Full, Shy, Torn};
use std::alloc::Global;
use std::io::{Cursor, Write};

/// Lines of a console.
const LINES: &[u8] = b"spawn\n\nwhereis x\nexit a\nquit\n";

/// What they are answered.
const TEXT: &[u8] = b"a.1\nerror bad_line\ntrue\nerror bad_serial\nok\n";

/// How many line ends there are among these bytes.
pub(crate) fn line_ends(bytes: &[u8]) -> usize {
    bytes.iter().filter(|byte| **byte == b'\n').count()
}

/// Whether these are the first so many lines of a text.
pub(crate) fn are_lines_of(text: &[u8], lines: usize, bytes: &[u8]) -> bool {
    text.starts_with(bytes)
        && line_ends(bytes) == lines
        && (lines == 0 && bytes.is_empty() || bytes.last() == Some(&b'\n'))
}

/// Whether a line without an end was too many.
fn is_too_many(alloc: Global, clerk: &mut Clerk) -> bool {
    let mut written = Vec::new(alloc);
    let result = hold(alloc, clerk, Endless, &mut written, false, MOST_LINES);
    how_ended(result) == Ended::TooMany && written.is_empty()
}

#[test]
fn a_line_without_an_end_is_too_many(rt: HostRuntime) {
    match Clerk::new(rt.alloc()) {
        Some(mut clerk) => assert!(rt; is_too_many(rt.alloc(), &mut clerk)),
        None => assert!(rt; false),
    }
}

/// Whether a reader's failure behind these bytes ends the console, once all is answered that was read before.
fn reader_ends_it(alloc: Global, read: &[u8], step: usize) -> bool {
    match Clerk::new(alloc) {
        Some(mut clerk) => {
            let mut written = Vec::new(alloc);
            let reader = Torn::new(read, step);
            let result = hold(alloc, &mut clerk, reader, &mut written, false, MOST_LINES);
            how_ended(result) == Ended::Read
                && are_lines_of(TEXT, line_ends(read), written.as_slice())
        }
        None => false,
    }
}

#[test]
fn readers_fail_at_each_point(rt: HostRuntime) {
    for count in 0..LINES.len() {
        assert!(rt; reader_ends_it(rt.alloc(), &LINES[..count], 1));
        assert!(rt; reader_ends_it(rt.alloc(), &LINES[..count], 7));
        assert!(rt; reader_ends_it(rt.alloc(), &LINES[..count], 1000));
    }
}

/// Whether a writer's failure ends a console.
fn writer_ends_it<W: Write>(alloc: Global, writer: &mut W) -> bool {
    match Clerk::new(alloc) {
        Some(mut clerk) => {
            let lines = Cursor::new(LINES);
            how_ended(hold(alloc, &mut clerk, lines, writer, false, MOST_LINES)) == Ended::Write
        }
        None => false,
    }
}

/// Whether a writer that has room for these bytes ends the console, and was given nothing but them.
fn is_full(alloc: Global, text: &[u8], fails: bool) -> bool {
    let mut writer = Full::new(Vec::new(alloc), text.len(), fails);
    writer_ends_it(alloc, &mut writer) && writer.taken.as_slice() == text
}

#[test]
fn writers_fail_at_each_point(rt: HostRuntime) {
    for room in 0..TEXT.len() {
        assert!(rt; is_full(rt.alloc(), &TEXT[..room], true));
        assert!(rt; is_full(rt.alloc(), &TEXT[..room], false));
    }
}

/// Whether a writer that takes all and hands it on so often ends the console, and was given these bytes until then. Answers to lines that came
/// in one piece are handed on together.
fn stays_behind(alloc: Global, flushes: usize, text: &[u8]) -> bool {
    let mut writer = Shy {
        taken: Vec::new(alloc),
        flushes,
    };
    writer_ends_it(alloc, &mut writer) && writer.taken.as_slice() == text
}

#[test]
fn answers_that_stay_behind_are_faults(rt: HostRuntime) {
    assert!(rt; stays_behind(rt.alloc(), 0, b""));
    assert!(rt; stays_behind(rt.alloc(), 1, TEXT));
}
