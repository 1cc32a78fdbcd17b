//! A script that is played to its end, and readers and writers that fail at each point.
use cluster_script::{ScriptFault, run_script};
use failing_streams::{Full, Shy, Torn};
use std::alloc::Global;
use std::io::{BufReader, Cursor, Read, Write};
use std::test::Fail;

/// A script.
const SCRIPT: &[u8] = b"cluster a\nspawn a\nregister a x a.1\nsettle\nwhereis a x\n";

/// What it prints.
const TEXT: &[u8] = b"a.1\na#1 yes\nsettled\na.1\n";

/// Plays what a reader gives.
pub(crate) fn play<R: Read + Drop, W: Write>(
    alloc: Global,
    reader: R,
    writer: &mut W,
) -> Result<bool, ScriptFault> {
    match BufReader::new(alloc, reader) {
        Ok(mut reader) => run_script(alloc, &mut reader, writer),
        Err(_) => Err(ScriptFault::Memory),
    }
}

#[test]
fn plays_a_script(rt: HostRuntime) -> Result<(), Fail> {
    let mut written = Vec::new(rt.alloc());
    let result = play(rt.alloc(), Cursor::new(SCRIPT), &mut written);
    assert!(rt; matches!(result, Ok(true)));
    assert_eq!(rt; written.as_slice(), TEXT);
    Ok(())
}

/// How much is printed for the whole lines among these bytes of the script.
fn printed_for(read: &[u8]) -> usize {
    match read.iter().filter(|byte| **byte == b'\n').count() {
        0 | 1 => 0,
        2 | 3 => 4,
        4 => 20,
        _ => 24,
    }
}

/// Whether a reader's failure behind these bytes ends the script, once all is printed that was asked before.
fn reader_ends_it(alloc: Global, read: &[u8]) -> bool {
    let torn = Torn::new(read, read.len());
    let mut written = Vec::new(alloc);
    let result = play(alloc, torn, &mut written);
    matches!(result, Err(ScriptFault::Read))
        && TEXT.starts_with(written.as_slice())
        && written.len() == printed_for(read)
}

#[test]
fn readers_fail_at_each_point(rt: HostRuntime) {
    for count in 0..=SCRIPT.len() {
        assert!(rt; reader_ends_it(rt.alloc(), &SCRIPT[..count]));
    }
}

/// Whether a writer that has room for so much ends the script, and was given nothing but its text.
fn writer_ends_it(alloc: Global, room: usize, fails: bool) -> bool {
    let mut writer = Full::new(Vec::new(alloc), room, fails);
    let result = play(alloc, Cursor::new(SCRIPT), &mut writer);
    matches!(result, Err(ScriptFault::Write))
        && TEXT.starts_with(writer.taken.as_slice())
        && writer.taken.len() == room
}

#[test]
fn writers_fail_at_each_point(rt: HostRuntime) {
    for room in 0..TEXT.len() {
        assert!(rt; writer_ends_it(rt.alloc(), room, true));
        assert!(rt; writer_ends_it(rt.alloc(), room, false));
    }
}

#[test]
fn answers_that_stay_behind_are_faults(rt: HostRuntime) {
    let mut writer = Shy {
        taken: Vec::new(rt.alloc()),
        flushes: 0,
    };
    let result = play(rt.alloc(), Cursor::new(SCRIPT), &mut writer);
    assert!(rt; matches!(result, Err(ScriptFault::Write)));
}
