//! Linked processes: whose exit is asked for when a console ends, and what `self` is.
use crate::clerks::{Clerk, MOST_LINES, hold, is_answered};
use crate::ends::{Ended, how_ended};
use console::ConsoleEnd;
use failing_streams::{Full, Torn};
use std::alloc::Global;
use std::io::{Cursor, Read, Write};

/// Whether lines are answered with this text and ended so, by an attendant that refuses exits or one that doesn't, and the exits of these
/// were asked for until the console was done.
fn exits_are(
    alloc: Global,
    refuses: bool,
    lines: &[u8],
    text: &[u8],
    end: ConsoleEnd,
    exits: &[u32],
) -> bool {
    match Clerk::new(alloc) {
        Some(mut clerk) => {
            clerk.refuses = refuses;
            is_answered(alloc, &mut clerk, true, lines, text, end)
                && clerk.exits.as_slice() == exits
        }
        None => false,
    }
}

/// Whether it is so where the input ends the console.
fn exits_behind(alloc: Global, refuses: bool, lines: &[u8], text: &[u8], exits: &[u32]) -> bool {
    exits_are(alloc, refuses, lines, text, ConsoleEnd::Input, exits)
}

#[test]
fn linked_processes_exit_at_the_end(rt: HostRuntime) {
    let alloc = rt.alloc();
    let lines = b"spawn_link\nspawn\nspawn_link\n".as_slice();
    assert!(rt; exits_behind(alloc, false, lines, b"a.1\na.2\na.3\n", &[1, 3]));
    assert!(rt; exits_behind(alloc, true, lines, b"a.1\na.2\na.3\n", &[1, 3]));
    let lines = b"spawn_link\nquit\nspawn_link\n".as_slice();
    assert!(rt; exits_are(alloc, false, lines, b"a.1\nok\n", ConsoleEnd::Quit, &[1]));
    let lines = b"spawn_link\nshutdown\nspawn_link\n".as_slice();
    assert!(rt;
        exits_are(
            alloc,
            false,
            lines,
            b"a.1\nok\n",
            ConsoleEnd::Shutdown,
            &[1]
        )
    );
    assert!(rt; exits_behind(alloc, false, b"spawn\n", b"a.1\n", &[]));
}

#[test]
fn an_exit_unlinks(rt: HostRuntime) {
    let alloc = rt.alloc();
    let lines = b"spawn_link\nspawn_link\nexit a.1\n".as_slice();
    assert!(rt; exits_behind(alloc, false, lines, b"a.1\na.2\nok\n", &[1, 2]));
    let text = b"a.1\na.2\nerror already_exited\n".as_slice();
    assert!(rt; exits_behind(alloc, true, lines, text, &[1, 1, 2]));
    let lines = b"spawn_link\nexit b.1\n".as_slice();
    assert!(rt; exits_behind(alloc, false, lines, b"a.1\nok\n", &[1, 1]));
    let lines = b"spawn_link\nspawn_link\nspawn\nexit self\nexit self\nexit self\n".as_slice();
    let text = b"a.1\na.2\na.3\nok\nok\nerror bad_serial\n".as_slice();
    assert!(rt; exits_behind(alloc, false, lines, text, &[2, 1]));
}

#[test]
fn spawn_link_is_one_word(rt: HostRuntime) {
    let lines = b" spawn_link \r\nspawn_link a\nSPAWN_LINK\n".as_slice();
    let text = b"a.1\nerror bad_line\nerror bad_line\n".as_slice();
    assert!(rt; exits_behind(rt.alloc(), false, lines, text, &[1]));
}

/// Whether two processes are linked when a fault ends a console, of which so many lines may come, and their exits are asked for then.
fn exit_behind_a_fault<R: Read + Drop, W: Write>(
    alloc: Global,
    reader: R,
    writer: &mut W,
    most: u64,
    wanted: Ended,
) -> bool {
    match Clerk::new(alloc) {
        Some(mut clerk) => {
            how_ended(hold(alloc, &mut clerk, reader, writer, true, most)) == wanted
                && clerk.exits.as_slice() == [1, 2].as_slice()
        }
        None => false,
    }
}

/// Three lines, of each of which comes a linked process.
const LINKS: &[u8] = b"spawn_link\nspawn_link\nspawn_link\n";

#[test]
fn linked_processes_exit_behind_a_fault(rt: HostRuntime) {
    let alloc = rt.alloc();
    let mut writer = Full::new(Vec::new(alloc), 100, true);
    let torn = Torn::new(b"spawn_link\nspawn_link\nspawn_li", 4);
    assert!(rt; exit_behind_a_fault(alloc, torn, &mut writer, MOST_LINES, Ended::Read));
    let links = Cursor::new(LINKS);
    assert!(rt; exit_behind_a_fault(alloc, links, &mut writer, 2, Ended::TooMany));
    // The second process is linked, though its answer isn't written.
    let mut writer = Full::new(Vec::new(alloc), 5, true);
    let links = Cursor::new(LINKS);
    assert!(rt; exit_behind_a_fault(alloc, links, &mut writer, 3, Ended::Write));
}

/// So many lines that ask for a linked process each, and these behind them. Whether there was memory for them.
fn push_links(lines: &mut Vec<u8>, count: u32, last: &[u8]) -> bool {
    for _ in 0..count {
        if lines.extend_from_slice(b"spawn_link\n").is_err() {
            return false;
        }
    }
    lines.extend_from_slice(last).is_ok()
}

/// Whether a console that has as many links as it may is told so, and has room for one again once one has exited.
fn is_told_of_many(alloc: Global, lines: &[u8], clerk: &mut Clerk) -> bool {
    let mut written = Vec::new(alloc);
    let result = hold(
        alloc,
        clerk,
        Cursor::new(lines),
        &mut written,
        true,
        MOST_LINES,
    );
    let text = b"a.1024\nerror too_many_links\na.1025\nok\na.1026\nerror too_many_links\n";
    result.is_ok()
        && written.as_slice().ends_with(text.as_slice())
        && clerk.exits.len() == 1025
        && clerk.exits.first() == Some(&1024)
        && clerk.exits.last() == Some(&1026)
}

/// Whether a new attendant's console is.
fn has_so_many(alloc: Global) -> bool {
    let mut lines = Vec::new(alloc);
    let last = b"spawn_link\nspawn\nexit self\nspawn_link\nspawn_link\n".as_slice();
    match Clerk::new(alloc) {
        Some(mut clerk) => {
            push_links(&mut lines, 1024, last)
                && is_told_of_many(alloc, lines.as_slice(), &mut clerk)
        }
        None => false,
    }
}

#[test]
fn a_console_has_so_many_links(rt: HostRuntime) {
    assert!(rt; has_so_many(rt.alloc()));
}

/// Whether an attendant is told of the calls that needn't be waited for: those for locks of linked processes.
fn tells_of_links(alloc: Global) -> bool {
    let lines =
        b"spawn_link\nset_lock self r q all 0\nset_lock a.9 r q all 0\ndel_lock self r q all\nexit self\n";
    let text = b"a.1\ntrue\ntrue\ntrue\nok\n".as_slice();
    match Clerk::new(alloc) {
        Some(mut clerk) => {
            is_answered(
                alloc,
                &mut clerk,
                true,
                lines.as_slice(),
                text,
                ConsoleEnd::Input,
            ) && clerk.linked == 1
        }
        None => false,
    }
}

#[test]
fn calls_that_needn_t_be_waited_for_are_told(rt: HostRuntime) {
    assert!(rt; tells_of_links(rt.alloc()));
}
