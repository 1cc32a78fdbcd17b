//! Consoles of a server that stays and of others: `shutdown`, `status`, `fence`, `help`, names by their beginning, as many lines as may come,
//! and how each console ended.
use crate::clerks::{Clerk, answers, hold, is_answered, leaves};
use crate::ends::{Ended, ended_by};
use console::{ConsoleEnd, ConsoleFault};
use std::alloc::Global;
use std::io::Cursor;

#[test]
fn ends_are_told(rt: HostRuntime) {
    let alloc = rt.alloc();
    assert!(rt; answers(alloc, true, b"quit\n", b"ok\n", ConsoleEnd::Quit));
    assert!(rt;
        answers(
            alloc,
            true,
            b" shutdown \r\n",
            b"ok\n",
            ConsoleEnd::Shutdown
        )
    );
    assert!(rt; answers(alloc, true, b"spawn\n", b"a.1\n", ConsoleEnd::Input));
    assert!(rt; answers(alloc, true, b"", b"", ConsoleEnd::Input));
    assert!(rt; answers(alloc, false, b"quit\n", b"ok\n", ConsoleEnd::Quit));
    assert!(rt; answers(alloc, false, b"spawn", b"a.1\n", ConsoleEnd::Input));
}

#[test]
fn shutdown_is_one_word_of_a_server_that_stays(rt: HostRuntime) {
    let alloc = rt.alloc();
    let lines = b"shutdown\nshutdown now\nshut\n".as_slice();
    let text = b"error bad_line\nerror bad_line\nerror bad_line\n".as_slice();
    assert!(rt; answers(alloc, false, lines, text, ConsoleEnd::Input));
    let lines = b"shutdown now\nSHUTDOWN\nshutdown\n".as_slice();
    let text = b"error bad_line\nerror bad_line\nok\n".as_slice();
    assert!(rt; answers(alloc, true, lines, text, ConsoleEnd::Shutdown));
}

#[test]
fn status_is_one_line_of_a_server_that_stays(rt: HostRuntime) {
    let alloc = rt.alloc();
    let text = b"error bad_line\nerror bad_line\n".as_slice();
    assert!(rt; answers(alloc, false, b"status\nstatus a\n", text, ConsoleEnd::Input));
    let text =
        b"status a lone members a names 3 locks 2 calls 1204 serials 17 spans 1 consoles 5 steps 9120 memory 14680064\n\
        error bad_line\nerror bad_line\na.1\n";
    let lines = b"status\nstatus a\nSTATUS\nspawn\n".as_slice();
    assert!(rt; answers(alloc, true, lines, text.as_slice(), ConsoleEnd::Input));
}

#[test]
fn fence_is_one_line_of_a_server_that_stays(rt: HostRuntime) {
    let alloc = rt.alloc();
    let text = b"error bad_line\ntrue\nerror bad_line\n".as_slice();
    let lines = b"fence\nset_lock a.1 r x all 0\nfence\n".as_slice();
    assert!(rt; answers(alloc, false, lines, text, ConsoleEnd::Input));
    let text = b"error no_grant\nerror bad_line\ntrue\nfence 100000000000000000001\ntrue\n\
        fence 100000000000000000001\ntrue\nfence 100000000000000000002\n"
        .as_slice();
    let lines = b"fence\nfence a\nset_lock a.1 r x all 0\nfence\ndel_lock a.1 r x all\n\
        fence\nset_lock a.1 q x all infinity\nfence\n"
        .as_slice();
    assert!(rt; answers(alloc, true, lines, text, ConsoleEnd::Input));
}

#[test]
fn help_and_names_by_their_beginning_are_lines_of_a_server_that_stays(rt: HostRuntime) {
    let alloc = rt.alloc();
    let text = b"error bad_line\nerror bad_line\n".as_slice();
    assert!(rt; answers(alloc, false, b"help\nnames x\n", text, ConsoleEnd::Input));
    let text =
        b"help spawn spawn_link exit register re_register unregister whereis names describe find wait notices set_lock del_lock join \
        leave quit status fence help shutdown\nerror bad_line\nerror bad_byte\nerror bad_line\ntrue\na.1\n";
    let lines = b"help\nhelp me\nnames x!\nnames x y\nnames x\nspawn\n".as_slice();
    assert!(rt; answers(alloc, true, lines, text.as_slice(), ConsoleEnd::Input));
}

/// Whether an attendant whose look-ups find its first process answers lines with this text.
fn finds(alloc: Global, lines: &[u8], text: &[u8]) -> bool {
    match Clerk::new(alloc) {
        Some(mut clerk) => {
            clerk.finds = true;
            is_answered(alloc, &mut clerk, true, lines, text, ConsoleEnd::Input)
        }
        None => false,
    }
}

#[test]
fn processes_are_described_at_a_server_that_stays(rt: HostRuntime) {
    let alloc = rt.alloc();
    let lines = b"describe a.1\ndescribe a.1 x\nfind x\nwait x\nwait x a.1\n".as_slice();
    let text =
        b"error bad_line\nerror bad_line\nerror bad_line\nerror bad_line\nerror bad_line\n".as_slice();
    assert!(rt; answers(alloc, false, lines, text, ConsoleEnd::Input));
    let lines =
        b"  describe  a.1  tcp://10.0.0.5:80  v2 \ndescribe a.1\ndescribe a.2 \ndescribe a.7 x\ndescribe b.1 x\n\
        describe a x\ndescribe a.1 \tx\nfind x\nfind x!\nfind\nwait x\nwait x a\n"
            .as_slice();
    let text =
        b"ok\ndescription  tcp://10.0.0.5:80  v2 \nundefined\nerror too_many_descriptions\nerror no_such_process\n\
        error bad_serial\nerror bad_byte\na.1  tcp://10.0.0.5:80  v2 \nerror bad_byte\nerror bad_line\ntrue\nerror bad_serial\n"
            .as_slice();
    assert!(rt; finds(alloc, lines, text));
}

#[test]
fn nothing_behind_the_last_line_is_read(rt: HostRuntime) {
    let alloc = rt.alloc();
    let lines = b"spawn\nquit\nspawn\nbogus".as_slice();
    assert!(rt; leaves(alloc, false, lines, ConsoleEnd::Quit, b"spawn\nbogus"));
    let lines = b"spawn\nshutdown\nspawn\n".as_slice();
    assert!(rt; leaves(alloc, true, lines, ConsoleEnd::Shutdown, b"spawn\n"));
}

/// Whether a console came to an end with its input where it may have all lines, and else to a fault.
fn is_due(found: Result<ConsoleEnd, ConsoleFault>, is_whole: bool) -> bool {
    match found {
        Ok(end) => is_whole && end == ConsoleEnd::Input,
        Err(fault) => !is_whole && ended_by(&fault) == Ended::TooMany,
    }
}

/// Whether three lines, of which `most` may come, are answered so.
fn has_answers(alloc: Global, most: u64, text: &[u8], is_whole: bool) -> bool {
    match Clerk::new(alloc) {
        Some(mut clerk) => {
            let mut written = Vec::new(alloc);
            let lines = Cursor::new(b"spawn\n\nspawn".as_slice());
            let result = hold(alloc, &mut clerk, lines, &mut written, true, most);
            is_due(result, is_whole) && written.as_slice() == text
        }
        None => false,
    }
}

#[test]
fn no_more_lines_are_answered_than_may_come(rt: HostRuntime) {
    let alloc = rt.alloc();
    assert!(rt; has_answers(alloc, 0, b"", false));
    assert!(rt; has_answers(alloc, 1, b"a.1\n", false));
    assert!(rt; has_answers(alloc, 2, b"a.1\nerror bad_line\n", false));
    assert!(rt; has_answers(alloc, 3, b"a.1\nerror bad_line\na.2\n", true));
    assert!(rt; has_answers(alloc, u64::MAX, b"a.1\nerror bad_line\na.2\n", true));
}
