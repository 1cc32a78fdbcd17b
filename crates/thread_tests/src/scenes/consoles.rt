//! Consoles at seats of running clusters: readers and writers that fail at each point, two consoles that have one seat, and lock
//! calls whose client goes while they wait.
use crate::plays::Small;
use clients::{ForgetfulSeat, Home, Leaver, Listener};
use console::{Client, ConsoleEnd, ConsoleFault, serve, serve_staying};
use failing_streams::{Full, Torn};
use node_threads::{Seat, Transcript};
use std::alloc::Global;
use std::io::{BufReader, Cursor, Read, Write};
use std::sync::atomic::{AtomicU32, Ordering};
use std::sync::{Arc, Wait};
use std::time::Clock;
use term::NodeName;

mod clients;

/// Lines of a console at one of two nodes, which leaves.
pub(crate) const LINES: &[u8] =
    b"whereis x\n\nexit b.1\nset_lock b.1 r q all 0\nnames\nleave\nspawn\nquit\n";

/// What they are answered.
pub(crate) const TEXT: &[u8] =
    b"undefined\nerror bad_line\nerror no_such_process\nerror not_live\nnames\nok\nerror node_left\nok\n";

/// The first bytes of a text: so many, or all.
fn first_of(text: &[u8], count: usize) -> &[u8] {
    &text[..count.min(text.len())]
}

/// How many line ends there are among these bytes.
fn line_ends(bytes: &[u8]) -> usize {
    bytes.iter().filter(|byte| **byte == b'\n').count()
}

/// Whether these are the first so many lines of the answers.
fn are_answers(lines: usize, bytes: &[u8]) -> bool {
    TEXT.starts_with(bytes)
        && line_ends(bytes) == lines
        && (lines == 0 && bytes.is_empty() || bytes.last() == Some(&b'\n'))
}

/// How a console ended.
#[derive(Clone, Copy, PartialEq, Eq)]
enum Ended {
    /// Without a fault.
    Whole,
    /// Its reader failed.
    Read,
    /// Its writer failed.
    Write,
    /// It met another fault.
    Otherwise,
}

/// How it ended that met a fault.
fn ended_by(fault: &ConsoleFault) -> Ended {
    match fault {
        ConsoleFault::Read => Ended::Read,
        ConsoleFault::Write => Ended::Write,
        ConsoleFault::TooManyLines | ConsoleFault::Memory => Ended::Otherwise,
    }
}

/// How many of the first so many lines stand in the transcript: a look-up and what is refused don't.
fn entries_for(lines: usize) -> usize {
    match lines {
        0..=4 => 0,
        5 => 1,
        _ => 2,
    }
}

/// What is said at the seats of a cluster.
#[derive(Clone, Copy)]
pub(crate) enum Talk {
    /// All lines.
    Whole,
    /// So many bytes of them, behind which the reader fails.
    Torn(usize),
    /// All, by a console whose writer has room for so many bytes of the answers.
    Full(usize),
    /// One console, and then another that is lent the same seat.
    InTurn,
    /// Lock calls that wait, whose clients go.
    Waits,
}

/// Keeps a transcript. Whether it has so many entries, and there was memory.
fn keeps(told: &mut Vec<Transcript>, transcript: Transcript, entries: usize) -> bool {
    transcript.entries.len() == entries && told.push(transcript).is_ok()
}

/// How a console at a seat ended, and its transcript.
fn served<H: Wait + Clock, R: Read, W: Write>(
    rt: &H,
    alloc: Global,
    reader: &mut BufReader<R, Global>,
    writer: &mut W,
    seat: Seat,
) -> (Ended, Transcript) {
    match serve(rt, alloc, reader, writer, seat) {
        Ok(transcript) => (Ended::Whole, transcript),
        Err((fault, transcript)) => (ended_by(&fault), transcript),
    }
}

/// Whether a console at a seat comes to this, with so many entries in its transcript, which is kept.
fn comes_to<H: Wait + Clock, R: Read + Drop, W: Write>(
    rt: &H,
    alloc: Global,
    seat: Seat,
    reader: R,
    writer: &mut W,
    wanted: (Ended, usize),
    told: &mut Vec<Transcript>,
) -> bool {
    match BufReader::new(alloc, reader) {
        Ok(mut reader) => {
            let (ended, transcript) = served(rt, alloc, &mut reader, writer, seat);
            keeps(told, transcript, wanted.1) && ended == wanted.0
        }
        Err(_) => false,
    }
}

/// Whether a console that fails nowhere is answered each line.
fn is_answered<H: Wait + Clock>(
    rt: &H,
    alloc: Global,
    seat: Seat,
    told: &mut Vec<Transcript>,
) -> bool {
    let mut written = Vec::new(alloc);
    let wanted = (Ended::Whole, 2);
    comes_to(
        rt,
        alloc,
        seat,
        Cursor::new(LINES),
        &mut written,
        wanted,
        told,
    ) && written.as_slice() == TEXT
}

/// Whether one whose reader fails behind these bytes is answered the lines before.
fn is_torn<H: Wait + Clock>(
    rt: &H,
    alloc: Global,
    seat: Seat,
    read: &[u8],
    told: &mut Vec<Transcript>,
) -> bool {
    let mut written = Vec::new(alloc);
    let lines = line_ends(read);
    let wanted = (Ended::Read, entries_for(lines));
    comes_to(
        rt,
        alloc,
        seat,
        Torn::new(read, 5),
        &mut written,
        wanted,
        told,
    ) && are_answers(lines, written.as_slice())
}

/// Whether one whose writer has room for these bytes writes them alone, and carried out what it couldn't answer.
fn is_full<H: Wait + Clock>(
    rt: &H,
    alloc: Global,
    seat: Seat,
    text: &[u8],
    told: &mut Vec<Transcript>,
) -> bool {
    let mut writer = Full::new(Vec::new(alloc), text.len(), true);
    let wanted = (Ended::Write, entries_for(line_ends(text).saturating_add(1)));
    comes_to(
        rt,
        alloc,
        seat,
        Cursor::new(LINES),
        &mut writer,
        wanted,
        told,
    ) && writer.taken.as_slice() == text
}

/// Whether a console ended so.
fn is_end(found: Result<ConsoleEnd, ConsoleFault>, wanted: ConsoleEnd) -> bool {
    match found {
        Ok(end) => end == wanted,
        Err(_) => false,
    }
}

/// Whether a console of a server that stays, which is lent this seat, answers lines with this text, and ends so; and the seat, if it came back.
fn hold<H: Wait + Clock, C: Client + Drop>(
    rt: &H,
    alloc: Global,
    seat: ForgetfulSeat,
    client: C,
    lines: &[u8],
    text: &[u8],
    wanted: ConsoleEnd,
) -> (bool, Option<ForgetfulSeat>) {
    match BufReader::new(alloc, Cursor::new(lines)) {
        Ok(mut reader) => {
            let mut written = Vec::new(alloc);
            let node = seat.node().copy();
            let home = Home::new(alloc, seat);
            let result = serve_staying(rt, alloc, &mut reader, &mut written, node, client, &home);
            (
                is_end(result, wanted) && written.as_slice() == text,
                home.take_seat(rt),
            )
        }
        Err(_) => (false, Some(seat)),
    }
}

/// Whether two consoles that are lent this seat, one after the other, are answered as they should be, and it comes back.
fn hold_in_turn<H: Wait + Clock>(rt: &H, alloc: Global, seat: ForgetfulSeat) -> bool {
    let lines = b"spawn\nset_lock a.1 r q all 0\nspawn_link\nquit\n".as_slice();
    let text = b"a.1\ntrue\na.2\nok\n".as_slice();
    let (first, seat) = hold(rt, alloc, seat, Listener, lines, text, ConsoleEnd::Quit);
    let Some(seat) = seat else {
        return false;
    };
    // It was granted no lock, though another was at this seat.
    let lines = b"fence\nexit a.1\nexit a.2\nspawn\nshutdown\nspawn\n".as_slice();
    let text = b"error no_grant\nok\nerror already_exited\na.3\nok\n".as_slice();
    let (second, seat) = hold(rt, alloc, seat, Listener, lines, text, ConsoleEnd::Shutdown);
    first && second && seat.is_some()
}

/// Whether two consoles are answered so at a new seat of a node.
fn holds_twice<H: Wait + Clock>(
    rt: &H,
    alloc: Global,
    cluster: &mut Small,
    node: &NodeName,
) -> bool {
    match cluster.forgetful_seat(node) {
        Ok(seat) => hold_in_turn(rt, alloc, seat),
        Err(_) => false,
    }
}

/// Whether a console of this client, at a new seat of a node, answers lines with this text. The seat is given back.
fn answers<H: Wait + Clock, C: Client + Drop>(
    rt: &H,
    alloc: Global,
    cluster: &mut Small,
    node: &NodeName,
    client: C,
    lines: &[u8],
    text: &[u8],
) -> bool {
    match cluster.forgetful_seat(node) {
        Ok(seat) => {
            let (is_due, seat) = hold(rt, alloc, seat, client, lines, text, ConsoleEnd::Input);
            match seat {
                Some(seat) => {
                    cluster.give_back(seat);
                    is_due
                }
                None => false,
            }
        }
        Err(_) => false,
    }
}

/// Whether a console answers the lines of a client that has ended its input, and is gone behind so many looks, which are counted.
fn answers_leaver<H: Wait + Clock>(
    rt: &H,
    alloc: Global,
    cluster: &mut Small,
    node: &NodeName,
    counted: &Arc<AtomicU32, Global>,
    stays: u32,
    lines: &[u8],
    text: &[u8],
) -> bool {
    match Arc::try_clone(counted) {
        Ok(looks) => answers(
            rt,
            alloc,
            cluster,
            node,
            Leaver { looks, stays },
            lines,
            text,
        ),
        Err(_) => false,
    }
}

/// Whether a console looks more often than so at a client that has ended its input, and is gone behind so many looks, and its lines
/// are answered with this text.
fn looks<H: Wait + Clock>(
    rt: &H,
    alloc: Global,
    cluster: &mut Small,
    node: &NodeName,
    stays: u32,
    least: u32,
    lines: &[u8],
    text: &[u8],
) -> bool {
    match Arc::new(alloc, AtomicU32::new(0)) {
        Ok(counted) => {
            answers_leaver(rt, alloc, cluster, node, &counted, stays, lines, text)
                && counted.load(Ordering::SeqCst) > least
        }
        Err(_) => false,
    }
}

/// Whether lock calls of clients that go are given up, and nothing else.
fn waits_no_longer<H: Wait + Clock>(
    rt: &H,
    alloc: Global,
    cluster: &mut Small,
    node: &NodeName,
) -> bool {
    let holds = b"spawn\nset_lock a.1 r q all 0\n".as_slice();
    // The client is gone, or has ended its input, and the process is linked. It is told of that process all the same.
    let linked = b"spawn_link\nset_lock self r z all infinity\n".as_slice();
    let exited = b"exit a.2\nexit a.3\nspawn\n".as_slice();
    let text = b"error already_exited\nerror already_exited\na.4\n".as_slice();
    // The client has ended its input, and the process isn't linked: the call waits until the client is gone.
    let unlinked = b"set_lock a.4 r z all infinity\n".as_slice();
    let freed = b"exit a.4\ndel_lock a.1 r q all\nspawn\nset_lock a.5 r z all 0\n".as_slice();
    answers(rt, alloc, cluster, node, Listener, holds, b"a.1\ntrue\n")
        && looks(
            rt,
            alloc,
            cluster,
            node,
            0,
            0,
            linked,
            b"a.2\nerror closed\n",
        )
        && looks(
            rt,
            alloc,
            cluster,
            node,
            u32::MAX,
            0,
            linked,
            b"a.3\nerror closed\n",
        )
        && answers(rt, alloc, cluster, node, Listener, exited, text)
        && looks(rt, alloc, cluster, node, 3, 3, unlinked, b"error closed\n")
        && answers(
            rt,
            alloc,
            cluster,
            node,
            Listener,
            freed,
            b"ok\ntrue\na.5\ntrue\n",
        )
}

impl Talk {
    /// Whether its node leaves.
    pub(crate) fn leaves(self) -> bool {
        matches!(self, Talk::Whole | Talk::Torn(_) | Talk::Full(_))
    }

    /// Has it said at a seat, and keeps what that was told. Whether all was answered as it should be.
    fn is_held<H: Wait + Clock>(
        self,
        rt: &H,
        alloc: Global,
        seat: Seat,
        told: &mut Vec<Transcript>,
    ) -> bool {
        match self {
            Talk::Whole => is_answered(rt, alloc, seat, told),
            Talk::Torn(count) => is_torn(rt, alloc, seat, first_of(LINES, count), told),
            Talk::Full(room) => is_full(rt, alloc, seat, first_of(TEXT, room), told),
            Talk::InTurn | Talk::Waits => false,
        }
    }

    /// Has it said at seats of a node of a cluster, and keeps what they were told. Whether all was answered as it should be.
    pub(crate) fn holds<H: Wait + Clock>(
        self,
        rt: &H,
        alloc: Global,
        cluster: &mut Small,
        node: &NodeName,
        told: &mut Vec<Transcript>,
    ) -> bool {
        match self {
            Talk::InTurn => return holds_twice(rt, alloc, cluster, node),
            Talk::Waits => return waits_no_longer(rt, alloc, cluster, node),
            Talk::Whole | Talk::Torn(_) | Talk::Full(_) => {}
        }
        match cluster.seat(node) {
            Ok(seat) => self.is_held(rt, alloc, seat, told),
            Err(_) => false,
        }
    }
}
