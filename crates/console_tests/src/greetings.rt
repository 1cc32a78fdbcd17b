//! First lines, with a cookie and without one, and seats that are refused.
use crate::ends::{Ended, ended_by};
use crate::faults::are_lines_of;
use console::{ConsoleFault, Cookie, greet, refuse_seat};
use failing_streams::{Full, Torn};
use server::SeatFault;
use std::alloc::Global;
use std::io::{BufReader, Cursor, Read, Write};
use std::time::Clock;
use term::{NodeName, NodeNames, NodeSet, parse_nodes};

/// A first line.
const LINE: &[u8] = b"attach b\n";

/// One that shows a cookie, and the cookie.
const COOKIE_LINE: &[u8] = b"attach b 0123456789abcdef\n";

const COOKIE: &str = "0123456789abcdef";

/// The node of `a` and `b` to which the first line of a reader attaches a console.
fn greeted<C: Clock, R: Read, W: Write>(
    rt: &C,
    alloc: Global,
    reader: &mut BufReader<R, Global>,
    writer: &mut W,
    cookie: Option<&Cookie>,
) -> Result<Option<NodeName>, ConsoleFault> {
    let nodes = NodeSet::first_of(&parse_nodes("a,b").unwrap_or(NodeNames::empty()));
    greet(rt, alloc, reader, writer, &nodes, cookie)
}

/// Whether the first of these lines attaches a console to `b`, and the rest isn't read.
fn attaches<C: Clock>(
    rt: &C,
    alloc: Global,
    lines: &[u8],
    rest: &[u8],
    cookie: Option<&Cookie>,
) -> bool {
    let mut written = Vec::new(alloc);
    match BufReader::new(alloc, Cursor::new(lines)) {
        Ok(mut reader) => {
            let is_attached = match greeted(rt, alloc, &mut reader, &mut written, cookie) {
                Ok(Some(node)) => node.as_str() == "b",
                _ => false,
            };
            is_attached && written.as_slice() == b"ok\n".as_slice() && reader.buffer() == rest
        }
        Err(_) => false,
    }
}

/// Whether a reader's failure behind these bytes ends a console that wasn't answered.
fn reader_ends_it<C: Clock>(rt: &C, alloc: Global, read: &[u8], cookie: Option<&Cookie>) -> bool {
    let mut written = Vec::new(alloc);
    match BufReader::new(alloc, Torn::new(read, 3)) {
        Ok(mut reader) => match greeted(rt, alloc, &mut reader, &mut written, cookie) {
            Ok(_) => false,
            Err(fault) => ended_by(&fault) == Ended::Read && written.is_empty(),
        },
        Err(_) => false,
    }
}

/// Whether a writer that has room for these bytes alone ends a console with this first line.
fn writer_ends_it<C: Clock>(
    rt: &C,
    alloc: Global,
    line: &[u8],
    text: &[u8],
    cookie: Option<&Cookie>,
) -> bool {
    let mut writer = Full::new(Vec::new(alloc), text.len(), true);
    match BufReader::new(alloc, Cursor::new(line)) {
        Ok(mut reader) => match greeted(rt, alloc, &mut reader, &mut writer, cookie) {
            Ok(_) => false,
            Err(fault) => ended_by(&fault) == Ended::Write && writer.taken.as_slice() == text,
        },
        Err(_) => false,
    }
}

#[test]
fn first_lines_attach(rt: HostRuntime) {
    let cookie = Cookie::new(COOKIE);
    assert!(rt; attaches(&rt, rt.alloc(), b"attach b\nspawn\n", b"spawn\n", None));
    assert!(rt; attaches(&rt, rt.alloc(), COOKIE_LINE, b"", cookie.as_ref()));
}

#[test]
fn first_lines_that_tear_are_faults(rt: HostRuntime) {
    for count in 0..LINE.len() {
        assert!(rt; reader_ends_it(&rt, rt.alloc(), &LINE[..count], None));
    }
    for text in [b"".as_slice(), b"o".as_slice(), b"ok".as_slice()] {
        assert!(rt; writer_ends_it(&rt, rt.alloc(), LINE, text, None));
    }
}

#[test]
fn cookies_that_tear_are_faults(rt: HostRuntime) {
    let cookie = Cookie::new(COOKIE);
    for count in 0..COOKIE_LINE.len() {
        assert!(rt; reader_ends_it(&rt, rt.alloc(), &COOKIE_LINE[..count], cookie.as_ref()));
    }
    assert!(rt; writer_ends_it(&rt, rt.alloc(), LINE, b"error not", cookie.as_ref()));
}

/// Whether these seats are refused by the words for it.
fn are_refused(alloc: Global) -> bool {
    let mut written = Vec::new(alloc);
    refuse_seat(&mut written, &SeatFault::SeatsSpent).is_ok()
        && refuse_seat(&mut written, &SeatFault::Memory).is_ok()
        && are_lines_of(b"error seats_spent\nerror memory\n", 2, written.as_slice())
}

#[test]
fn seats_that_are_refused_are_told(rt: HostRuntime) {
    assert!(rt; are_refused(rt.alloc()));
}
