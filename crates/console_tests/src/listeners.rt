//! A cluster that is served to nobody: writers that fail, and a listener that gives no console.
use server::{ServeFault, run_serve};
use std::alloc::Global;
use std::io::{self, Error, ErrorKind, Write};
use std::net::{Net, TcpListener, TcpStream};
use std::slice;
use std::sync::Wait;
use std::thread::Threads;
use std::time::Clock;
use term::parse_node_name;

/// A writer that takes a part of a line, and then fails.
#[derive(Drop)]
struct Shut {
    room: usize,
}

impl Write for Shut {
    fn write(&mut self, buf: &[u8]) -> io::Result<usize> {
        if self.room == 0 {
            return Err(Error::from(ErrorKind::BrokenPipe));
        }
        let count = buf.len().min(self.room);
        self.room -= count;
        Ok(count)
    }

    fn flush(&mut self) -> io::Result<()> {
        Err(Error::from(ErrorKind::BrokenPipe))
    }
}

/// A listener to whom nobody comes: an `accept` that would wait fails.
fn listen<R>(rt: &R) -> Option<TcpListener>
where
    R: Net<Listener = TcpListener, Stream = TcpStream>,
{
    match TcpListener::bind(rt, "127.0.0.1:0") {
        Ok(listener) => match listener.set_nonblocking(true) {
            Ok(()) => Some(listener),
            Err(_) => None,
        },
        Err(_) => None,
    }
}

/// What it comes to that a cluster of the node `a` is to be served to so many consoles.
fn serve<R, W>(
    rt: &R,
    alloc: Global,
    consoles: u32,
    writer: &mut W,
) -> Option<Result<bool, ServeFault>>
where
    R: Threads
        + Wait
        + Clock
        + Net<Listener = TcpListener, Stream = TcpStream>
        + Drop
        + Copy
        + Send
        + Sync
        + 'static,
    W: Write,
{
    match (listen(rt), parse_node_name("a")) {
        (Some(listener), Ok(node)) => {
            let nodes = slice::from_ref(&node);
            Some(run_serve(rt, alloc, listener, nodes, &[], consoles, writer))
        }
        _ => None,
    }
}

#[test]
fn a_writer_fails(rt: HostRuntime) {
    // Without room, with room for a part of the line, and with room for it but no flush.
    for room in [0, 3, 100] {
        let mut writer = Shut { room };
        assert!(rt; serve(&rt, rt.alloc(), 0, &mut writer) == Some(Err(ServeFault::Write)));
    }
}

/// Whether it comes to this, and this is written.
fn ends<R>(
    rt: &R,
    alloc: Global,
    consoles: u32,
    wanted: Result<bool, ServeFault>,
    text: &[u8],
) -> bool
where
    R: Threads
        + Wait
        + Clock
        + Net<Listener = TcpListener, Stream = TcpStream>
        + Drop
        + Copy
        + Send
        + Sync
        + 'static,
{
    let mut written = Vec::new(alloc);
    serve(rt, alloc, consoles, &mut written) == Some(wanted) && written.as_slice() == text
}

#[test]
fn no_console_can_be_taken(rt: HostRuntime) {
    assert!(rt; ends(&rt, rt.alloc(), 2, Err(ServeFault::Accept), b""));
}

#[test]
fn no_console_is_taken(rt: HostRuntime) {
    assert!(rt; ends(&rt, rt.alloc(), 0, Ok(true), b"closed 0\n"));
}
