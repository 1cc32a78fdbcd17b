//! The connection of a console.
ghost use Rattle.std.specs.Prelude.{◌≡◌, IfOk};
ghost use Rattle.std.specs.Counts.{IsPrefixLen};
ghost use Rattle.std.specs.Int.{w16, cast_unsigned};
ghost use Rattle.server.specs.Streams.{peer_of};

use console::{Client, Peer};
use libc::net::{POLLERR, POLLHUP, POLLNVAL, POLLRDHUP, poll};
use libc::types::pollfd;
use std::io;
use std::io::{Read, Write};
use std::net::{Shutdown, TcpStream};
use std::os::fd::AsRawFd;
use std::os::unix::net::UnixStream;
use std::time::Duration;

/// A connection: over TCP, or by a socket of the file system.
#[derive(Drop)]
pub(crate) enum Stream {
    Tcp(TcpStream),
    Unix(UnixStream),
}

impl Stream {
    /// Has each answer sent at once, also where the one before isn't acknowledged yet. A socket of the file system does so anyway.
    pub(crate) fn send_at_once(&self) -> io::Result<()> {
        match self {
            Stream::Tcp(stream) => stream.set_nodelay(true),
            Stream::Unix(_) => Ok(()),
        }
    }

    /// For how long a read waits: longer ones fail.
    pub(crate) fn set_read_timeout(&self, wait: Option<Duration>) -> io::Result<()> {
        match self {
            Stream::Tcp(stream) => stream.set_read_timeout(wait),
            Stream::Unix(stream) => stream.set_read_timeout(wait),
        }
    }

    /// For how long a write waits: longer ones fail.
    pub(crate) fn set_write_timeout(&self, wait: Option<Duration>) -> io::Result<()> {
        match self {
            Stream::Tcp(stream) => stream.set_write_timeout(wait),
            Stream::Unix(stream) => stream.set_write_timeout(wait),
        }
    }

    /// Ends it in one or both directions.
    pub(crate) fn shutdown(&self, how: Shutdown) -> io::Result<()> {
        match self {
            Stream::Tcp(stream) => stream.shutdown(how),
            Stream::Unix(stream) => stream.shutdown(how),
        }
    }

    /// Its number in the system.
    fn fd(&self) -> i32 {
        match self {
            Stream::Tcp(stream) => stream.as_raw_fd(),
            Stream::Unix(stream) => stream.as_raw_fd(),
        }
    }

    /// Reads what has come, or waits for it.
    pub(crate) fn receive(&self, buf: &mut [u8]) -> io::Result<usize>
        ensures { IfOk result (λ count. IsPrefixLen count buf.new) }
    {
        match self {
            Stream::Tcp(stream) => {
                let mut socket = stream;
                socket.read(buf)
            }
            Stream::Unix(stream) => {
                let mut socket = stream;
                socket.read(buf)
            }
        }
    }

    /// Sends some of this.
    fn send(&self, buf: &[u8]) -> io::Result<usize>
        ensures { IfOk result (λ count. IsPrefixLen count buf.now) }
    {
        match self {
            Stream::Tcp(stream) => {
                let mut socket = stream;
                socket.write(buf)
            }
            Stream::Unix(stream) => {
                let mut socket = stream;
                socket.write(buf)
            }
        }
    }
}

impl Read for &Stream {
    fn read(&mut self, buf: &mut [u8]) -> io::Result<usize> {
        self.receive(buf)
    }
}

impl Write for &Stream {
    fn write(&mut self, buf: &[u8]) -> io::Result<usize> {
        self.send(buf)
    }

    fn flush(&mut self) -> io::Result<()> {
        Ok(())
    }
}

/// What the system tells of a connection, by the events that it reports.
fn peer_by(events: i16) -> Peer
    ensures { result ≡ peer_of (cast_unsigned w16 events) }
{
    if events & (POLLERR | POLLHUP | POLLNVAL) != 0 {
        Peer::Gone
    } else if events & POLLRDHUP != 0 {
        Peer::InputEnded
    } else {
        Peer::Listens
    }
}

/// The client at the other end. Over TCP one that is gone looks like one that ended its input, until something is written to it.
impl Client for &Stream {
    fn peer(&self) -> Peer {
        let mut asked = [pollfd {
            fd: self.fd(),
            events: POLLRDHUP,
            revents: 0,
        }];
        if poll(&mut asked, 0) <= 0 {
            return Peer::Listens;
        }
        peer_by(asked[0].revents)
    }
}
