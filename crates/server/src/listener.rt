//! Where consoles come in.
use crate::staying::stream::Stream;
use std::io;
use std::net::TcpListener;
use std::os::fd::AsRawFd;
use std::os::unix::net::UnixListener;

/// Where consoles come in.
#[derive(Debug, Drop)]
pub enum Listener {
    /// An address of TCP.
    Tcp(TcpListener),
    /// A socket of the file system.
    Unix(UnixListener),
}

impl Listener {
    /// Takes a connection.
    pub(crate) fn accept(&self) -> io::Result<Stream> {
        match self {
            Listener::Tcp(listener) => {
                let (stream, _peer) = listener.accept()?;
                Ok(Stream::Tcp(stream))
            }
            Listener::Unix(listener) => {
                let (stream, _peer) = listener.accept()?;
                Ok(Stream::Unix(stream))
            }
        }
    }

    /// Has `accept` fail where it would wait, rather than wait.
    pub(crate) fn take_at_once(&self) -> io::Result<()> {
        match self {
            Listener::Tcp(listener) => listener.set_nonblocking(true),
            Listener::Unix(listener) => listener.set_nonblocking(true),
        }
    }

    /// Its number in the system.
    pub(crate) fn fd(&self) -> i32 {
        match self {
            Listener::Tcp(listener) => listener.as_raw_fd(),
            Listener::Unix(listener) => listener.as_raw_fd(),
        }
    }
}
