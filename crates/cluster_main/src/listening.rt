//! Where the program listens, and the line that tells of it.
ghost use Rattle.std.specs.Prelude.{◌≡◌, IfOk, MatchResult, string_bytes};
ghost use Rattle.cluster_main.specs.Listening.{EntersAt, HasPort, IsListeningLine, IsPortOf, RefusesAddress, TellsAddress, listening_line as line_for};

use crate::sockets::{ListenFault, bind_private};
use arguments::ServeOptions;
use server::Listener;
use std::alloc::{AllocError, Global};
use std::fs::Files;
use std::net::{Net, TcpListener, TcpStream};

/// Listens at the address: at a socket where it names one, and else at one of the network.
pub(crate) fn listen<H>(
    rt: &H,
    alloc: Global,
    options: &ServeOptions,
) -> Result<Listener, ListenFault>
where
    H: Files + Net<Listener = TcpListener, Stream = TcpStream>,
    ensures { MatchResult result (EntersAt (string_bytes options.now.listen)) (RefusesAddress (string_bytes options.now.listen)) }
{
    match options.socket() {
        Some(path) => Ok(Listener::Unix(bind_private(rt, alloc, path)?)),
        None => Ok(Listener::Tcp(TcpListener::bind(rt, options.listen.as_str())?)),
    }
}

/// The port that the listener at an entry tells, if it tells one.
fn port_of(entry: &Listener) -> Option<u16>
    ensures { IsPortOf entry.now result }
{
    match entry {
        Listener::Tcp(listener) => Some(listener.local_addr().ok()?.port()),
        Listener::Unix(_) => None,
    }
}

/// An address with this port, where it was written as `HOST:0`; else as it was written.
fn with_port(alloc: Global, written: &str, port: u16) -> Result<String, AllocError>
    ensures { IfOk result (λ address. HasPort written.now port (string_bytes address)) }
{
    match written.strip_suffix(":0") {
        Some(host) => format!(in alloc; "{host}:{port}"),
        None => String::from_str(alloc, written),
    }
}

/// The address that is told for the one that was written, where the listener tells this port, or none.
fn told_address(alloc: Global, written: &str, port: Option<u16>) -> Result<String, AllocError>
    ensures { IfOk result (λ address. TellsAddress written.now port (string_bytes address)) }
{
    match port {
        Some(port) => with_port(alloc, written, port),
        None => String::from_str(alloc, written),
    }
}

/// The line that tells an address.
fn line_of(alloc: Global, address: &str) -> Result<String, AllocError>
    ensures { IfOk result (λ line. string_bytes line ≡ line_for address.now) }
{
    format!(in alloc; "listening {address}\n")
}

/// The line that tells where the program listens: at the address that was written. Where that leaves the port to the system, as
/// `HOST:0`, it is told with the port that the listener has, unless that isn't known.
pub(crate) fn listening_line(
    alloc: Global,
    entry: &Listener,
    written: &str,
) -> Result<String, AllocError>
    requires { EntersAt written.now entry.now }
    ensures { IfOk result (λ line. IsListeningLine written.now (string_bytes line)) }
{
    let address = told_address(alloc, written, port_of(entry))?;
    line_of(alloc, address.as_str())
}
