//! The program: plays a script of cluster-wide names, serves nodes to consoles over the network, or runs one node by lines.
#![tactic(auto)]

mod answering;
mod cookies;
mod journal;
mod listening;
mod playing;
mod refusing;
mod serving;
mod sockets;
mod words;

use answering::answer;
use std::fs::Files;
use std::io::{self, BufReader, BufWriter, Write};
use std::net::{Net, TcpListener, TcpStream};
use std::process::ExitCode;
use std::rt::Env;
use std::sync::Wait;
use std::thread::Threads;
use std::time::Clock;
use words::read_words;

/// How many bytes are read or written at once: eight times the default, so that a long script makes an eighth of the system calls.
const BUFFER_SIZE: usize = 64 * 1024;

/// Reads the arguments and does what they ask for, and gives the status.
fn run<H, E>(rt: &H, errors: &mut E) -> io::Result<u8>
where
    H: Env + Files + Input + Print + AllocGlobal + Threads + Wait + Clock,
    H: Net<Listener = TcpListener, Stream = TcpStream> + Drop + Copy + Send + Sync + 'static,
    E: Write,
{
    let words = read_words(rt.alloc(), rt)?;
    let mut reader = BufReader::with_capacity(rt.alloc(), BUFFER_SIZE, rt.reader())?;
    let mut writer = BufWriter::with_capacity(rt.alloc(), BUFFER_SIZE, io::writer(rt))?;
    Ok(answer(
        rt,
        rt.alloc(),
        words.as_deref(),
        &mut reader,
        &mut writer,
        errors,
    ))
}

fn main(rt: HostRuntime) -> ExitCode {
    ExitCode::from(run(&rt, &mut rt.stderr()).unwrap_or(1))
}
