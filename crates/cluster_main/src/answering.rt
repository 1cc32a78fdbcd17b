//! What the program does for its arguments.
ghost use Rattle.std.specs.Prelude.{map, option_map, string_bytes};
ghost use Rattle.std.specs.Io.Buffered.{reader_remaining};
ghost use Rattle.cluster_main.specs.Answering.{Does};

use crate::playing::{play, run};
use crate::refusing::refuse;
use crate::serving::serve;
use arguments::{Mode, read_args};
use std::alloc::Global;
use std::fs::Files;
use std::io::{BufReader, Read, Write};
use std::net::{Net, TcpListener, TcpStream};
use std::sync::Wait;
use std::thread::Threads;
use std::time::Clock;

/// Does what the words ask for, the first of which is the program's name, and gives the status. They are none where an
/// argument is no text.
pub fn answer<H, R, W, E>(
    rt: &H,
    alloc: Global,
    words: Option<&[String]>,
    reader: &mut BufReader<R, Global>,
    writer: &mut W,
    errors: &mut E,
) -> u8
where
    H: Threads + Wait + Clock + Files + Net<Listener = TcpListener, Stream = TcpStream>,
    H: Drop + Copy + Send + Sync + 'static,
    R: Read,
    W: Write,
    E: Write,
    ensures { Does (option_map (λ words. map string_bytes words.now) words.entry)
        (record {
          input = reader_remaining R.remaining reader.old;
          rest = reader_remaining R.remaining reader.new;
          old = W.contents writer.old;
          new = W.contents writer.new;
        })
        (record { old = E.contents errors.old; new = E.contents errors.new }) result }
{
    let Some(words) = words else {
        let _ = writeln!(errors, "error: an argument is no text, or too long");
        return 2;
    };
    match read_args(alloc, words) {
        Ok(Mode::Script) => play(alloc, reader, writer),
        Ok(Mode::Node(options)) => run(alloc, &options, reader, writer),
        Ok(Mode::Serve(options)) => serve(rt, alloc, &options, writer, errors).status(),
        Err(fault) => refuse(&fault, writer, errors),
    }
}
