//! Reading on past empty lines.
ghost use Rattle.std.specs.Prelude.{◌≤◌, MatchResult};
ghost use Rattle.std.specs.Io.KnownBytes.{Keeps};
ghost use Rattle.std.specs.Io.Buffered.{reader_remaining};
ghost use Rattle.term.specs.declared.limits.TheConstants.{MOST_LINES};
ghost use Rattle.cluster_script.specs.Played.{ReadsOn, StopsReading};

use std::alloc::Global;
use std::io::{BufReader, Read, Write};
use text_lines::{Line, StreamFault, is_blank, read_line};

/// Reads on to the next line that isn't empty. `left` says how many more lines may come. What was written is handed on
/// before the reader waits. The line is kept in the memory of `room`.
pub(crate) fn next_line<R: Read, W: Write>(
    alloc: Global,
    mut room: Vec<u8>,
    reader: &mut BufReader<R, Global>,
    writer: &mut W,
    left: &mut u32,
) -> Result<Option<Line>, StreamFault>
    requires { left.old ≤ MOST_LINES }
    ensures read { MatchResult result
        (ReadsOn (reader_remaining R.remaining reader.old) (reader_remaining R.remaining reader.new) left.old left.new)
        (StopsReading (reader_remaining R.remaining reader.old) (reader_remaining R.remaining reader.new) left.old) }
    ensures kept { Keeps (W.contents writer.old) (W.contents writer.new) }
{
    loop {
        let Some(line) = read_line(room, reader, writer, left)? else {
            return Ok(None);
        };
        if !is_blank(&line) {
            return Ok(Some(line));
        }
        room = line.into_room(alloc);
    }
}
