//! Lines that count towards the most that a console may have.
ghost use Rattle.std.specs.Prelude.{◌≡◌, MatchResult, min};
ghost use Rattle.std.specs.Io.Buffered.{reader_remaining};
ghost use Rattle.std.specs.Io.KnownBytes.{Keeps};
ghost use Rattle.text_lines.specs.Lines.{StopsAtLine, TakesLine};

use std::alloc::Global;
use std::io::{BufReader, Read, Write};
use term::MOST_LINES;
use text_lines::{Line, StreamFault, read_line};

/// For how many lines the next one may count: for no more than those that are left, nor for more than a reader's lines may.
fn most_of_next(left: u64) -> u32
    ensures { result ≡ min left MOST_LINES }
{
    left.min(u64::from(MOST_LINES)) as u32
}

/// The next line of a console, or none at the end of its input. `left` says how many more lines may come. A line that counts for
/// more than a reader's lines may is too much, however many are left.
pub(crate) fn next_line<R: Read, W: Write>(
    room: Vec<u8>,
    reader: &mut BufReader<R, Global>,
    writer: &mut W,
    left: &mut u64,
) -> Result<Option<Line>, StreamFault>
    ensures read { MatchResult result
        (TakesLine (reader_remaining R.remaining reader.old) (reader_remaining R.remaining reader.new)
        left.old left.new)
        (StopsAtLine (reader_remaining R.remaining reader.old) (reader_remaining R.remaining reader.new) (min left.old MOST_LINES)) }
    ensures kept { Keeps (W.contents writer.old) (W.contents writer.new) }
{
    let most = most_of_next(*left);
    let mut unused = most;
    let line = read_line(room, reader, writer, &mut unused)?;
    *left -= u64::from(most - unused);
    Ok(line)
}
