//! What the program does for words that ask for nothing that it could do.
ghost use Rattle.std.specs.Prelude.{◌≡◌, ◌≢◌, ◌⊎◌, MatchResult, string_bytes};
ghost use Rattle.std.specs.Io.KnownBytes.{Keeps};
ghost use Rattle.clap.specs.Values.{kind_of};
ghost use Rattle.text_lines.specs.Writing.{AppendsPart};
ghost use Rattle.cluster_main.specs.Refusing.{IsRefused, refusal, status_for};

use arguments::ArgFault;
use clap::Error;
use clap::error::ErrorKind;
use std::alloc::{AllocError, Global};
use std::io::Write;
use text_lines::{write_line, write_text};

/// Shows help or the version, or tells of an error, and gives the status: also where that can't be told.
fn show<W: Write, E: Write>(error: &Error, writer: &mut W, errors: &mut E) -> u8
    ensures status { (result ≡ status_for (kind_of error.now)) ⊎ ((status_for (kind_of error.now) ≡ 0) × (result ≡ 1)) }
    ensures unprinted { status_for (kind_of error.now) ≢ 0 → Keeps (W.contents writer.old) (W.contents writer.new) }
{
    match error.kind() {
        ErrorKind::DisplayHelp | ErrorKind::DisplayVersion => {
            if write!(writer, "{error}").is_err() || writer.flush().is_err() {
                1
            } else {
                0
            }
        }
        kind => {
            let _ = write!(errors, "{error}");
            if kind == ErrorKind::OutOfMemory { 1 } else { 2 }
        }
    }
}

/// Tells why the words are not taken, and gives the status: also where that can't be told.
pub(crate) fn refuse<W: Write, E: Write>(fault: &ArgFault, writer: &mut W, errors: &mut E) -> u8
    ensures { IsRefused fault.now (W.contents writer.old) (W.contents writer.new)
        (E.contents errors.old) (E.contents errors.new) result }
{
    if let ArgFault::Words(error) = fault {
        return show(error, writer, errors);
    }
    if let ArgFault::Options(fault) = fault {
        let _ = write_line(errors, "error: ", fault.text());
        return 2;
    }
    if let Some(word) = fault.word() {
        let _ = write_line(errors, "error ", word);
    }
    2
}

/// Tells why the value of an option is refused, where there is memory for these words and the line.
pub(crate) fn refuse_value<E: Write>(
    alloc: Global,
    option: &str,
    value: &str,
    words: Result<String, AllocError>,
    errors: &mut E,
)
    ensures { MatchResult words
        (λ text. AppendsPart (E.contents errors.old) (E.contents errors.new) (refusal option.now value.now (string_bytes text)))
        (λ _. Keeps (E.contents errors.old) (E.contents errors.new)) }
{
    let Ok(words) = words else {
        return;
    };
    if let Ok(line) = format!(in alloc; "error: {option} {value}: {words}\n") {
        let _ = write_text(errors, line.as_bytes());
    }
}
