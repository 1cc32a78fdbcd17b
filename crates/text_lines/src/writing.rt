//! Texts that are written.
ghost use Rattle.std.specs.Prelude.{◌≤◌, ◌≡◌, ◌++◌, ◌∷◌, [], MatchResult, IfErr, length, take};
ghost use Rattle.std.specs.Io.KnownBytes.{Appends, Keeps};
ghost use Rattle.text_lines.specs.Writing.{Writes};
ghost use Rattle.text_lines.specs.declared.faults.WriteFault.TheVariants.{Writer};

use crate::faults::WriteFault;
use std::io::{ErrorKind, Write};

/// Writes some bytes of a text that isn't empty, and says how many: none where the writer was interrupted.
fn write_some<W: Write>(writer: &mut W, text: &[u8]) -> Result<usize, WriteFault>
    ensures { MatchResult result (λ n. (n ≤ length text.now) × Appends (W.contents writer.old) (W.contents writer.new) (take n text.now))
        (λ _. Keeps (W.contents writer.old) (W.contents writer.new)) }
{
    match writer.write(text) {
        Ok(0) => Err(WriteFault::Writer),
        Ok(count) => Ok(count),
        Err(e) => {
            if e.kind() == ErrorKind::Interrupted {
                Ok(0)
            } else {
                Err(WriteFault::Writer)
            }
        }
    }
}

/// Writes a text. After a fault a part of it was written.
pub fn write_text<W: Write>(writer: &mut W, text: &[u8]) -> Result<(), WriteFault>
    ensures { Writes (W.contents writer.old) (W.contents writer.new) result text.now }
{
    let mut rest = text;
    for _ in 0..u64::MAX {
        if rest.is_empty() {
            return Ok(());
        }
        let count = write_some(writer, rest)?;
        rest = &rest[count..];
    }
    Err(WriteFault::Writer)
}

/// Writes a line of two texts. After a fault a part of it was written.
pub fn write_line<W: Write>(writer: &mut W, first: &str, second: &str) -> Result<(), WriteFault>
    ensures { Writes (W.contents writer.old) (W.contents writer.new) result ((first.now ++ second.now) ++ 10 ∷ []) }
{
    write_text(writer, first.as_bytes())?;
    write_text(writer, second.as_bytes())?;
    write_text(writer, b"\n")
}

/// Hands on what was written.
pub fn hand_on<W: Write>(writer: &mut W) -> Result<(), WriteFault>
    ensures fault { IfErr result (λ f. f ≡ Writer) }
    ensures kept { Keeps (W.contents writer.old) (W.contents writer.new) }
{
    match writer.flush() {
        Ok(()) => Ok(()),
        Err(_) => Err(WriteFault::Writer),
    }
}

/// Writes a text, and hands it on at once: what comes next may wait for long. After a fault a part of it was written.
pub fn tell<W: Write>(writer: &mut W, text: &[u8]) -> Result<(), WriteFault>
    ensures { Writes (W.contents writer.old) (W.contents writer.new) result text.now }
{
    write_text(writer, text)?;
    hand_on(writer)
}
