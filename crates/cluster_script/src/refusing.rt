//! What is written where memory is refused for a line.
ghost use Rattle.std.specs.Prelude.{◌≡◌, IfOk, false};
ghost use Rattle.command_lines.specs.Printing.{error_line, word_of};
ghost use Rattle.command_lines.specs.declared.faults.LineFault.TheVariants.{Memory};
ghost use Rattle.text_lines.specs.Writing.{Writes};

use command_lines::{LineFault, write_refusal};
use std::io::Write;
use text_lines::WriteFault;

/// Writes that memory was refused for a line. That is a refusal.
pub(crate) fn refuse_memory<W: Write>(writer: &mut W) -> Result<bool, WriteFault>
    ensures text { Writes (W.contents writer.old) (W.contents writer.new) result (error_line (word_of Memory)) }
    ensures fine { IfOk result (λ fine. fine ≡ false) }
{
    write_refusal(writer, LineFault::Memory.word())?;
    Ok(false)
}
