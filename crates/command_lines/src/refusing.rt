//! The lines of refusals.
ghost use Rattle.std.specs.Prelude.{◌≡◌, IfOk, string_bytes};
ghost use Rattle.text_lines.specs.Writing.{Writes};
ghost use Rattle.command_lines.specs.Printing.{error_line};

use std::alloc::{AllocError, Global};
use std::io::Write;
use text_lines::{WriteFault, write_line};

/// The line of a refusal by this word. Memory is asked for once.
pub fn refusal_line(alloc: Global, word: &str) -> Result<String, AllocError>
    ensures { IfOk result (λ line. string_bytes line ≡ error_line word.now) }
{
    let mut line = String::with_capacity(alloc, word.len().saturating_add("error \n".len()))?;
    line.push_str("error ")?;
    line.push_str(word)?;
    line.push('\n')?;
    Ok(line)
}

/// Writes the line of a refusal by this word. It takes no memory. After a fault a part of it was written.
pub fn write_refusal<W: Write>(writer: &mut W, word: &str) -> Result<(), WriteFault>
    ensures { Writes (W.contents writer.old) (W.contents writer.new) result (error_line word.now) }
{
    write_line(writer, "error ", word)
}
