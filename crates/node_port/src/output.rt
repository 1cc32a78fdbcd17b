//! What is printed for one line.
ghost use Rattle.std.specs.Prelude.{◌++◌, OnOk, string_bytes};
ghost use Rattle.text_lines.specs.Writing.{Writes};
ghost use Rattle.node_port.specs.Working.{IsEmpty};

use std::alloc::Global;
use std::io::Write;
use text_lines::{WriteFault, write_text};

/// What is to be printed for a line, but for letters: what changed, and what is answered.
#[derive(Drop)]
pub(crate) struct Output {
    pub(crate) changes: String,
    pub(crate) answers: String,
}

impl Output {
    /// Nothing. It takes no memory.
    pub(crate) fn new(alloc: Global) -> Self
        ensures { IsEmpty result }
    {
        Output {
            changes: String::new(alloc),
            answers: String::new(alloc),
        }
    }

    /// Writes all, with these orders and these lines of letters: changes first, then what letters order, letters, and answers. So a name is
    /// shown before anybody hears that it is. After a fault a part was written.
    fn write<W: Write>(&self, orders: &str, lines: &str, writer: &mut W) -> Result<(), WriteFault>
        ensures { Writes (W.contents writer.old) (W.contents writer.new) result
            (string_bytes self.now.changes ++ (orders.now ++ (lines.now ++ string_bytes self.now.answers))) }
    {
        write_text(writer, self.changes.as_bytes())?;
        write_text(writer, orders.as_bytes())?;
        write_text(writer, lines.as_bytes())?;
        write_text(writer, self.answers.as_bytes())
    }

    /// Nothing is to be printed any more.
    fn clear(&mut self)
        ensures { IsEmpty self.new }
    {
        self.changes.clear();
        self.answers.clear();
    }

    /// Writes all, with these orders and these lines of letters, and nothing is to be printed any more then.
    pub(crate) fn write_out<W: Write>(
        &mut self,
        orders: &str,
        lines: &str,
        writer: &mut W,
    ) -> Result<(), WriteFault>
        ensures written { Writes (W.contents writer.old) (W.contents writer.new) result
            (string_bytes self.old.changes ++ (orders.now ++ (lines.now ++ string_bytes self.old.answers))) }
        ensures empty { OnOk result (IsEmpty self.new) }
    {
        self.write(orders, lines, writer)?;
        self.clear();
        Ok(())
    }
}
