//! What a server that stays tells of what happens.
ghost use Rattle.std.specs.Prelude.{◌≡◌, ◌++◌, IfOk, OnOk, string_bytes};
ghost use Rattle.console.specs.Printing.{ended};
ghost use Rattle.server.specs.Notes.{asks_for_the_end, note_if, note_text, parting_of, parting_word};
ghost use Rattle.server.specs.declared.staying.notes.Supply.TheVariants.{Calls, Serials};

use crate::staying::lookout::Spent;
use console::{ConsoleEnd, ConsoleFault};
use std::alloc::{AllocError, Global};
use std::fmt::Write as _;
use std::io::Write;
use term::{Node, NodeName};
use text_lines::tell;

/// How a console ended that was attached to a node.
#[derive(Drop)]
pub(crate) enum Parting {
    /// By the line `quit`.
    Quit,
    /// Its input ended.
    Input,
    /// By the line `shutdown`.
    Shutdown,
    /// A line couldn't be read.
    Read,
    /// An answer couldn't be written.
    Write,
    /// It had too many lines.
    Lines,
    /// Memory was refused.
    Memory,
}

/// Of what a node gives numbers of 32 bits.
#[derive(Drop)]
pub(crate) enum Supply {
    /// Of its calls.
    Calls,
    /// Of the serials of its processes.
    Serials,
}

/// What happens at a server.
#[derive(Drop)]
pub(crate) enum Note {
    /// A console was taken: its number.
    Taken(u64),
    /// A console that was attached has ended: its number, the name of its node and how.
    Parted(u64, NodeName, Parting),
    /// A console was attached to no node: its number.
    NotAttached(u64),
    /// There was no place for a connection that came, or for the console that its first line was to attach.
    TooMany,
    /// A connection couldn't be taken.
    AcceptFailed,
    /// The descriptors that are left serve for so many consoles, and so many were to be served.
    FewDescriptors(u64, u32),
    /// Nine tenths of these numbers of a node are given.
    Spent(Supply, Node),
}

impl Parting {
    /// That of a console that was served.
    pub(crate) fn of(ended: &Result<ConsoleEnd, ConsoleFault>) -> Self
        ensures { result ≡ parting_of ended.now }
    {
        match ended {
            Ok(ConsoleEnd::Quit) => Parting::Quit,
            Ok(ConsoleEnd::Input) => Parting::Input,
            Ok(ConsoleEnd::Shutdown) => Parting::Shutdown,
            Err(ConsoleFault::Read) => Parting::Read,
            Err(ConsoleFault::Write) => Parting::Write,
            Err(ConsoleFault::TooManyLines) => Parting::Lines,
            Err(ConsoleFault::Memory) => Parting::Memory,
        }
    }

    /// Whether the console asked for the end of the server.
    pub(crate) fn asks_for_the_end(&self) -> bool
        ensures { result ≡ asks_for_the_end self.now }
    {
        matches!(self, Parting::Shutdown)
    }

    /// Its word.
    fn word(&self) -> &'static str
        ensures { result.now ≡ parting_word self.now }
    {
        match self {
            Parting::Quit => "quit",
            Parting::Input => "input",
            Parting::Shutdown => "shutdown",
            Parting::Read => "read",
            Parting::Write => "write",
            Parting::Lines => "lines",
            Parting::Memory => "memory",
        }
    }
}

/// What is told of these numbers of a node, where they are nearly spent.
fn spent_note(spent: bool, supply: Supply, node: &Node) -> Option<Note>
    ensures { result ≡ note_if spent supply node.now }
{
    if spent {
        Some(Note::Spent(supply, node.copy()))
    } else {
        None
    }
}

/// What is told of a node whose numbers are nearly spent: of its calls, and of its serials.
pub(crate) fn spent_notes(node: &Node, spent: Spent) -> (Option<Note>, Option<Note>)
    ensures calls { result.0 ≡ note_if spent.calls Calls node.now }
    ensures serials { result.1 ≡ note_if spent.serials Serials node.now }
{
    let calls = spent_note(spent.calls, Supply::Calls, node);
    let serials = spent_note(spent.serials, Supply::Serials, node);
    (calls, serials)
}

/// Puts what is told behind a text.
fn push_note(text: &mut String, note: &Note) -> Result<(), AllocError>
    ensures { OnOk result (string_bytes text.new ≡ string_bytes text.old ++ note_text note.now) }
{
    match note {
        Note::Taken(console) => write!(text, "console {console} taken"),
        Note::Parted(console, node, parting) => {
            write!(text, "console {console} {node} ended {}", parting.word())
        }
        Note::NotAttached(console) => write!(text, "console {console} not_attached"),
        Note::TooMany => text.push_str("too_many_consoles"),
        Note::AcceptFailed => text.push_str("accept failed"),
        Note::FewDescriptors(served, wanted) => {
            write!(text, "descriptors for {served} of {wanted} consoles")
        }
        Note::Spent(Supply::Calls, node) => write!(text, "calls of {node}: 90 % spent"),
        Note::Spent(Supply::Serials, node) => write!(text, "serials of {node}: 90 % spent"),
    }
}

/// The line on which it is told.
fn note_line(alloc: Global, note: &Note) -> Result<String, AllocError>
    ensures { IfOk result (λ line. string_bytes line ≡ ended (note_text note.now)) }
{
    let mut line = String::new(alloc);
    push_note(&mut line, note)?;
    line.push('\n')?;
    Ok(line)
}

/// Tells what happened. A fault of the writer changes nothing.
pub(crate) fn tell_note<E: Write>(alloc: Global, errors: &mut E, note: &Note) {
    if let Ok(line) = note_line(alloc, note) {
        let _ = tell(errors, line.as_bytes());
    }
}
