//! The names that begin with a text.
ghost use Rattle.std.specs.Prelude.{◌≡◌, ◌++◌, IfOk, OnOk, string_bytes};
ghost use Rattle.command_lines.specs.Printing.{ended, names_text};
ghost use Rattle.console.specs.Chosen.{begins_with as starts_so, chosen_text, name_if, names_from};

use crate::outcomes::outcome_line;
use command_lines::Reply;
use node_seats::SeatFault;
use std::alloc::{AllocError, Global};
use term::{Name, Node};

/// Whether a name begins with another one, byte by byte.
fn begins_with(name: &Name, prefix: &Name) -> bool
    ensures { result ≡ starts_so prefix.now name.now }
{
    let prefix = prefix.as_str().as_bytes();
    name.as_str().as_bytes().starts_with(prefix)
}

/// Puts a blank and a name behind a text, if it begins so.
fn push_if(text: &mut String, name: &Name, prefix: &Name) -> Result<(), AllocError>
    ensures { OnOk result (string_bytes text.new ≡ string_bytes text.old ++ name_if prefix.now name.now) }
{
    if begins_with(name, prefix) {
        text.push(' ')?;
        text.push_str(name.as_str())?;
    }
    Ok(())
}

/// The line of those names that begin so, in their order.
fn names_line(alloc: Global, names: &[Name], prefix: &Name) -> Result<String, AllocError>
    ensures { IfOk result (λ line. string_bytes line ≡ ended (names_text (names_from prefix.now names.now))) }
{
    let mut line = String::from_str(alloc, "names")?;
    for name in names {
        push_if(&mut line, name, prefix)?;
    }
    line.push('\n')?;
    Ok(line)
}

/// The line of a look-up of all names, of which those are wanted that begin so; or of a refusal.
pub(crate) fn chosen_line(
    alloc: Global,
    node: &Node,
    prefix: &Name,
    outcome: Result<Reply, SeatFault>,
) -> Result<String, AllocError>
    ensures { IfOk result (λ line. string_bytes line ≡ chosen_text prefix.now outcome) }
{
    match outcome {
        Ok(Reply::Names(names)) => names_line(alloc, names.as_slice(), prefix),
        outcome => outcome_line(alloc, node, outcome),
    }
}
