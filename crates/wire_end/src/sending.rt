//! The lines of a letter.
ghost use Rattle.std.specs.Prelude.{◌≡◌, ◌+◌, ◌++◌, length, IfOk, OnOk, string_bytes};
ghost use Rattle.letter_lines.specs.Laws.{IsLetter};
ghost use Rattle.letter_lines.specs.Parts.{parts_of as parts_in};
ghost use Rattle.wire_end.specs.Sending.{letter_text, line_of};

use letter_lines::{Part, parts_are_exact, parts_of, print_part};
use node_loop::Stamped;
use std::alloc::{AllocError, Global};
use std::fmt::Write as _;
use term::Node;

/// Puts behind a text the line of a part of a letter to this node.
fn push_line(
    text: &mut String,
    alloc: Global,
    to: &Node,
    number: u64,
    stamp: u64,
    part: &Part,
) -> Result<(), AllocError>
    ensures { OnOk result (string_bytes text.new ≡ string_bytes text.old ++ line_of to.now number stamp part.now) }
{
    // A part is read from its one text alone.
    parts_are_exact();
    let part = print_part(alloc, part)?;
    writeln!(text, "send {to} {number} {stamp} {part}")
}

/// The lines of a letter to this node, and the number of the last: one for each of its parts, with the numbers behind this one, and the
/// stamp of the step that sends it. It fails where memory is refused, and where no number is left.
pub(crate) fn send_lines(
    alloc: Global,
    to: &Node,
    written: u64,
    stamped: &Stamped,
) -> Result<(String, u64), AllocError>
    ensures text { IfOk result (λ r. string_bytes r.0 ≡ letter_text to.now written stamped.now) }
    ensures count { IfOk result (λ r. r.1 ≡ written + length (parts_in stamped.now.letter)) }
    ensures letter { OnOk result (IsLetter stamped.now.letter) }
{
    let parts = parts_of(alloc, &stamped.letter)?;
    let mut text = String::new(alloc);
    let mut number = written;
    for part in parts.as_slice() {
        number = number.checked_add(1).ok_or(AllocError)?;
        push_line(&mut text, alloc, to, number, stamped.stamp, part)?;
    }
    Ok((text, number))
}
