//! What a letter orders for the processes of the node that reads it: who dies of a clash, and who is sent a notice.
ghost use Rattle.std.specs.Prelude.{◌≡◌, ◌++◌, flat_map, OnOk, string_bytes};
ghost use Rattle.wire_end.specs.Orders.{kill_line, notice_line, notice_text, fate_text, orders_of};

use letter_lines::{Letter, Noted};
use std::alloc::AllocError;
use std::fmt::Write as _;
use term::{Node, Pid};

/// Puts behind a text a line for each process of the node that dies.
fn push_kills(text: &mut String, node: &Node, kills: &[Pid]) -> Result<(), AllocError>
    ensures { OnOk result (string_bytes text.new ≡ string_bytes text.old ++ flat_map (kill_line node.now) kills.now) }
{
    for process in kills {
        if process.node == *node {
            writeln!(text, "kill {process}")?;
        }
    }
    Ok(())
}

/// Puts behind a text the line of what a process is sent.
fn push_notice(text: &mut String, noted: &Noted) -> Result<(), AllocError>
    ensures { OnOk result (string_bytes text.new ≡ string_bytes text.old ++ notice_text noted.now) }
{
    let Noted { process, notice } = noted;
    match &notice.other {
        Some(other) => writeln!(text, "notice {process} {} {other}", notice.name),
        None => writeln!(text, "notice {process} {}", notice.name),
    }
}

/// Puts behind a text a line for each notice that a process of the node is sent.
fn push_notices(text: &mut String, node: &Node, notices: &[Noted]) -> Result<(), AllocError>
    ensures { OnOk result (string_bytes text.new ≡ string_bytes text.old ++ flat_map (notice_line node.now) notices.now) }
{
    for noted in notices {
        if noted.process.node == *node {
            push_notice(text, noted)?;
        }
    }
    Ok(())
}

/// Puts behind a text the lines of what happens to processes of the node.
fn push_fate(
    text: &mut String,
    node: &Node,
    kills: &[Pid],
    notices: &[Noted],
) -> Result<(), AllocError>
    ensures { OnOk result (string_bytes text.new ≡ string_bytes text.old ++ fate_text node.now kills.now notices.now) }
{
    push_kills(text, node, kills)?;
    push_notices(text, node, notices)
}

/// Puts behind a text the lines of what a letter orders for the processes of this node: of its kills first, and then of its notices.
/// Most letters order nothing, and take no memory.
pub(crate) fn push_orders(text: &mut String, node: &Node, letter: &Letter) -> Result<(), AllocError>
    ensures { OnOk result (string_bytes text.new ≡ string_bytes text.old ++ orders_of node.now letter.now) }
{
    match letter {
        Letter::Admit(admission) => push_fate(
            text,
            node,
            admission.kills.as_slice(),
            admission.notices.as_slice(),
        ),
        Letter::Welcome(welcome) => push_fate(
            text,
            node,
            welcome.kills.as_slice(),
            welcome.notices.as_slice(),
        ),
        _ => Ok(()),
    }
}
