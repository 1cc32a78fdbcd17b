//! The lines that go out, but for those of letters.
ghost use Rattle.std.specs.Prelude.{◌≡◌, ◌++◌, ◌∷◌, map, IfOk, OnOk, string_bytes};
ghost use Rattle.command_lines.specs.NodeEventsSeen.{answer_of};
ghost use Rattle.command_lines.specs.Printing.{ended, reply_text as any_reply_text};
ghost use Rattle.node_loop.specs.Told.{outcome_of, told_by};
ghost use Rattle.node_port.specs.Shown.{Clears, Stands, Tells, Counts, Refuses, Gaps, Strays, Misses, Untells, Waits, Spends, shown_line, shown_lines, standing_word as any_standing_word, outcome_text as any_outcome_text};
ghost use Rattle.node_port.specs.Edits.{put_of, change_line, edit_lines};

use command_lines::{Answer, LineFault, Refusal, answer_line, refusal_line};
use name_table::{Change, Pair};
use node_loop::{Edit, Effect, TaskFault, TaskReply};
use std::alloc::{AllocError, Global};
use std::fmt::Write as _;
use term::{Node, NodeSet};

/// Puts behind a text that a name has this owner now.
fn push_put(text: &mut String, pair: &Pair) -> Result<(), AllocError>
    ensures { OnOk result (string_bytes text.new ≡ string_bytes text.old ++ shown_line (put_of pair.now)) }
{
    writeln!(text, "put {} {}", pair.name, pair.owner)
}

/// Puts behind a text that this is the whole table now.
fn push_whole(text: &mut String, pairs: &[Pair]) -> Result<(), AllocError>
    ensures { OnOk result (string_bytes text.new ≡ string_bytes text.old ++ shown_lines (Clears ∷ map put_of pairs.now)) }
{
    text.push_str("clear\n")?;
    for pair in pairs {
        push_put(text, pair)?;
    }
    Ok(())
}

/// Puts behind a text how a change of the table is shown.
fn push_change(text: &mut String, change: &Change) -> Result<(), AllocError>
    ensures { OnOk result (string_bytes text.new ≡ string_bytes text.old ++ shown_line (change_line change.now)) }
{
    match change {
        Change::Put(pair) => push_put(text, pair),
        Change::Remove(name) => writeln!(text, "remove {name}"),
        Change::StrikeOwner(owner) => writeln!(text, "strike {owner}"),
    }
}

/// Puts behind a text how what a step did to the table is shown. That the node left is the last thing that it answers.
pub(crate) fn push_edit(text: &mut String, edit: &Edit) -> Result<(), AllocError>
    ensures { OnOk result (string_bytes text.new ≡ string_bytes text.old ++ shown_lines (edit_lines edit.now)) }
{
    match edit {
        Edit::Write(change) => push_change(text, change),
        Edit::Departure(node) => writeln!(text, "drop {node}"),
        Edit::Whole(pairs, _) => push_whole(text, pairs.as_slice()),
        Edit::Leave => Ok(()),
    }
}

/// The word for whether a node is joined.
fn standing_word(joined: bool) -> &'static str
    ensures { result.now ≡ any_standing_word joined }
{
    if joined { "joined" } else { "lone" }
}

/// Puts behind a text whether the node is joined, and with whom.
pub(crate) fn push_state(
    text: &mut String,
    joined: bool,
    members: &NodeSet,
) -> Result<(), AllocError>
    ensures { OnOk result (string_bytes text.new ≡ string_bytes text.old ++ shown_line (Stands joined members.now)) }
{
    let word = standing_word(joined);
    writeln!(text, "state {word} {members}")
}

/// The text of an answer to a call, with its end. A reply has no number here, since it has a tag.
fn answer_text(alloc: Global, answer: Answer) -> Result<String, AllocError>
    ensures { IfOk result (λ text. string_bytes text ≡ ended (any_reply_text (answer_of answer).reply)) }
{
    let Answer { node, reply, .. } = answer;
    answer_line(
        alloc,
        &Answer {
            node,
            call: 0,
            reply,
        },
    )
}

/// The text of what came of a task, with its end.
fn outcome_text(alloc: Global, outcome: Result<Effect, TaskFault>) -> Result<String, AllocError>
    ensures { IfOk result (λ text. string_bytes text ≡ ended (any_outcome_text (outcome_of outcome))) }
{
    match outcome {
        Ok(Effect::Answered(_, answer)) => answer_text(alloc, answer),
        Ok(Effect::Made | Effect::Left) => String::from_str(alloc, "ok\n"),
        Err(fault) => refusal_line(alloc, fault.word()),
    }
}

/// Puts behind a text a reply, under the tag of what was asked.
pub(crate) fn push_reply(
    text: &mut String,
    alloc: Global,
    reply: TaskReply,
) -> Result<(), AllocError>
    ensures { OnOk result (string_bytes text.new ≡ string_bytes text.old ++ shown_line (Tells (told_by reply))) }
{
    let TaskReply { ticket, outcome } = reply;
    let outcome = outcome_text(alloc, outcome)?;
    write!(text, "{} {outcome}", ticket.number)
}

/// Puts behind a text how many steps the node has made.
pub(crate) fn push_steps(text: &mut String, tag: u64, steps: u64) -> Result<(), AllocError>
    ensures { OnOk result (string_bytes text.new ≡ string_bytes text.old ++ shown_line (Counts tag steps)) }
{
    writeln!(text, "{tag} {steps}")
}

/// Puts behind a text why a line is refused, under its tag where it has one.
pub(crate) fn push_refusal(
    text: &mut String,
    tag: Option<u64>,
    fault: &LineFault,
) -> Result<(), AllocError>
    ensures { OnOk result (string_bytes text.new ≡ string_bytes text.old ++ shown_line (Refuses tag fault.now)) }
{
    match tag {
        Some(tag) => writeln!(text, "{tag} error {}", fault.word()),
        None => writeln!(text, "error {}", fault.word()),
    }
}

/// Puts behind a text that a line wasn't the next of its link.
pub(crate) fn push_gap(text: &mut String, from: &Node, number: u64) -> Result<(), AllocError>
    ensures { OnOk result (string_bytes text.new ≡ string_bytes text.old ++ shown_line (Gaps from.now number)) }
{
    writeln!(text, "gap {from} {number}")
}

/// Puts behind a text that a letter is one that no node says.
pub(crate) fn push_stray(text: &mut String) -> Result<(), AllocError>
    ensures { OnOk result (string_bytes text.new ≡ string_bytes text.old ++ shown_line Strays) }
{
    text.push_str("error stray_letter\n")
}

/// Puts behind a text that the node wasn't told that another has left.
pub(crate) fn push_untold(text: &mut String) -> Result<(), AllocError>
    ensures { OnOk result (string_bytes text.new ≡ string_bytes text.old ++ shown_line Untells) }
{
    text.push_str("error not_told_yet\n")
}

/// Puts behind a text that no other node of the world is meant.
pub(crate) fn push_no_such_node(text: &mut String) -> Result<(), AllocError>
    ensures { OnOk result (string_bytes text.new ≡ string_bytes text.old ++ shown_line Misses) }
{
    writeln!(text, "error {}", Refusal::NoSuchNode.word())
}

/// Puts behind a text that no stamp is left for a step.
pub(crate) fn push_spent(text: &mut String) -> Result<(), AllocError>
    ensures { OnOk result (string_bytes text.new ≡ string_bytes text.old ++ shown_line Spends) }
{
    text.push_str("error stamps_spent\n")
}

/// Puts behind a text that something waits to be tried again.
pub(crate) fn push_wait(text: &mut String) -> Result<(), AllocError>
    ensures { OnOk result (string_bytes text.new ≡ string_bytes text.old ++ shown_line Waits) }
{
    text.push_str("wait\n")
}
