//! What is printed.
ghost use Rattle.std.specs.Prelude.{◌≡◌, ◌++◌, ◌∷◌, true, IfOk, OnOk, string_bytes};
ghost use Rattle.protocol_model.specs.NamedEvents.{Said, Started, TableIs, MembersAre};
ghost use Rattle.world_events.specs.NodeEventsSeen.{answer_of as any_answer, reply_of as any_reply};
ghost use Rattle.term.specs.Rules.{rule_of};
ghost use Rattle.command_lines.specs.Printing as print;

use name_table::Pair;
use std::alloc::{AllocError, Global};
use std::fmt::Write as _;
use term::{Name, Node, Rule};
use world_events::{Answer, Notice, Reply};

/// Puts the text of names behind a text, in their order.
fn push_names(text: &mut String, names: &[Name]) -> Result<(), AllocError>
    ensures { OnOk result (string_bytes text.new ≡ string_bytes text.old ++ print.names_text names.now) }
{
    text.push_str("names")?;
    for name in names {
        text.push(' ')?;
        text.push_str(name.as_str())?;
    }
    Ok(())
}

/// Puts a blank and the text of a notice behind a text: its name, and the process that lost it too, where nobody has it.
fn push_notice(text: &mut String, notice: &Notice) -> Result<(), AllocError>
    ensures { OnOk result (string_bytes text.new ≡ string_bytes text.old ++ 32 ∷ print.notice_text notice.now) }
{
    match &notice.other {
        Some(other) => write!(text, " {}={}", notice.name, other),
        None => write!(text, " {}", notice.name),
    }
}

/// Puts the text of notices behind a text, in their order.
fn push_notices(text: &mut String, notices: &[Notice]) -> Result<(), AllocError>
    ensures { OnOk result (string_bytes text.new ≡ string_bytes text.old ++ print.notices_text notices.now) }
{
    text.push_str("notices")?;
    for notice in notices {
        push_notice(text, notice)?;
    }
    Ok(())
}

/// The text of a reply that is one word, or nothing.
pub(crate) fn word_of(reply: &Reply) -> &'static str
    ensures { print.is_word (any_reply reply.now) ≡ true → result.now ≡ print.reply_text (any_reply reply.now) }
{
    match reply {
        Reply::Yes => "yes",
        Reply::No => "no",
        Reply::Ok => "ok",
        Reply::UnknownNode => "unknown_node",
        Reply::True => "true",
        Reply::False => "false",
        Reply::Joined => "joined",
        Reply::NotMember => "not_member",
        Reply::ContactLeft => "contact_left",
        Reply::Undefined => "undefined",
        Reply::Pid(_) | Reply::Names(_) | Reply::Notices(_) => "",
    }
}

/// Puts the text of a reply behind a text.
fn push_reply(text: &mut String, reply: &Reply) -> Result<(), AllocError>
    ensures { OnOk result (string_bytes text.new ≡ string_bytes text.old ++ print.reply_text (any_reply reply.now)) }
{
    match reply {
        Reply::Pid(process) => write!(text, "{process}"),
        Reply::Names(names) => push_names(text, names.as_slice()),
        Reply::Notices(notices) => push_notices(text, notices.as_slice()),
        word => text.push_str(word_of(word)),
    }
}

/// The line of an answer.
pub fn answer_line(alloc: Global, answer: &Answer) -> Result<String, AllocError>
    ensures { IfOk result (λ text. string_bytes text ≡ print.output_line (Said (any_answer answer.now))) }
{
    let mut line = String::new(alloc);
    if answer.call != 0 {
        write!(line, "{}#{} ", answer.node, answer.call)?;
    }
    push_reply(&mut line, &answer.reply)?;
    line.push('\n')?;
    Ok(line)
}

/// What stands behind a process for the rule of its name: nothing for `exit`.
fn rule_text(rule: Rule) -> &'static str
    ensures { result.now ≡ print.rule_text (rule_of rule) }
{
    match rule {
        Rule::Exit => "",
        Rule::Notify => ",notify",
        Rule::NotifyAll => ",notify_all",
    }
}

/// The line of a table: its names with their owners, as they stand in it, and each rule but `exit`.
pub fn table_line(alloc: Global, table: &[Pair]) -> Result<String, AllocError>
    ensures { IfOk result (λ text. string_bytes text ≡ print.output_line (TableIs table.now)) }
{
    let mut line = String::from_str(alloc, "table")?;
    for pair in table {
        write!(
            line,
            " {}={}{}",
            pair.name,
            pair.owner,
            rule_text(pair.rule)
        )?;
    }
    line.push('\n')?;
    Ok(line)
}

/// The line of members, in their order.
pub fn members_line(alloc: Global, members: &[Node]) -> Result<String, AllocError>
    ensures { IfOk result (λ text. string_bytes text ≡ print.output_line (MembersAre members.now)) }
{
    let mut line = String::from_str(alloc, "members")?;
    for member in members {
        write!(line, " {member}")?;
    }
    line.push('\n')?;
    Ok(line)
}

/// The line of a node that starts.
pub fn started_line(alloc: Global, node: &Node) -> Result<String, AllocError>
    ensures { IfOk result (λ text. string_bytes text ≡ print.output_line (Started node.now)) }
{
    let mut line = String::new(alloc);
    write!(line, "{node}")?;
    line.push('\n')?;
    Ok(line)
}
