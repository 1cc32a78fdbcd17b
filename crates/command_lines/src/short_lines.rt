//! Lines of answers that take no memory, since they are short.
ghost use Rattle.std.specs.Prelude.{◌≡◌, ◌++◌, IfSome};
ghost use Rattle.protocol_model.specs.NamedEvents.{Said};
ghost use Rattle.term.specs.Spelling.{node_bytes};
ghost use Rattle.std.specs.Fmt.{decimal};
ghost use Rattle.world_events.specs.NodeEventsSeen.{answer_of as any_answer, reply_of as any_reply};
ghost use Rattle.command_lines.specs.Printing as print;

use crate::printing::word_of;
use arrayvec::ArrayString;
use itoa::Buffer;
use term::{Node, Pid};
use world_events::{Answer, Reply};

/// How many bytes a short line may have: more than any answer with one process or one word has, since a name has 64 at most.
const SHORT: usize = 128;

/// A line in place.
pub type ShortLine = ArrayString<SHORT>;

/// Puts a text behind a line, if there is room.
fn put(line: &mut ShortLine, text: &str) -> Option<()>
    ensures { IfSome result (λ _. line.new.bytes ≡ line.old.bytes ++ text.now) }
{
    line.try_push_str(text).ok()
}

/// Puts a number behind a line, if there is room.
fn put_number(line: &mut ShortLine, number: u32) -> Option<()>
    ensures { IfSome result (λ _. line.new.bytes ≡ line.old.bytes ++ decimal number) }
{
    let mut digits = Buffer::new();
    put(line, digits.format(number))
}

/// Puts a node behind a line, if there is room.
fn put_node(line: &mut ShortLine, node: &Node) -> Option<()>
    ensures { IfSome result (λ _. line.new.bytes ≡ line.old.bytes ++ node_bytes node.now) }
{
    put(line, node.name().as_str())?;
    if node.creation() == 1 {
        return Some(());
    }
    put(line, "/")?;
    put_number(line, node.creation())
}

/// Puts a process behind a line, if there is room.
fn put_process(line: &mut ShortLine, process: &Pid) -> Option<()>
    ensures { IfSome result (λ _. line.new.bytes ≡ line.old.bytes ++ print.pid_text process.now) }
{
    put_node(line, &process.node)?;
    put(line, ".")?;
    put_number(line, process.serial)
}

/// Puts a reply behind a line, if it is no list and there is room.
fn put_reply(line: &mut ShortLine, reply: &Reply) -> Option<()>
    ensures { IfSome result (λ _. line.new.bytes ≡ line.old.bytes ++ print.reply_text (any_reply reply.now)) }
{
    match reply {
        Reply::Pid(process) => put_process(line, process),
        Reply::Names(_) | Reply::Notices(_) => None,
        word => put(line, word_of(word)),
    }
}

/// Puts what an answer says behind a line, if it says no list and there is room.
fn put_said(line: &mut ShortLine, answer: &Answer) -> Option<()>
    ensures { IfSome result (λ _. line.new.bytes ≡ line.old.bytes ++ print.answer_text (any_answer answer.now)) }
{
    if answer.call == 0 {
        return put_reply(line, &answer.reply);
    }
    put_node(line, &answer.node)?;
    put(line, "#")?;
    put_number(line, answer.call)?;
    put(line, " ")?;
    put_reply(line, &answer.reply)
}

/// Puts the line of an answer behind a line, if it says no list and there is room. Else what is behind is of no account.
pub fn put_answer(line: &mut ShortLine, answer: &Answer) -> Option<()>
    ensures { IfSome result (λ _. line.new.bytes ≡ line.old.bytes ++ print.output_line (Said (any_answer answer.now))) }
{
    put_said(line, answer)?;
    put(line, "\n")
}
