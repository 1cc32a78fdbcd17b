//! Lines, answered one after the other.
ghost use Rattle.std.specs.Prelude.{◌≡◌, ℕ, List, string_bytes, MatchResult};
ghost use Rattle.std.specs.Io.Buffered.{reader_remaining};
ghost use Rattle.std.specs.Io.KnownBytes.{Keeps};
ghost use Rattle.text_lines.specs.Lines.{IsKept};
ghost use Rattle.text_lines.specs.Writing.{Writes};
ghost use Rattle.console.specs.Consoles.{AnswersLine, ChoosesNames, EndsBy, Exits, FindsName, HeedsInquiry, HeedsSpawnLink, IsSaidOf, MayAnswer, MaySpawnLinked, SaysOfProcess, SpawnsLinked, Stops, TalkStops, TalksUntil, Tells, TellsOfProcess, TellStops, talk};
ghost use Rattle.console.specs.Links.{left_by, linked_in, may_wait};
ghost use Rattle.console.specs.declared.orders.Inquiry.TheVariants.{Wait};

use crate::attendant::Attendant;
use crate::chosen::chosen_line;
use crate::commands::read_command;
use crate::counting::next_line;
use crate::describing::{describe_line, description_line, look_up_line};
use crate::ends::ConsoleEnd;
use crate::fence::fence_line;
use crate::help::help_line;
use crate::links::Links;
use crate::orders::{Awaited, Command, Inquiry, Order};
use crate::outcomes::outcome_line;
use crate::status::status_line;
use command_lines::{Call, Reply, refusal_line, text_of};
use descriptions::Description;
use node_seats::SeatFault;
use std::alloc::{AllocError, Global};
use std::io::{BufReader, Read, Write};
use term::{Name, Pid};
use text_lines::{Line, StreamFault, WriteFault, first_words, hand_on, tell, write_text};

/// Asks something of the attendant. A process whose exit was made is linked no longer.
fn ask<H, A: Attendant<H>>(
    rt: &H,
    attendant: &mut A,
    links: &mut Links,
    order: Order,
) -> Result<Reply, SeatFault>
    ensures answered { A.answers (A.state attendant.old) order (may_wait order (linked_in links.old)) result (A.state attendant.new) }
    ensures links { linked_in links.new ≡ left_by order result (linked_in links.old) }
{
    match order {
        Order::Exit(process) => {
            let exiting = process.copy();
            let outcome = attendant.ask(rt, Order::Exit(process), false);
            if outcome.is_ok() {
                links.unlink(&exiting);
            }
            outcome
        }
        order => {
            let linked = links.may_wait(&order);
            attendant.ask(rt, order, linked)
        }
    }
}

/// Asks for a process, and links it. There is room for it before it is asked for.
fn spawn_linked<H, A: Attendant<H>>(
    rt: &H,
    attendant: &mut A,
    links: &mut Links,
) -> Result<Reply, SeatFault>
    ensures { SpawnsLinked A.answers (talk (A.state attendant.old) (linked_in links.old)) result
        (talk (A.state attendant.new) (linked_in links.new)) }
{
    if links.reserve().is_err() {
        return Err(SeatFault::Memory);
    }
    let outcome = attendant.ask(rt, Order::Call(Call::Spawn), false);
    links.link(&outcome);
    outcome
}

/// What `spawn_link` is answered.
fn reply_to_spawn_link<H, A: Attendant<H>>(
    rt: &H,
    alloc: Global,
    attendant: &mut A,
    links: &mut Links,
) -> Result<String, AllocError>
    ensures { MatchResult result
        (λ text. HeedsSpawnLink A.answers (talk (A.state attendant.old) (linked_in links.old)) (string_bytes text)
        (talk (A.state attendant.new) (linked_in links.new)))
        (λ _. MaySpawnLinked A.answers (talk (A.state attendant.old) (linked_in links.old))
        (talk (A.state attendant.new) (linked_in links.new))) }
{
    if links.is_full() {
        return String::from_str(alloc, "error too_many_links\n");
    }
    let outcome = spawn_linked(rt, attendant, links);
    outcome_line(alloc, attendant.node(), outcome)
}

/// What a look-up of the names is answered that begin so.
fn chosen_names<H, A: Attendant<H>>(
    rt: &H,
    alloc: Global,
    attendant: &mut A,
    prefix: &Name,
) -> Result<String, AllocError>
    ensures { MatchResult result
        (λ text. ChoosesNames A.answers prefix.now (A.state attendant.old) (string_bytes text) (A.state attendant.new))
        (λ _. (text : List ℕ) × ChoosesNames A.answers prefix.now (A.state attendant.old) text (A.state attendant.new)) }
{
    let outcome = attendant.ask(rt, Order::Call(Call::RegisteredNames), false);
    chosen_line(alloc, attendant.node(), prefix, outcome)
}

/// What is answered where something is to be said of a process.
fn describe<H, A: Attendant<H>>(
    rt: &H,
    alloc: Global,
    attendant: &A,
    process: &Pid,
    text: &Description,
) -> Result<String, AllocError>
    ensures { MatchResult result
        (λ line. SaysOfProcess A.answers A.stands process.now text.now (A.state attendant.now) (string_bytes line) (A.state attendant.now))
        (λ _. (line : List ℕ) × SaysOfProcess A.answers A.stands process.now text.now (A.state attendant.now) line
        (A.state attendant.now)) }
{
    let outcome = attendant.describe(rt, process, text);
    describe_line(alloc, &outcome)
}

/// What is answered where it is asked what was said of a process.
fn tell_description<H, A: Attendant<H>>(
    rt: &H,
    alloc: Global,
    attendant: &A,
    process: &Pid,
) -> Result<String, AllocError>
    ensures { MatchResult result
        (λ line. TellsOfProcess A.answers A.stands process.now (A.state attendant.now) (string_bytes line) (A.state attendant.now))
        (λ _. (line : List ℕ) × TellsOfProcess A.answers A.stands process.now (A.state attendant.now) line (A.state attendant.now)) }
{
    let said = attendant.description(rt, process);
    description_line(alloc, said)
}

/// What was said of the process that a look-up found, if it found one.
fn said_of<H, A: Attendant<H>>(
    rt: &H,
    attendant: &A,
    outcome: &Result<Reply, SeatFault>,
) -> Option<Description>
    ensures { IsSaidOf A.answers A.stands (A.state attendant.now) outcome.now result }
{
    match outcome {
        Ok(Reply::Pid(process)) => attendant.description(rt, process),
        _ => None,
    }
}

/// What a look-up of a name is answered, with what was said of the process.
fn find<H, A: Attendant<H>>(
    rt: &H,
    alloc: Global,
    attendant: &mut A,
    name: Name,
) -> Result<String, AllocError>
    ensures { MatchResult result
        (λ line. FindsName A.answers A.stands name (A.state attendant.old) (string_bytes line) (A.state attendant.new))
        (λ _. (line : List ℕ) × FindsName A.answers A.stands name (A.state attendant.old) line (A.state attendant.new)) }
{
    let outcome = attendant.ask(rt, Order::Whereis(name), false);
    let said = said_of(rt, attendant, &outcome);
    look_up_line(alloc, attendant.node(), outcome, said)
}

/// What a wait is answered.
fn wait<H, A: Attendant<H>>(
    rt: &H,
    alloc: Global,
    attendant: &mut A,
    links: &Links,
    awaited: Awaited,
) -> Result<String, AllocError>
    ensures { MatchResult result
        (λ text. HeedsInquiry A.answers A.stands (A.state attendant.old) (linked_in links.now) (Wait awaited) (string_bytes text)
        (A.state attendant.new))
        (λ _. (text : List ℕ) × HeedsInquiry A.answers A.stands (A.state attendant.old) (linked_in links.now) (Wait awaited) text
        (A.state attendant.new)) }
{
    let order = Order::Wait(awaited);
    let linked = links.may_wait(&order);
    let outcome = attendant.ask(rt, order, linked);
    outcome_line(alloc, attendant.node(), outcome)
}

/// What is answered to a line that asks what the server knows, or says something of a process.
fn reply_to_inquiry<H, A: Attendant<H>>(
    rt: &H,
    alloc: Global,
    attendant: &mut A,
    links: &Links,
    inquiry: Inquiry,
) -> Result<String, AllocError>
    ensures { MatchResult result
        (λ text. HeedsInquiry A.answers A.stands (A.state attendant.old) (linked_in links.now) inquiry (string_bytes text)
        (A.state attendant.new))
        (λ _. (text : List ℕ) × HeedsInquiry A.answers A.stands (A.state attendant.old) (linked_in links.now) inquiry text
        (A.state attendant.new)) }
{
    match inquiry {
        Inquiry::Describe(process, text) => describe(rt, alloc, attendant, &process, &text),
        Inquiry::Description(process) => tell_description(rt, alloc, attendant, &process),
        Inquiry::Find(name) => find(rt, alloc, attendant, name),
        Inquiry::Wait(awaited) => wait(rt, alloc, attendant, links, awaited),
    }
}

/// Has a line answered: the text, and how it ends the console, where it does.
fn reply_to<H, A: Attendant<H>>(
    rt: &H,
    alloc: Global,
    attendant: &mut A,
    links: &mut Links,
    line: &Line,
    stays: bool,
) -> Result<(String, Option<ConsoleEnd>), AllocError>
    ensures { (bytes : List ℕ) → IsKept bytes line.now → MatchResult result
        (λ said. AnswersLine A.answers A.stands stays bytes (talk (A.state attendant.old) (linked_in links.old)) (string_bytes said.0)
        (talk (A.state attendant.new) (linked_in links.new)) said.1)
        (λ _. MayAnswer A.answers A.stands stays bytes (talk (A.state attendant.old) (linked_in links.old))
        (talk (A.state attendant.new) (linked_in links.new))) }
{
    match read_command(alloc, line, links, stays)? {
        Ok(Command::Ask(order)) => {
            let outcome = ask(rt, attendant, links, order);
            let text = outcome_line(alloc, attendant.node(), outcome)?;
            Ok((text, None))
        }
        Ok(Command::SpawnLink) => {
            let text = reply_to_spawn_link(rt, alloc, attendant, links)?;
            Ok((text, None))
        }
        Ok(Command::Status) => {
            let status = attendant.status(rt);
            Ok((status_line(alloc, status)?, None))
        }
        Ok(Command::Fence) => {
            let status = attendant.status(rt);
            Ok((fence_line(alloc, status)?, None))
        }
        Ok(Command::Help) => Ok((String::from_str(alloc, help_line())?, None)),
        Ok(Command::NamesFrom(prefix)) => {
            let text = chosen_names(rt, alloc, attendant, &prefix)?;
            Ok((text, None))
        }
        Ok(Command::Inquire(inquiry)) => {
            let text = reply_to_inquiry(rt, alloc, attendant, links, inquiry)?;
            Ok((text, None))
        }
        Ok(Command::Quit) => Ok((String::from_str(alloc, "ok\n")?, Some(ConsoleEnd::Quit))),
        Ok(Command::Shutdown) => Ok((String::from_str(alloc, "ok\n")?, Some(ConsoleEnd::Shutdown))),
        Err(fault) => Ok((refusal_line(alloc, fault.word())?, None)),
    }
}

/// Whether a line asks for what may be waited for.
fn may_take_long(line: &Line) -> bool {
    match text_of(line) {
        Ok(text) =>
            matches!(first_words(text).as_slice().first(), Some(word) if matches!(*word, "set_lock" | "wait")),
        Err(_) => false,
    }
}

/// Hands on the answers to lines before this one, where that may take long. A writer that fails then fails again with the answer.
fn hand_on_before<W: Write>(writer: &mut W, line: &Line)
    ensures { Keeps (W.contents writer.old) (W.contents writer.new) }
{
    if may_take_long(line) {
        let _ = hand_on(writer);
    }
}

/// Writes an answer. Where it is the last one it is handed on at once, and else before the console waits for a further line.
fn write_answer<W: Write>(
    writer: &mut W,
    text: &[u8],
    ended: &Option<ConsoleEnd>,
) -> Result<(), WriteFault>
    ensures { Writes (W.contents writer.old) (W.contents writer.new) result text.now }
{
    if ended.is_some() {
        tell(writer, text)
    } else {
        write_text(writer, text)
    }
}

/// Answers a line: how it ends the console, where it does. What is linked is noted before the answer is written.
fn answer<H, W: Write, A: Attendant<H>>(
    rt: &H,
    alloc: Global,
    writer: &mut W,
    attendant: &mut A,
    links: &mut Links,
    line: &Line,
    stays: bool,
) -> Result<Option<ConsoleEnd>, StreamFault>
    ensures { (bytes : List ℕ) → IsKept bytes line.now → MatchResult result
        (Tells A.answers A.stands stays bytes (W.contents writer.old) (W.contents writer.new)
        (talk (A.state attendant.old) (linked_in links.old)) (talk (A.state attendant.new) (linked_in links.new)))
        (TellStops A.answers A.stands stays bytes (W.contents writer.old) (W.contents writer.new)
        (talk (A.state attendant.old) (linked_in links.old)) (talk (A.state attendant.new) (linked_in links.new))) }
{
    hand_on_before(writer, line);
    let (text, ended) = reply_to(rt, alloc, attendant, links, line, stays)?;
    write_answer(writer, text.as_bytes(), &ended)?;
    Ok(ended)
}

/// Reads lines until one ends the console or the input does, and answers each. What they leave linked stands in `links` then.
fn answer_each<H, R: Read, W: Write, A: Attendant<H>>(
    rt: &H,
    alloc: Global,
    reader: &mut BufReader<R, Global>,
    writer: &mut W,
    attendant: &mut A,
    links: &mut Links,
    stays: bool,
    most: u64,
) -> Result<ConsoleEnd, StreamFault>
    ensures { MatchResult result
        (TalksUntil A.answers A.stands stays most (reader_remaining R.remaining reader.old) (reader_remaining R.remaining reader.new)
        (W.contents writer.old) (W.contents writer.new)
        (talk (A.state attendant.old) (linked_in links.old)) (talk (A.state attendant.new) (linked_in links.new)))
        (TalkStops A.answers A.stands stays most (reader_remaining R.remaining reader.old) (reader_remaining R.remaining reader.new)
        (W.contents writer.old) (W.contents writer.new)
        (talk (A.state attendant.old) (linked_in links.old)) (talk (A.state attendant.new) (linked_in links.new))) }
{
    let mut left = most;
    let mut room = Vec::new(alloc);
    while let Some(line) = next_line(room, reader, writer, &mut left)? {
        if let Some(ended) = answer(rt, alloc, writer, attendant, links, &line, stays)? {
            return Ok(ended);
        }
        room = line.into_room(alloc);
    }
    Ok(ConsoleEnd::Input)
}

/// Asks each linked process to exit, whatever the attendant says.
fn exit_all<H, A: Attendant<H>>(rt: &H, attendant: &mut A, links: &Links)
    ensures { Exits A.answers (linked_in links.now) (A.state attendant.old) (A.state attendant.new) }
{
    for process in links.as_slice() {
        let _ = attendant.ask(rt, Order::Exit(process.copy()), false);
    }
}

/// Reads lines until `quit` or the end of the input, and answers each with one line: how the console ended. In a console of a
/// server that stays `shutdown` is answered `ok` and ends it, too, `status` tells how the node and the server stand, `fence` by which step
/// a lock was granted last, `help` which lines there are, and `names` with the beginning of names those that have it; `describe` says
/// something of a process, or asks what was said, which `find` tells with the process of a name, and `wait` is answered once a name is
/// there, or isn't that process's. It answers `most` lines at most.
///
/// A line that asks something is asked of the attendant, and answered with the text of the reply or the word of the refusal;
/// any other is refused, an empty one too. What was answered is handed on before the console waits: for a further line where none is at
/// hand, for a lock or for a name. An answer that ends the console is handed on at once; where a fault ends it, answers that were written may not be
/// handed on yet. `Read` and `TooManyLines`: all lines that were read are answered. `Write` and `Memory`: a part of the answers is written,
/// and nothing behind it.
///
/// `spawn_link` asks for a process that is linked to the console until its exit. However the console ends, each process that is
/// linked then is asked to exit, in the order in which they were linked, before this returns.
pub fn answer_lines<H, R: Read, W: Write, A: Attendant<H>>(
    rt: &H,
    alloc: Global,
    reader: &mut BufReader<R, Global>,
    writer: &mut W,
    attendant: &mut A,
    stays: bool,
    most: u64,
) -> Result<ConsoleEnd, StreamFault>
    ensures { MatchResult result
        (EndsBy A.answers A.stands stays most (reader_remaining R.remaining reader.old) (reader_remaining R.remaining reader.new)
        (W.contents writer.old) (W.contents writer.new) (A.state attendant.old) (A.state attendant.new))
        (Stops A.answers A.stands stays most (reader_remaining R.remaining reader.old) (reader_remaining R.remaining reader.new)
        (W.contents writer.old) (W.contents writer.new) (A.state attendant.old) (A.state attendant.new)) }
{
    let mut links = Links::new(alloc);
    let ended = answer_each(
        rt, alloc, reader, writer, attendant, &mut links, stays, most,
    );
    exit_all(rt, attendant, &links);
    ended
}
