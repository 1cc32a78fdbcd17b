//! Scripts, line by line.
ghost use Rattle.std.specs.Prelude.{◌≡◌, ◌&&◌, [], ◌≤◌, Some, Ok, Err, true, MatchResult, IfOk, map, List, ℕ};
ghost use Rattle.std.specs.Io.Buffered.{reader_remaining};
ghost use Rattle.protocol_model.specs.NamedEvents as script;
ghost use Rattle.command_lines.specs.NodeEventsSeen.{answer_of as any_answer};
ghost use Rattle.command_lines.specs.Events.{named_event, own_event_of};
ghost use Rattle.term.specs.Nodes.{text_in};
ghost use Rattle.command_lines.specs.Commands.{asked_by, line_in};
ghost use Rattle.text_lines.specs.Lines.{IsKept};
ghost use Rattle.command_lines.specs.Grammar.{Scripted, Finish};
ghost use Rattle.command_lines.specs.Printing as print;
ghost use Rattle.text_lines.specs.Writing.{Writes};
ghost use Rattle.cluster_script.specs.Script.{Ran, Stopped};
ghost use Rattle.cluster_script.specs.Played.{PlaysAsked, PlaysRead, PlaysAll, PlaysBehind, WritesOkay, node_at as meant, settle_end};
ghost use Rattle.cluster_world.specs.NodeNames.{is_name};
ghost use Rattle.cluster_world.specs.Seen.{names_of};
ghost use Rattle.cluster_script.specs.Headers.{asked_first};

use crate::header::{Headers, ScriptWorld, read_headers};
use crate::looking::{node_at, show_members, show_table};
use crate::reading::next_line;
use crate::refusing::refuse_memory;
use command_lines::{
    Answer, LineCommand, LineFault, LocalEvent, Refusal, ShortLine, WorldEvent, answer_line,
    put_answer, read_command, started_line, write_refusal,
};
use std::alloc::Global;
use std::io::{BufReader, Read, Write};
use term::{MOST_LINES, NodeName, SETTLE_LIMIT};
use text_lines::{Line, StreamFault, WriteFault, write_text};

/// Writes the line of an answer that is long or says a list, which takes memory.
fn write_long<W: Write>(alloc: Global, writer: &mut W, answer: &Answer) -> Result<(), WriteFault>
    ensures { Writes (W.contents writer.old) (W.contents writer.new) result (print.output_line (script.Said (any_answer answer.now))) }
{
    let line = answer_line(alloc, answer)?;
    write_text(writer, line.as_bytes())
}

/// Writes the line of an answer.
fn write_answer<W: Write>(alloc: Global, writer: &mut W, answer: &Answer) -> Result<(), WriteFault>
    ensures { Writes (W.contents writer.old) (W.contents writer.new) result (print.output_line (script.Said (any_answer answer.now))) }
{
    let mut line = ShortLine::new();
    match put_answer(&mut line, answer) {
        Some(()) => write_text(writer, line.as_bytes()),
        None => write_long(alloc, writer, answer),
    }
}

/// Writes the lines of answers.
fn write_answers<W: Write>(
    alloc: Global,
    writer: &mut W,
    answers: &[Answer],
) -> Result<(), WriteFault>
    ensures { Writes (W.contents writer.old) (W.contents writer.new) result (print.answers_text (map any_answer answers.now)) }
{
    for answer in answers {
        write_answer(alloc, writer, answer)?;
    }
    Ok(())
}

/// Writes the line of the node that a name means: of the one that has started where the name came back.
fn write_started<W: Write>(
    alloc: Global,
    writer: &mut W,
    world: &ScriptWorld,
    name: &NodeName,
) -> Result<(), WriteFault>
    ensures { is_name (names_of world.now) (text_in name.now) ≡ true → Writes (W.contents writer.old) (W.contents writer.new) result
        (print.output_line (script.Started (meant world.now name.now))) }
{
    // A name that came back is one of this world.
    let Some(node) = node_at(world, name) else {
        return Ok(());
    };
    let line = started_line(alloc, node)?;
    write_text(writer, line.as_bytes())
}

/// Writes what an event that was played prints before its answers: `ok` for an exit or a leave, and for a restart the node that has
/// started.
fn write_accepted<W: Write>(
    alloc: Global,
    writer: &mut W,
    world: &ScriptWorld,
    event: &WorldEvent,
) -> Result<(), WriteFault>
    ensures { WritesOkay world.now (W.contents writer.old) (W.contents writer.new) result event.now }
{
    match event {
        WorldEvent::At(_, LocalEvent::Exit(_) | LocalEvent::Leave) => write_text(writer, b"ok\n"),
        WorldEvent::Restart(name) => write_started(alloc, writer, world, name),
        _ => Ok(()),
    }
}

/// Plays an event, and writes its answers, or why it is refused: whether it isn't. Where memory is refused for it nothing is played.
fn play_event<W: Write>(
    alloc: Global,
    writer: &mut W,
    world: &mut ScriptWorld,
    event: &WorldEvent,
) -> Result<bool, WriteFault>
    ensures { PlaysAsked (Ok (Scripted (script.Play (named_event event.now)))) world.old world.new (W.contents writer.old) (W.contents writer.new) result }
{
    match world.play(event) {
        Ok(answers) => {
            write_accepted(alloc, writer, world, event)?;
            write_answers(alloc, writer, &answers)?;
            Ok(true)
        }
        Err(refusal) => {
            write_refusal(writer, refusal.word())?;
            Ok(false)
        }
    }
}

/// Plays an event at the node that a name means, and writes its answers, or why it is refused: whether it isn't.
fn play_at<W: Write>(
    alloc: Global,
    writer: &mut W,
    world: &mut ScriptWorld,
    name: &NodeName,
    event: LocalEvent,
) -> Result<bool, WriteFault>
    ensures { PlaysAsked (Ok (Scripted (script.Play (script.At (text_in name.now) (own_event_of event))))) world.old world.new
        (W.contents writer.old) (W.contents writer.new) result }
{
    let Some(node) = node_at(world, name) else {
        write_refusal(writer, Refusal::NoSuchNode.word())?;
        return Ok(false);
    };
    let event = WorldEvent::At(node.copy(), event);
    play_event(alloc, writer, world, &event)
}

/// Writes how `settle` ended.
fn end_settle<W: Write>(writer: &mut W, is_settled: bool) -> Result<bool, WriteFault>
    ensures text { Writes (W.contents writer.old) (W.contents writer.new) result (print.output_line (settle_end is_settled)) }
    ensures fine { IfOk result (λ fine. fine ≡ is_settled) }
{
    if is_settled {
        write_text(writer, b"settled\n")?;
    } else {
        write_text(writer, b"error settle_limit\n")?;
    }
    Ok(is_settled)
}

/// Delivers until no letter waits, or memory is refused for a delivery, and writes all answers: whether no letter waits then.
fn settle<W: Write>(
    alloc: Global,
    writer: &mut W,
    world: &mut ScriptWorld,
) -> Result<bool, WriteFault>
    ensures { PlaysAsked (Ok (Scripted script.Settle)) world.old world.new (W.contents writer.old) (W.contents writer.new) result }
{
    for _ in 0..SETTLE_LIMIT {
        match world.deliver_next() {
            Ok(Some(answers)) => write_answers(alloc, writer, &answers)?,
            Ok(None) => return end_settle(writer, true),
            Err(_) => return refuse_memory(writer),
        }
    }
    end_settle(writer, world.waiting().is_none())
}

/// Writes that a world is finished.
fn end_finish<W: Write>(writer: &mut W) -> Result<bool, WriteFault>
    ensures text { Writes (W.contents writer.old) (W.contents writer.new) result (print.shown_line print.Finished) }
    ensures fine { IfOk result (λ fine. fine ≡ true) }
{
    write_text(writer, b"finished\n")?;
    Ok(true)
}

/// Delivers and retries refused registrars until the world is finished, or memory is refused for an event, and writes all answers:
/// whether it is finished then.
fn finish<W: Write>(
    alloc: Global,
    writer: &mut W,
    world: &mut ScriptWorld,
) -> Result<bool, WriteFault>
    ensures { PlaysAsked (Ok Finish) world.old world.new (W.contents writer.old) (W.contents writer.new) result }
{
    match world.finish() {
        Ok(answers) => {
            write_answers(alloc, writer, &answers)?;
            end_finish(writer)
        }
        Err(stop) => {
            write_answers(alloc, writer, &stop.answers)?;
            refuse_memory(writer)
        }
    }
}

/// Plays a command, and writes what it prints: whether no refusal is printed.
fn play_asked<W: Write>(
    alloc: Global,
    writer: &mut W,
    world: &mut ScriptWorld,
    command: LineCommand,
) -> Result<bool, WriteFault>
    ensures { PlaysAsked (Ok (line_in command)) world.old world.new (W.contents writer.old) (W.contents writer.new) result }
{
    match command {
        LineCommand::Play(event) => play_event(alloc, writer, world, &event),
        LineCommand::At(name, event) => play_at(alloc, writer, world, &name, event),
        LineCommand::Settle => settle(alloc, writer, world),
        LineCommand::Finish => finish(alloc, writer, world),
        LineCommand::Table(name) => show_table(alloc, writer, world, &name),
        LineCommand::Members(name) => show_members(alloc, writer, world, &name),
    }
}

/// Plays what a line asks for, and writes what it prints: whether no refusal is printed.
fn play_command<W: Write>(
    alloc: Global,
    writer: &mut W,
    world: &mut ScriptWorld,
    command: Result<LineCommand, LineFault>,
) -> Result<bool, WriteFault>
    ensures { PlaysAsked (asked_by command) world.old world.new (W.contents writer.old) (W.contents writer.new) result }
{
    match command {
        Ok(command) => play_asked(alloc, writer, world, command),
        Err(fault) => {
            write_refusal(writer, fault.word())?;
            Ok(false)
        }
    }
}

/// Reads what a line asks for, plays it and writes what it prints: whether no refusal is printed.
fn play_line<W: Write>(
    alloc: Global,
    writer: &mut W,
    world: &mut ScriptWorld,
    line: &Line,
) -> Result<bool, WriteFault>
    ensures { (bytes : List ℕ) → IsKept bytes line.now
        → PlaysRead bytes world.old world.new (W.contents writer.old) (W.contents writer.new) result }
{
    let command = read_command(alloc, line);
    play_command(alloc, writer, world, command)
}

/// Whether both hold.
fn both(left: bool, right: bool) -> bool
    ensures { result ≡ (left && right) }
{
    left && right
}

/// Reads and plays lines to the end of the input: whether no refusal was printed.
fn play_lines<R: Read, W: Write>(
    alloc: Global,
    reader: &mut BufReader<R, Global>,
    writer: &mut W,
    world: &mut ScriptWorld,
    left: &mut u32,
) -> Result<bool, StreamFault>
    requires { left.old ≤ MOST_LINES }
    ensures { PlaysAll [] (reader_remaining R.remaining reader.old) (reader_remaining R.remaining reader.new)
        left.old left.new world.old world.new (W.contents writer.old) (W.contents writer.new) result }
{
    let mut is_fine = true;
    let mut room = Vec::new(alloc);
    while let Some(line) = next_line(alloc, room, reader, writer, left)? {
        let fine = play_line(alloc, writer, world, &line)?;
        is_fine = both(is_fine, fine);
        room = line.into_room(alloc);
    }
    Ok(is_fine)
}

/// Plays what was read already, and then lines to the end of the input: whether no refusal was printed.
fn play_all<R: Read, W: Write>(
    alloc: Global,
    reader: &mut BufReader<R, Global>,
    writer: &mut W,
    world: &mut ScriptWorld,
    first: Option<Result<LineCommand, LineFault>>,
    left: &mut u32,
) -> Result<bool, StreamFault>
    requires { left.old ≤ MOST_LINES }
    ensures { PlaysBehind (asked_first first) (reader_remaining R.remaining reader.old) (reader_remaining R.remaining reader.new)
        left.old left.new world.old world.new (W.contents writer.old) (W.contents writer.new) result }
{
    let Some(command) = first else {
        return play_lines(alloc, reader, writer, world, left);
    };
    let is_fine = play_command(alloc, writer, world, command)?;
    let others = play_lines(alloc, reader, writer, world, left)?;
    Ok(both(is_fine, others))
}

/// Plays a script, and writes what it prints: whether no refusal is printed.
///
/// Its first line that isn't empty names the nodes of the cluster, and the next one may name lone nodes; each other line asks
/// for an event, for deliveries until no letter waits, or for these and retries until nothing waits but lock calls. A line that is
/// refused prints the word for it and changes nothing; where there is no world, the script ends, and no further byte is read. What was
/// written is handed on before the reader waits for more.
///
/// Memory may be refused for any line: it is refused like any other then, by `error memory`, and plays nothing. Where that comes
/// among the events of a `settle` or a `finish`, those before it stand, and `error memory` takes the place of `settled` or `finished`.
///
/// `TooManyLines` is answered only where a line takes the count past 1,000,000; that line isn't played, and all is written that
/// those before it print, as after `Read`. `Memory` is answered only where a line can't be read, or can't be made of what was played.
/// The contract can't say when a reader, a writer or an allocator fails, since theirs don't: so it doesn't say when `Read`, `Write`
/// and `Memory` come, nor `error memory`. After the last two faults a part is written of what the lines print that were read.
pub fn run_script<R: Read, W: Write>(
    alloc: Global,
    reader: &mut BufReader<R, Global>,
    writer: &mut W,
) -> Result<bool, StreamFault>
    ensures { MatchResult result
        (Ran (reader_remaining R.remaining reader.old) (reader_remaining R.remaining reader.new)
        (W.contents writer.old) (W.contents writer.new))
        (Stopped (reader_remaining R.remaining reader.old) (reader_remaining R.remaining reader.new)
        (W.contents writer.old) (W.contents writer.new)) }
{
    let mut left = MOST_LINES;
    match read_headers(alloc, reader, writer, &mut left)? {
        Headers::Open(mut world, first) => {
            play_all(alloc, reader, writer, &mut world, first, &mut left)
        }
        Headers::Ended => Ok(true),
        Headers::Refused(fault) => {
            write_refusal(writer, fault.word())?;
            Ok(false)
        }
    }
}
