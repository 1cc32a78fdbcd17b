//! The first line of a console.
ghost use Rattle.std.specs.Prelude.{◌≡◌, ℕ, List, Some, None, true, map, string_bytes, option_map, IfOk, IfSome, MatchOption, MatchResult};
ghost use Rattle.term.specs.NodeSets.{set_of};
ghost use Rattle.std.specs.Io.Buffered.{reader_remaining};
ghost use Rattle.text_lines.specs.Lines.{IsKept};
ghost use Rattle.text_lines.specs.Writing.{Writes};
ghost use Rattle.command_lines.specs.Printing.{error_line};
ghost use Rattle.console.specs.Greetings.{NamesNode, WordsAttach, WordsShow, LineAttaches, Greets, GreetStops, HasNoFirst, ReadsFirst, Shows, ShowsFirst, StopsFirst, greeting_text, is_shown};
ghost use Rattle.console.specs.Outcomes.{seat_word};

use crate::cookie::Cookie;
use crate::faults::GreetFault;
use command_lines::{refusal_line, text_of, write_refusal};
use node_seats::SeatFault;
use std::alloc::{AllocError, Global};
use std::io::{BufReader, Read, Write};
use std::thread;
use std::time::{Clock, Duration};
use term::{MOST_LINES, Node, NodeName, NodeSet, parse_node_name};
use text_lines::{Line, StreamFault, WriteFault, first_words, hand_on, read_line, tell};

/// For how many seconds who doesn't show the cookie waits for the answer.
const DELAY: u64 = 1;

/// Which of these nodes a text names.
fn find_node(text: &str, nodes: &NodeSet) -> Result<NodeName, GreetFault>
    ensures names { NamesNode nodes.now text.now result }
    ensures known { IfOk result (λ node. set_of nodes.now node ≡ true) }
{
    let node = parse_node_name(text)?;
    if nodes.contains(&Node::first(node.copy())) {
        Ok(node)
    } else {
        Err(GreetFault::NoSuchNode)
    }
}

/// To which of these nodes words attach a console that needn't show anything.
fn read_words(words: &[&str], nodes: &NodeSet) -> Result<NodeName, GreetFault>
    ensures attach { WordsAttach nodes.now (map (λ word. word.now) words.now) result }
    ensures known { IfOk result (λ node. set_of nodes.now node ≡ true) }
{
    let [word, text] = words else {
        return Err(GreetFault::NotAttached);
    };
    if *word != "attach" {
        return Err(GreetFault::NotAttached);
    }
    find_node(text, nodes)
}

/// Whether the first and the third of three words show this cookie.
fn shows_cookie(word: &str, shown: &str, cookie: &Cookie) -> bool
    ensures { result ≡ is_shown word.now shown.now cookie.now }
{
    word == "attach" && cookie.is(shown)
}

/// To which of these nodes words attach a console that must show this cookie.
fn read_shown(words: &[&str], nodes: &NodeSet, cookie: &Cookie) -> Result<NodeName, GreetFault>
    ensures attach { WordsShow cookie.now nodes.now (map (λ word. word.now) words.now) result }
    ensures known { IfOk result (λ node. set_of nodes.now node ≡ true) }
{
    let [word, text, shown] = words else {
        return Err(GreetFault::NotAllowed);
    };
    if shows_cookie(word, shown, cookie) {
        find_node(text, nodes)
    } else {
        Err(GreetFault::NotAllowed)
    }
}

/// To which of these nodes a line attaches a console that must show this cookie. One that can't be read shows nothing.
fn read_showing(line: &Line, nodes: &NodeSet, cookie: &Cookie) -> Result<NodeName, GreetFault>
    ensures attaches { (bytes : List ℕ) → IsKept bytes line.now → LineAttaches (Some cookie.now) nodes.now bytes result }
    ensures known { IfOk result (λ node. set_of nodes.now node ≡ true) }
{
    match text_of(line) {
        Ok(text) => read_shown(&first_words(text), nodes, cookie),
        Err(_) => Err(GreetFault::NotAllowed),
    }
}

/// To which of these nodes a line attaches a console that needn't show anything.
fn read_open(line: &Line, nodes: &NodeSet) -> Result<NodeName, GreetFault>
    ensures attaches { (bytes : List ℕ) → IsKept bytes line.now → LineAttaches None nodes.now bytes result }
    ensures known { IfOk result (λ node. set_of nodes.now node ≡ true) }
{
    let text = text_of(line)?;
    read_words(&first_words(text), nodes)
}

/// To which of these nodes a line attaches a console, which must show the cookie where there is one.
fn read_greeting(
    line: &Line,
    nodes: &NodeSet,
    cookie: Option<&Cookie>,
) -> Result<NodeName, GreetFault>
    ensures attaches { (bytes : List ℕ) → IsKept bytes line.now → LineAttaches (option_map (λ c. c.now) cookie.entry) nodes.now bytes result }
    ensures known { IfOk result (λ node. set_of nodes.now node ≡ true) }
    ensures shows { IfOk result (λ _. (bytes : List ℕ) → IsKept bytes line.now → Shows (option_map (λ c. c.now) cookie.entry) bytes) }
{
    match cookie {
        Some(cookie) => read_showing(line, nodes, cookie),
        None => read_open(line, nodes),
    }
}

/// What a first line is answered.
fn greeting_line(alloc: Global, answer: &Result<NodeName, GreetFault>) -> Result<String, AllocError>
    ensures { IfOk result (λ text. string_bytes text ≡ greeting_text answer.now) }
{
    match answer {
        Ok(_) => String::from_str(alloc, "ok\n"),
        Err(fault) => refusal_line(alloc, fault.word()),
    }
}

/// Answers a first line, by what `read_first` found in it, or where there is no place for the console by that.
pub fn answer_first<W: Write>(
    alloc: Global,
    writer: &mut W,
    answer: &Result<NodeName, GreetFault>,
) -> Result<(), WriteFault>
    ensures { Writes (W.contents writer.old) (W.contents writer.new) result (greeting_text answer.now) }
{
    let text = greeting_line(alloc, answer)?;
    tell(writer, text.as_bytes())
}

/// Has who doesn't show the cookie wait, so that trying many takes long.
fn hold_up<C: Clock>(rt: &C, answer: &Result<NodeName, GreetFault>) {
    if matches!(answer, Err(GreetFault::NotAllowed)) {
        thread::sleep(rt, Duration::from_secs(DELAY));
    }
}

/// Reads the first line of a console, and tells what it is to be answered: which of these nodes it names, or why it is refused; nothing where
/// there is no line. It isn't answered yet. Whatever doesn't show the cookie is told of after a second.
pub fn read_first<R: Read, W: Write, C: Clock>(
    rt: &C,
    alloc: Global,
    reader: &mut BufReader<R, Global>,
    writer: &mut W,
    nodes: &NodeSet,
    cookie: Option<&Cookie>,
) -> Result<Option<Result<NodeName, GreetFault>>, StreamFault>
    ensures reads { MatchResult result
        (λ found. MatchOption found
        (HasNoFirst (reader_remaining R.remaining reader.old) (reader_remaining R.remaining reader.new)
        (W.contents writer.old) (W.contents writer.new) None)
        (ReadsFirst (option_map (λ c. c.now) cookie.entry) nodes.now (reader_remaining R.remaining reader.old)
        (reader_remaining R.remaining reader.new) (W.contents writer.old) (W.contents writer.new)))
        (StopsFirst (reader_remaining R.remaining reader.old) (reader_remaining R.remaining reader.new)
        (W.contents writer.old) (W.contents writer.new)) }
    ensures known { IfOk result (λ found. IfSome found (λ answer. IfOk answer (λ node. set_of nodes.now node ≡ true))) }
    ensures shows { IfOk result (λ found. IfSome found (λ answer. IfOk answer (λ _. ShowsFirst (option_map (λ c. c.now) cookie.entry)
        (reader_remaining R.remaining reader.old) (reader_remaining R.remaining reader.new)))) }
{
    let mut left = MOST_LINES;
    let Some(line) = read_line(Vec::new(alloc), reader, writer, &mut left)? else {
        return Ok(None);
    };
    let answer = read_greeting(&line, nodes, cookie);
    hold_up(rt, &answer);
    Ok(Some(answer))
}

/// Reads the first line of a console, `attach` with the name of one of these nodes, and answers it: which node it is. Where there is a
/// cookie the line must show it behind the name: whatever doesn't is answered `error not_allowed` after a second, and learns nothing
/// of the nodes.
///
/// Any other line is answered with the word for which it is refused, and no line at all isn't; then there is no node, and the
/// console ends. It fails as `answer_lines` does.
pub fn greet<R: Read, W: Write, C: Clock>(
    rt: &C,
    alloc: Global,
    reader: &mut BufReader<R, Global>,
    writer: &mut W,
    nodes: &NodeSet,
    cookie: Option<&Cookie>,
) -> Result<Option<NodeName>, StreamFault>
    ensures greets { MatchResult result
        (Greets (option_map (λ c. c.now) cookie.entry) nodes.now (reader_remaining R.remaining reader.old)
        (reader_remaining R.remaining reader.new) (W.contents writer.old) (W.contents writer.new))
        (GreetStops (option_map (λ c. c.now) cookie.entry) nodes.now (reader_remaining R.remaining reader.old)
        (reader_remaining R.remaining reader.new) (W.contents writer.old) (W.contents writer.new)) }
    ensures known { IfOk result (λ found. IfSome found (λ node. set_of nodes.now node ≡ true)) }
    ensures shows { IfOk result (λ found. IfSome found (λ _. ShowsFirst (option_map (λ c. c.now) cookie.entry)
        (reader_remaining R.remaining reader.old) (reader_remaining R.remaining reader.new))) }
{
    let Some(answer) = read_first(rt, alloc, reader, writer, nodes, cookie)? else {
        return Ok(None);
    };
    answer_first(alloc, writer, &answer)?;
    Ok(answer.ok())
}

/// Tells a console that was attached why it gets no seat; it ends then.
pub fn refuse_seat<W: Write>(writer: &mut W, fault: &SeatFault) -> Result<(), StreamFault>
    ensures { Writes (W.contents writer.old) (W.contents writer.new) result (error_line (seat_word fault.now)) }
{
    write_refusal(writer, fault.word())?;
    hand_on(writer)?;
    Ok(())
}
