//! What the lines that come in say.
ghost use Rattle.std.specs.Prelude.{◌≡◌, ◌≢◌, ◌++◌, ℕ, List, Ok, IfOk, MatchOption, MatchResult, bytes_eq, codes, map, option_copied, string_bytes, take};
ghost use Rattle.text_lines.specs.Lines.{IsKept};
ghost use Rattle.text_lines.specs.Words.{words as words_in};
ghost use Rattle.command_lines.specs.Commands.{line_in};
ghost use Rattle.command_lines.specs.Events.{own_event_of};
ghost use Rattle.command_lines.specs.Grammar.{WordsAsk};
ghost use Rattle.letter_lines.specs.Grammar.{TextReads};
ghost use Rattle.node_port.specs.Asking.{AsksAsScript, IsAsked, Reader, TextAsksFor, WordsAskFor, begins_as, is_call_word as any_call_word, meant, meant_by, own_bytes, reads_as, process_first, process_second, with_node};
ghost use Rattle.node_port.specs.Numbers.{SpellsNumber, SpellsNoNumber};
ghost use Rattle.node_port.specs.Shown.{line_fault_of};
ghost use Rattle.node_port.specs.Beginnings.{IsBeginText, IsBeginLine};
ghost use Rattle.node_port.specs.Commands.{IsCut, HasNoCut, TellsLine, TellsNoLine, TellsNoPart, IsTagged, HasNoTag, Says, SaysNothing, Refuses, IsRefused};

use crate::numbers::parse_number;
use arrayvec::ArrayVec;
use command_lines::{LineCommand, LineFault, LocalEvent, WorldEvent, read_words, text_of};
use letter_lines::{LetterFault, Part, parts_are_exact, read_part};
use std::alloc::{AllocError, Global};
use term::{MOST_WORDS, Node, NodeName, NodeSet, Pid, parse_node, parse_node_set};
use text_lines::{Line, first_words};
use wire_end::LinkLine;

/// What a line says.
#[derive(Drop)]
pub(crate) enum Command {
    /// The node is asked for an event, and the answer goes under this tag.
    Ask(u64, LocalEvent),
    /// It is asked how many steps it has made.
    Steps(u64),
    /// Another node sent this.
    Letter(Node, LinkLine),
    /// Another node is gone without a word.
    Down(Node),
    /// The next node of another one's name has started.
    Started(Node),
    /// Time went by.
    Tick,
}

/// What the first line of a node says that starts where others have left.
#[derive(Drop)]
pub(crate) struct Beginning {
    /// The stamp above which its steps are, and behind which the notices of those who left come.
    pub(crate) stamp: u64,
    /// Who has left: of each name the last node.
    pub(crate) left: NodeSet,
}

/// Why a line is refused, and the tag under which that is answered, where it has one.
#[derive(Drop)]
pub(crate) struct Refused {
    pub(crate) tag: Option<u64>,
    pub(crate) fault: LineFault,
}

/// Whether a line that names its node first in a script begins with this word. Here that is the program's own.
fn is_call_word(word: &str) -> bool
    ensures { result ≡ any_call_word word.now }
{
    matches!(
        word,
        "spawn" | "register" | "re_register" | "unregister" | "join" | "leave"
    )
}

/// Whether words begin such a line.
fn begins_call(words: &[&str]) -> bool
    ensures { result ≡ begins_as any_call_word (map (λ word. word.now) words.now) }
{
    match words {
        [word, ..] => is_call_word(word),
        [] => false,
    }
}

/// Whether a process stands first behind this word, whose node a script asks.
fn takes_process_first(word: &str) -> bool
    ensures { result ≡ process_first word.now }
{
    matches!(word, "exit" | "set_lock" | "del_lock")
}

/// Whether a process stands second behind this word.
fn takes_process_second(word: &str) -> bool
    ensures { result ≡ process_second word.now }
{
    matches!(word, "register" | "re_register")
}

/// Whether words begin a line in which a process stands first.
fn begins_with_process(words: &[&str]) -> bool
    ensures { result ≡ begins_as process_first (map (λ word. word.now) words.now) }
{
    match words {
        [word, ..] => takes_process_first(word),
        [] => false,
    }
}

/// What words ask with the name of a node behind the first, as in a script.
fn read_call(alloc: Global, words: &[&str], node: &str) -> Result<LineCommand, LineFault>
    ensures { IfOk result (λ task. WordsAsk (with_node node.now (map (λ word. word.now) words.now)) (Ok (line_in task))) }
{
    match words {
        [word] => read_words(alloc, &[*word, node]),
        [word, text] => read_words(alloc, &[*word, node, *text]),
        [word, text, next] => read_words(alloc, &[*word, node, *text, *next]),
        [word, text, next, last] => read_words(alloc, &[*word, node, *text, *next, *last]),
        _ => Err(LineFault::BadLine),
    }
}

/// What words ask, as a line of a script does that asks the node of this name.
fn read_scripted(alloc: Global, words: &[&str], node: &str) -> Result<LineCommand, LineFault>
    ensures { IfOk result (λ task. AsksAsScript node.now (map (λ word. word.now) words.now) (line_in task)) }
{
    if begins_call(words) {
        read_call(alloc, words, node)
    } else if begins_with_process(words) {
        read_words(alloc, words)
    } else {
        Err(LineFault::BadLine)
    }
}

/// The event that a line of a script asks a node for.
fn event_of(task: LineCommand) -> Result<LocalEvent, LineFault>
    ensures { IfOk result (λ event. IsAsked (line_in task) (own_event_of event)) }
{
    match task {
        LineCommand::Play(WorldEvent::At(_, event)) => Ok(event),
        LineCommand::At(_, event) => Ok(event),
        // No line that is read here asks for anything else.
        _ => Err(LineFault::BadLine),
    }
}

/// What the words behind a tag ask of the node of this name.
fn read_event(alloc: Global, words: &[&str], node: &str) -> Result<LocalEvent, LineFault>
    ensures { IfOk result (λ event. WordsAskFor node.now (map (λ word. word.now) words.now) (own_event_of event)) }
{
    event_of(read_scripted(alloc, words, node)?)
}

/// What a text means, by whether a process stands there: `self` is the one that was spawned last then.
fn meant_text<'a>(text: &'a str, stands: bool, own: &'a str) -> &'a str
    ensures { result.now ≡ meant_by own.now stands text.now }
{
    if stands && matches!(text, "self") {
        own
    } else {
        text
    }
}

/// Puts the process that was spawned last in the place of `self`, where a process stands.
fn spell_own<'a>(words: &mut [&'a str], own: &'a str)
    ensures { map (λ word. word.now) words.new ≡ meant own.now (map (λ word. word.now) words.old) }
{
    if words.len() > 1 {
        words[1] = meant_text(words[1], takes_process_first(words[0]), own);
    }
    if words.len() > 2 {
        words[2] = meant_text(words[2], takes_process_second(words[0]), own);
    }
}

/// The text of the process that was spawned last, or `self` where none was.
fn own_text(alloc: Global, own: Option<&Pid>) -> Result<String, AllocError>
    ensures { IfOk result (λ text. string_bytes text ≡ own_bytes (option_copied own.entry)) }
{
    match own {
        Some(process) => format!(in alloc; "{process}"),
        None => String::from_str(alloc, "self"),
    }
}

/// The first words of a text, as they are meant where this process was spawned last.
fn meant_words<'a>(text: &'a str, own: &'a str) -> ArrayVec<&'a str, MOST_WORDS>
    ensures { map (λ word. word.now) result.items ≡ meant own.now (take MOST_WORDS (words_in text.now)) }
{
    let mut words = first_words(text);
    spell_own(&mut words, own);
    words
}

/// What the text behind a tag asks of the node of this name, where a process of this text was spawned last.
fn read_meant(alloc: Global, text: &str, own: &str, node: &str) -> Result<LocalEvent, LineFault>
    ensures { IfOk result (λ event. TextAsksFor (record { node = node.now; own = own.now }) text.now (own_event_of event)) }
{
    read_event(alloc, &meant_words(text, own), node)
}

/// What the text behind a tag asks of this node, where this process was spawned last.
fn read_asked(
    alloc: Global,
    text: &str,
    own: Option<&Pid>,
    node: &NodeName,
) -> Result<LocalEvent, LineFault>
    ensures { IfOk result (λ event. TextAsksFor (reads_as node.now (option_copied own.entry)) text.now (own_event_of event)) }
{
    let own = own_text(alloc, own)?;
    read_meant(alloc, text, own.as_str(), node.as_str())
}

/// What a line says that has a tag.
fn read_tagged(
    alloc: Global,
    tag: u64,
    text: &str,
    own: Option<&Pid>,
    node: &NodeName,
) -> Result<Command, LineFault>
    ensures { (bytes : List ℕ) → IsTagged bytes tag text.now
        → MatchResult result (Says (reads_as node.now (option_copied own.entry)) bytes) (λ _. text.now ≢ codes "steps") }
{
    if text == "steps" {
        return Ok(Command::Steps(tag));
    }
    Ok(Command::Ask(tag, read_asked(alloc, text, own, node)?))
}

/// The fault of a line that says this part of no letter.
pub(crate) fn line_fault(fault: LetterFault) -> LineFault
    ensures { result ≡ line_fault_of fault }
{
    match fault {
        LetterFault::BadLine => LineFault::BadLine,
        LetterFault::Text(fault) => LineFault::Text(fault),
        LetterFault::Memory => LineFault::Memory,
    }
}

/// The part of a letter that a text says.
fn part_of(text: &str) -> Result<Part, LineFault>
    ensures { MatchResult result (λ part. TextReads text.now (Ok part)) (λ _. TellsNoPart text.now) }
{
    // So a text that is refused is no part.
    parts_are_exact();
    match read_part(text) {
        Ok(part) => Ok(part),
        Err(fault) => Err(line_fault(fault)),
    }
}

/// A text cut at its first space, where it has one: what stands before it, and what stands behind it.
fn cut(text: &str) -> Option<(&str, &str)>
    ensures { MatchOption result (HasNoCut text.now) (λ x. IsCut text.now x.0.now x.1.now) }
{
    text.split_once(' ')
}

/// The same of a text that has one.
fn cut_at_space(text: &str) -> Result<(&str, &str), LineFault>
    ensures { MatchResult result (λ x. IsCut text.now x.0.now x.1.now) (λ _. HasNoCut text.now) }
{
    cut(text).ok_or(LineFault::BadLine)
}

/// The number that a text spells.
fn number_of(text: &str) -> Result<u64, LineFault>
    ensures { MatchResult result (SpellsNumber text.now) (λ _. SpellsNoNumber text.now) }
{
    parse_number(text).ok_or(LineFault::BadLine)
}

/// The line of a link that a text tells, behind its sender.
fn read_link_line(text: &str) -> Result<LinkLine, LineFault>
    ensures { MatchResult result (TellsLine text.now) (λ _. TellsNoLine text.now) }
{
    let (number, rest) = cut_at_space(text)?;
    let (stamp, rest) = cut_at_space(rest)?;
    let number = number_of(number)?;
    let stamp = number_of(stamp)?;
    let part = part_of(rest)?;
    Ok(LinkLine {
        number,
        stamp,
        part,
    })
}

/// What a line of a link says, behind its word.
fn read_letter(text: &str) -> Result<Command, LineFault>
    ensures { (reader : Reader) (bytes : List ℕ) → bytes ≡ codes "letter " ++ text.now → MatchResult result (Says reader bytes) (λ _. SaysNothing bytes) }
{
    let (from, rest) = cut_at_space(text)?;
    let from = parse_node(from)?;
    Ok(Command::Letter(from, read_link_line(rest)?))
}

/// What stands behind the word of a line of a link.
fn behind_letter(text: &str) -> Option<&str>
    ensures { MatchOption result ((rest : List ℕ) → text.now ≢ codes "letter " ++ rest) (λ rest. text.now ≡ codes "letter " ++ rest.now) }
{
    text.strip_prefix("letter ")
}

/// What a line says that a node is gone, behind its word.
fn read_down(text: &str) -> Result<Command, LineFault>
    ensures { (reader : Reader) (bytes : List ℕ) → bytes ≡ codes "down " ++ text.now → MatchResult result (Says reader bytes) (λ _. SaysNothing bytes) }
{
    Ok(Command::Down(parse_node(text)?))
}

/// What stands behind the word of a line that a node is gone.
fn behind_down(text: &str) -> Option<&str>
    ensures { MatchOption result ((rest : List ℕ) → text.now ≢ codes "down " ++ rest) (λ rest. text.now ≡ codes "down " ++ rest.now) }
{
    text.strip_prefix("down ")
}

/// What a line says that a node has started, behind its word.
fn read_started(text: &str) -> Result<Command, LineFault>
    ensures { (reader : Reader) (bytes : List ℕ) → bytes ≡ codes "started " ++ text.now → MatchResult result (Says reader bytes) (λ _. SaysNothing bytes) }
{
    Ok(Command::Started(parse_node(text)?))
}

/// What stands behind the word of a line that a node has started.
fn behind_started(text: &str) -> Option<&str>
    ensures { MatchOption result ((rest : List ℕ) → text.now ≢ codes "started " ++ rest) (λ rest. text.now ≡ codes "started " ++ rest.now) }
{
    text.strip_prefix("started ")
}

/// What a line says that has no tag.
fn read_untagged(text: &str) -> Result<Command, LineFault>
    ensures { (reader : Reader) → MatchResult result (Says reader text.now) (λ _. SaysNothing text.now) }
{
    if let Some(rest) = behind_letter(text) {
        return read_letter(rest);
    }
    if let Some(rest) = behind_down(text) {
        return read_down(rest);
    }
    if let Some(rest) = behind_started(text) {
        return read_started(rest);
    }
    if text == "tick" {
        Ok(Command::Tick)
    } else {
        Err(LineFault::BadLine)
    }
}

/// A line is refused under this tag, or under none.
fn refused_under(tag: Option<u64>, fault: LineFault) -> Refused
    ensures tag { result.tag ≡ tag }
    ensures fault { result.fault ≡ fault }
{
    Refused { tag, fault }
}

/// The tag of a line, and the text behind it, where it has one.
fn split_tag(text: &str) -> Option<(u64, &str)>
    ensures { MatchOption result (HasNoTag text.now) (λ x. IsTagged text.now x.0 x.1.now) }
{
    let (tag, rest) = cut(text)?;
    Some((parse_number(tag)?, rest))
}

/// What a text says at this node, or why it is refused. `own` is the process that was spawned last, which `self` stands for.
fn read_text(
    alloc: Global,
    text: &str,
    own: Option<&Pid>,
    node: &NodeName,
) -> Result<Command, Refused>
    ensures { MatchResult result (Says (reads_as node.now (option_copied own.entry)) text.now) (λ refused. Refuses text.now refused.tag) }
{
    match split_tag(text) {
        Some((tag, rest)) => match read_tagged(alloc, tag, rest, own, node) {
            Ok(command) => Ok(command),
            Err(fault) => Err(refused_under(Some(tag), fault)),
        },
        None => match read_untagged(text) {
            Ok(command) => Ok(command),
            Err(fault) => Err(refused_under(None, fault)),
        },
    }
}

/// What a line says at this node, where this process was spawned last, or why it is refused.
pub(crate) fn read_command(
    alloc: Global,
    line: &Line,
    own: Option<&Pid>,
    node: &NodeName,
) -> Result<Command, Refused>
    ensures { (bytes : List ℕ) → IsKept bytes line.now
        → MatchResult result (Says (reads_as node.now (option_copied own.entry)) bytes) (IsRefused bytes) }
{
    match text_of(line) {
        Ok(text) => read_text(alloc, text, own, node),
        Err(fault) => Err(refused_under(None, fault)),
    }
}

/// Whether a line says that the node founds its cluster.
pub(crate) fn says_founds(line: &Line) -> bool
    ensures { (bytes : List ℕ) → IsKept bytes line.now → result ≡ bytes_eq bytes (codes "founds") }
{
    match text_of(line) {
        Ok(text) => text == "founds",
        Err(_) => false,
    }
}

/// What a text says of who has left, behind its word.
fn read_left(text: &str) -> Option<Beginning>
    ensures { (bytes : List ℕ) → bytes ≡ codes "behind " ++ text.now
        → MatchOption result ((stamp : ℕ) (left : List ℕ) → IsBeginText bytes stamp left → ⊥) (λ b. IsBeginText bytes b.stamp b.left) }
{
    let (stamp, left) = cut(text)?;
    let stamp = parse_number(stamp)?;
    let left = parse_node_set(left)?;
    Some(Beginning { stamp, left })
}

/// What stands behind the word of a line that says who has left.
fn behind_beginning(text: &str) -> Option<&str>
    ensures { MatchOption result ((rest : List ℕ) → text.now ≢ codes "behind " ++ rest) (λ rest. text.now ≡ codes "behind " ++ rest.now) }
{
    text.strip_prefix("behind ")
}

/// What a text says of who has left when a node starts, if it says that.
fn read_beginning(text: &str) -> Option<Beginning>
    ensures { MatchOption result ((stamp : ℕ) (left : List ℕ) → IsBeginText text.now stamp left → ⊥) (λ b. IsBeginText text.now b.stamp b.left) }
{
    let rest = behind_beginning(text)?;
    read_left(rest)
}

/// What a line says of who has left when a node starts, if it says that.
pub(crate) fn says_who_left(line: &Line) -> Option<Beginning>
    ensures { (bytes : List ℕ) → IsKept bytes line.now
        → MatchOption result ((stamp : ℕ) (left : List ℕ) → IsBeginLine bytes stamp left → ⊥) (λ b. IsBeginLine bytes b.stamp b.left) }
{
    match text_of(line) {
        Ok(text) => read_beginning(text),
        Err(_) => None,
    }
}
