//! What seats were answered beside what the logs say.
ghost use Rattle.std.specs.Prelude.{◌≡◌, ◌==◌, ◌↔◌, ◌≤◌, ◌<◌, ◌+◌, IsTrue, [], length, map, count_by, find, drop, slice_get, Some, MatchOption, IfSome};
ghost use Rattle.std.specs.Option.{option_map};
ghost use Rattle.node_log.specs.NodeEventsSeen.{answer_of};
ghost use Rattle.node_log.specs.Logs.{event_of, entry_of};
ghost use Rattle.replay.specs.Ends.{logs_of, end_of};
ghost use Rattle.replay.specs.Least.{LeastOther, IsChosen};
ghost use Rattle.replay.specs.Steps.{log_of};
ghost use Rattle.replay.specs.Transcripts.{answering, numbered, answers_call, said_in, first_answer, answer_in, given, given_by, is_of, IsPartOf, IsLeft, IsFollowed, Fits, has_lesser_seat};

use crate::equal::same_outcome;
use name_table::Names;
use node_log::{
    Answer, Call, LocalEvent, Log, LoggedEntry, LoggedEvent, NodeEnd, SeatEntry, Transcript,
    WorldEvent,
};
use term::Node;

/// How an event is answered.
#[derive(Clone, Copy)]
pub(crate) enum Answering {
    /// In its own step, under number 0.
    AtOnce,
    /// In that or a later step, under the number that its node gave it.
    Later,
    /// Not at all.
    Never,
}

/// How an event is answered.
fn how_answered(event: &WorldEvent) -> Answering
    ensures { result ≡ answering event.now }
{
    match event {
        WorldEvent::At(
            _,
            LocalEvent::Call(
                Call::Spawn | Call::Whereis(_) | Call::RegisteredNames | Call::Notices(_),
            ),
        ) => Answering::AtOnce,
        WorldEvent::At(_, LocalEvent::Call(_)) => Answering::Later,
        WorldEvent::At(_, _) | WorldEvent::Deliver(_, _) | WorldEvent::Restart(_) => {
            Answering::Never
        }
    }
}

/// How the event of a step in the log of a node is answered.
fn how_logged(node: &Node, event: &LoggedEvent<'_>) -> Answering
    ensures { result ≡ answering (event_of node.now event.now) }
{
    let _node = node;
    match event {
        LoggedEvent::Delivery(_) => Answering::Never,
        LoggedEvent::Other(event) => how_answered(event),
    }
}

/// Whether the event of a step in the log of a node is this one.
fn is_event(node: &Node, event: &LoggedEvent<'_>, other: &WorldEvent) -> bool
    ensures { IsTrue result ↔ (event_of node.now event.now ≡ other.now) }
{
    match (event, other) {
        (LoggedEvent::Other(event), _) => **event == *other,
        (LoggedEvent::Delivery(sender), WorldEvent::Deliver(from, to)) => {
            sender.is_first_of(from) && node.is_first_of(to)
        }
        (LoggedEvent::Delivery(_), WorldEvent::At(_, _) | WorldEvent::Restart(_)) => false,
    }
}

/// The first of these answers that a node gave to the call of this number.
fn find_answer<'a>(answers: &'a [Answer], node: &Node, number: u64) -> Option<&'a Answer>
    ensures { option_map (λ s. answer_of s.now) result ≡ find (answers_call node.now number) (map answer_of answers.now) }
{
    for answer in answers {
        if answer.node == *node && u64::from(answer.call) == number {
            return Some(answer);
        }
    }
    None
}

/// The first answer to the call of this number that stands in a log, from this place on.
fn later_answer(log: &Log, at: usize, number: u64) -> Option<&Answer>
    ensures { option_map (λ s. answer_of s.now) result ≡ first_answer log.now.node number (drop at log.now.entries) }
{
    for place in at..log.len() {
        let Some(entry) = log.get(place) else {
            return None;
        };
        if let Some(answer) = find_answer(entry.answers, log.node(), number) {
            return Some(answer);
        }
    }
    None
}

/// The answer to the step at this place of a log, if it has one.
fn answer_at(log: &Log, at: usize, kind: Answering, number: u64) -> Option<&Answer>
    ensures { option_map (λ s. answer_of s.now) result ≡ answer_in log.now.node number kind (drop at log.now.entries) }
{
    match kind {
        Answering::Never => None,
        Answering::Later => later_answer(log, at, number),
        Answering::AtOnce => match log.get(at) {
            Some(entry) => find_answer(entry.answers, log.node(), 0),
            None => None,
        },
    }
}

/// Whether a step is one of this seat.
fn is_of(seat: u32, asked: Option<u32>) -> bool
    ensures { result ≡ is_of seat asked }
{
    match asked {
        Some(asking) => asking == seat,
        None => false,
    }
}

/// Whether the step at this place of a log, whose number is this, gives a seat what stands in its transcript.
fn gives(
    log: &Log,
    at: usize,
    entry: &LoggedEntry<'_>,
    kind: Answering,
    number: u64,
    told: &SeatEntry,
) -> bool
    ensures { IsTrue result ↔ (record { event = event_of log.now.node entry.now.event; answer = answer_in log.now.node number kind (drop at log.now.entries) } ≡ given_by told.now) }
{
    is_event(log.node(), &entry.event, &told.event)
        && same_outcome(&told.answer, answer_at(log, at, kind, number))
}

/// The number of the last numbered call up to a step, where this is that of the last before it.
fn number_after(number: u64, kind: Answering) -> u64
    requires { number < u64.MAX }
    ensures { result ≡ numbered number kind }
{
    match kind {
        Answering::Later => number + 1,
        Answering::AtOnce | Answering::Never => number,
    }
}

/// How many entries of a transcript were found, once a step of the log was looked at, where so many were found before.
fn found_after(
    log: &Log,
    at: usize,
    entry: &LoggedEntry<'_>,
    before: u64,
    transcript: &Transcript,
    found: usize,
) -> usize
    requires here { slice_get log.now.entries at ≡ Some (entry_of log.now.node entry.now) }
    requires room { before < u64.MAX }
    ensures left { IsLeft log.now.node transcript.now.seat (map given_by transcript.now.entries.items) log.now.entries found before at
        → IsLeft log.now.node transcript.now.seat (map given_by transcript.now.entries.items) log.now.entries result
        (numbered before (answering (event_of log.now.node entry.now.event))) (at + 1) }
    ensures within { found ≤ length transcript.now.entries.items → result ≤ length transcript.now.entries.items }
{
    if found >= transcript.entries.len() {
        return found;
    }
    if !is_of(transcript.seat, entry.seat) {
        return found;
    }
    let kind = how_logged(log.node(), &entry.event);
    let number = number_after(before, kind);
    if gives(log, at, entry, kind, number, &transcript.entries[found]) {
        return found + 1;
    }
    found
}

/// Whether a transcript is part of what a log gives its seat. What the log gives is looked for in the order of the transcript, each
/// time from behind what was found last.
fn follows(log: &Log, transcript: &Transcript) -> bool
    ensures { IsTrue result ↔ IsPartOf (map given_by transcript.now.entries.items)
        (given log.now.node transcript.now.seat 0 log.now.entries) }
{
    let mut found = 0;
    let mut number = 0;
    for at in 0..log.len() {
        let Some(entry) = log.get(at) else {
            return false;
        };
        found = found_after(log, at, &entry, number, transcript, found);
        number = number_after(number, how_logged(log.node(), &entry.event));
    }
    found == transcript.entries.len()
}

/// The log of a node.
fn log_at<'a, N: Names>(ends: &'a [NodeEnd<N>], node: &Node) -> Option<&'a Log>
    ensures { MatchOption result (log_of node.now (logs_of (map (end_of N.contents) ends.now)) ≡ [])
        (λ log. (log.now.node ≡ node.now) × (log_of node.now (logs_of (map (end_of N.contents) ends.now)) ≡ log.now.entries)) }
{
    for end in ends {
        if *end.log.node() == *node {
            return Some(&end.log);
        }
    }
    None
}

/// How many of these transcripts are of this seat.
fn number_of(transcripts: &[Transcript], seat: u32) -> usize
    ensures { result ≡ count_by (λ t. t.seat == seat) transcripts.now }
{
    transcripts.iter().filter(|t| t.seat == seat).count()
}

/// Whether a transcript is part of what the log of its node gives its seat.
fn is_followed<N: Names>(ends: &[NodeEnd<N>], transcript: &Transcript) -> bool
    ensures { IsTrue result ↔ IsFollowed (logs_of (map (end_of N.contents) ends.now)) transcript.now }
{
    match log_at(ends, &transcript.node) {
        Some(log) => follows(log, transcript),
        None => transcript.entries.is_empty(),
    }
}

/// Whether a transcript is part of what the log of its node gives its seat, and the only one of that seat.
fn fits<N: Names>(ends: &[NodeEnd<N>], transcripts: &[Transcript], transcript: &Transcript) -> bool
    ensures { IsTrue result ↔ Fits (logs_of (map (end_of N.contents) ends.now)) transcripts.now transcript.now }
{
    if !is_followed(ends, transcript) {
        return false;
    }
    let count = number_of(transcripts, transcript.seat);
    if count > 1 {
        return false;
    }
    true
}

/// Of a transcript and the least so far, the place of that whose seat is less.
fn least_of(transcripts: &[Transcript], least: Option<usize>, place: usize) -> Option<usize>
    requires here { place < length transcripts.now }
    requires there { IfSome least (λ k. k < length transcripts.now) }
    ensures { IsChosen has_lesser_seat transcripts.now place least result }
{
    let Some(best) = least else {
        return Some(place);
    };
    if transcripts[place].seat < transcripts[best].seat {
        Some(place)
    } else {
        Some(best)
    }
}

/// The place of the transcript of the least seat that doesn't fit the logs, if there is one.
pub(crate) fn least_stranger<N: Names>(
    ends: &[NodeEnd<N>],
    transcripts: &[Transcript],
) -> Option<usize>
    ensures { LeastOther (Fits (logs_of (map (end_of N.contents) ends.now)) transcripts.now) has_lesser_seat transcripts.now
        (length transcripts.now) result }
{
    let mut least: Option<usize> = None;
    for (place, transcript) in transcripts.iter().enumerate() {
        if fits(ends, transcripts, transcript) {
            continue;
        }
        least = least_of(transcripts, least, place);
    }
    least
}
