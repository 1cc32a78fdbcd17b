//! Runs of a node that is alone in its cluster, and what tears them. One function owns what a run left behind; what is logged, told and looked
//! at borrows it, since a proof grows with what may be dropped where a function ends.
use crate::names::first_name;
use name_table::{Change, ListTable, Names, Pair, Registration};
use node_log::{Notice, NoticeList};
use replay::{
    Answer, Call, CloseFault, Closed, LocalEvent, Log, NodeEnd, Reply, SeatEntry, Transcript,
    WorldEvent, replay,
};
use std::alloc::Global;
use term::{Node, NodeSet, Pid, Rule, parse_name, parse_pid};

/// The table of the tests.
type Table = ListTable<Global>;

/// What the thread of a node left behind.
#[derive(Clone, Copy)]
enum Run {
    /// No step.
    Empty,
    /// A process was spawned, and registered.
    Whole,
    /// It was asked what it was sent before that, which is nothing.
    Looked,
    /// It was told of a notice of which the world knows nothing.
    OtherNotice,
    /// A letter was delivered that wasn't sent.
    EmptyLink,
    /// A spawn was answered by another process than the world's.
    OtherAnswer,
    /// Two steps have one stamp.
    SameStamp,
    /// The table has the name under another rule.
    OtherRule,
    /// The table hasn't the name.
    OtherTable,
    /// The thread ended alone.
    Alone,
}

/// What seat 0 was told.
#[derive(Clone, Copy)]
enum Told {
    /// There was no seat.
    Nothing,
    /// That the name is registered.
    Registration,
    /// That the process was sent nothing, and then that the name is registered.
    Look,
    /// That the name is registered, in two transcripts.
    Twice,
}

/// What a replay is to come to.
#[derive(Clone, Copy)]
enum Close {
    /// So many events, and the name has its owner and its rule.
    Events(u64),
    /// The log is torn at this place.
    Torn(usize),
    /// The node is left in hold.
    LeftInHold,
    /// Seat 0 is a stranger.
    Stranger,
}

/// The name x and the process a.1, which is to own it under `notify`.
fn x_of_a() -> Option<Pair> {
    match (parse_name("x"), parse_pid("a.1")) {
        (Ok(name), Ok(owner)) => Some(Pair {
            name,
            owner,
            rule: Rule::Notify,
        }),
        _ => None,
    }
}

/// The end of a node with a log without a step, whose table has no name.
fn new_end(alloc: Global, node: &Node) -> NodeEnd<Table> {
    NodeEnd {
        log: Log::new(alloc, node.copy(), &NodeSet::one(node.copy())),
        table: <Table as Names>::empty(alloc),
        ended_alone: false,
    }
}

/// The event of a call.
fn call_at(node: &Node, call: Call) -> WorldEvent {
    WorldEvent::At(node.copy(), LocalEvent::Call(call))
}

/// The event that registers a name for its owner.
fn registers(pair: &Pair) -> WorldEvent {
    call_at(&pair.owner.node, Call::Register(pair.copy()))
}

/// The answer to a call of this number at a node.
fn answer(node: &Node, call: u32, reply: Reply) -> Answer {
    Answer {
        node: node.copy(),
        call,
        reply,
    }
}

/// Gives the last step of a log this one answer.
fn answers(alloc: Global, log: &mut Log, answer: Answer) -> bool {
    let mut answers = Vec::new(alloc);
    let is_kept = answers.push(answer).is_ok();
    log.answer(answers);
    is_kept
}

/// Puts the spawn of a process of this serial at the end of a node's log.
fn logs_spawn(alloc: Global, log: &mut Log, stamp: u64, node: &Node, serial: u32) -> bool {
    let process = Pid {
        node: node.copy(),
        serial,
    };
    log.begin(stamp, Some(0), call_at(node, Call::Spawn))
        .is_ok()
        && answers(alloc, log, answer(node, 0, Reply::Pid(process)))
}

/// Puts the registration of a name at the end of the log, with what the owner's node sends to itself for it.
fn logs_registration(alloc: Global, log: &mut Log, pair: &Pair) -> bool {
    let node = &pair.owner.node;
    log.begin(3, Some(0), registers(pair)).is_ok()
        && log.begin_delivery(4, node).is_ok()
        && log.begin_delivery(5, node).is_ok()
        && log.begin_delivery(6, node).is_ok()
        && log.begin_delivery(7, node).is_ok()
        && answers(alloc, log, answer(node, 1, Reply::Yes))
}

/// The look at what a process was sent.
fn looks(process: &Pid) -> WorldEvent {
    call_at(&process.node, Call::Notices(process.copy()))
}

/// The answer to that.
fn sent(process: &Pid, notices: Vec<Notice>) -> Answer {
    answer(&process.node, 0, Reply::Notices(NoticeList::new(notices)))
}

/// Puts a look of the owner of a name at the end of the log, which gave these notices.
fn logs_look(alloc: Global, log: &mut Log, pair: &Pair, notices: Vec<Notice>) -> bool {
    log.begin(2, Some(0), looks(&pair.owner)).is_ok()
        && answers(alloc, log, sent(&pair.owner, notices))
}

/// A notice that the name was lost.
fn lost(alloc: Global, pair: &Pair) -> Vec<Notice> {
    let mut notices = Vec::new(alloc);
    let _ = notices.push(Notice {
        name: pair.name.copy(),
        other: None,
    });
    notices
}

/// Puts the steps into a log that spawn the owner of a name, look at what it was sent, if they do, and register the name.
fn logs_all(alloc: Global, log: &mut Log, pair: &Pair, look: Option<Vec<Notice>>) -> bool {
    let is_spawned = logs_spawn(alloc, log, 1, &pair.owner.node, 1);
    let is_looked = match look {
        Some(notices) => logs_look(alloc, log, pair, notices),
        None => true,
    };
    is_spawned && is_looked && logs_registration(alloc, log, pair)
}

/// Puts the name under its rule into a table.
fn puts(table: &mut Table, pair: &Pair) -> bool {
    table.write(Change::Put(pair.copy())).is_ok()
}

/// Puts it under another one.
fn puts_otherwise(table: &mut Table, pair: &Pair) -> bool {
    let mut other = pair.copy();
    other.rule = Rule::Exit;
    table.write(Change::Put(other)).is_ok()
}

impl Run {
    /// Makes it of the end of a node. Whether there was memory for it.
    fn is_made(self, alloc: Global, end: &mut NodeEnd<Table>, pair: &Pair) -> bool {
        let node = &pair.owner.node;
        match self {
            Run::Empty => true,
            Run::Whole => {
                logs_all(alloc, &mut end.log, pair, None) && puts(&mut end.table, pair)
            }
            Run::Looked => {
                logs_all(alloc, &mut end.log, pair, Some(Vec::new(alloc)))
                    && puts(&mut end.table, pair)
            }
            Run::OtherNotice => {
                logs_all(alloc, &mut end.log, pair, Some(lost(alloc, pair)))
                    && puts(&mut end.table, pair)
            }
            Run::EmptyLink => end.log.begin_delivery(1, node).is_ok(),
            Run::OtherAnswer => logs_spawn(alloc, &mut end.log, 1, node, 2),
            Run::SameStamp => {
                logs_spawn(alloc, &mut end.log, 4, node, 1)
                    && logs_spawn(alloc, &mut end.log, 4, node, 2)
            }
            Run::OtherRule => {
                logs_all(alloc, &mut end.log, pair, None) && puts_otherwise(&mut end.table, pair)
            }
            Run::OtherTable => logs_all(alloc, &mut end.log, pair, None),
            Run::Alone => {
                end.ended_alone = true;
                true
            }
        }
    }
}

/// What a seat was told of a registration.
fn registration(pair: &Pair) -> SeatEntry {
    SeatEntry {
        event: registers(pair),
        answer: Some(answer(&pair.owner.node, 1, Reply::Yes)),
    }
}

/// What it was told of a look that gave nothing.
fn look(alloc: Global, pair: &Pair) -> SeatEntry {
    SeatEntry {
        event: looks(&pair.owner),
        answer: Some(sent(&pair.owner, Vec::new(alloc))),
    }
}

/// Puts a transcript of seat 0, which was told of the registration of a name, and of a look before that, if it was.
fn tells(alloc: Global, told: &mut Vec<Transcript>, pair: &Pair, look: Option<SeatEntry>) -> bool {
    let mut entries = Vec::new(alloc);
    let is_kept = match look {
        Some(entry) => entries.push(entry).is_ok(),
        None => true,
    };
    let is_last_kept = entries.push(registration(pair)).is_ok();
    let transcript = Transcript {
        seat: 0,
        node: pair.owner.node.copy(),
        entries,
    };
    told.push(transcript).is_ok() && is_kept && is_last_kept
}

impl Told {
    /// Puts its transcripts behind the others. Whether there was memory for them.
    fn is_made(self, alloc: Global, told: &mut Vec<Transcript>, pair: &Pair) -> bool {
        match self {
            Told::Nothing => true,
            Told::Registration => tells(alloc, told, pair, None),
            Told::Look => tells(alloc, told, pair, Some(look(alloc, pair))),
            Told::Twice => tells(alloc, told, pair, None) && tells(alloc, told, pair, None),
        }
    }
}

/// Whether the name has its owner and its rule where a run ended, and the run a history.
fn is_owned(closed: &Closed<Table>, pair: &Pair) -> bool {
    let entry = Registration {
        owner: pair.owner.copy(),
        rule: pair.rule,
    };
    match closed.table(&pair.owner.node) {
        Some(table) => table.get(&pair.name) == Some(entry) && !closed.history().is_empty(),
        None => false,
    }
}

impl Close {
    /// Whether a run that was refused came to it.
    fn refuses(self, fault: &CloseFault, node: &Node) -> bool {
        match (self, fault) {
            (Close::Torn(place), CloseFault::Torn { node: found, at }) => {
                *found == *node && *at == place
            }
            (Close::LeftInHold, CloseFault::LeftInHold(found)) => *found == *node,
            (Close::Stranger, CloseFault::Stranger(seat)) => *seat == 0,
            _ => false,
        }
    }

    /// Whether a replay came to it.
    fn is_met(self, closed: Result<Closed<Table>, CloseFault>, pair: &Pair) -> bool {
        match (self, closed) {
            (Close::Events(events), Ok(closed)) => {
                closed.events == events && is_owned(&closed, pair)
            }
            (_, Ok(_)) => false,
            (_, Err(fault)) => self.refuses(&fault, &pair.owner.node),
        }
    }
}

/// Replays the end of a cluster of one node.
fn replayed(
    alloc: Global,
    end: NodeEnd<Table>,
    transcripts: &[Transcript],
) -> Result<Closed<Table>, CloseFault> {
    match first_name(end.log.node()) {
        Some(name) => replay(alloc, &[name], &[], &[end], transcripts),
        None => Err(CloseFault::Memory),
    }
}

/// Whether the replay of a run, with what a seat was told, comes to this.
fn comes_to(alloc: Global, pair: &Pair, run: Run, told: Told, close: Close) -> bool {
    let mut end = new_end(alloc, &pair.owner.node);
    let mut transcripts = Vec::new(alloc);
    let is_run = run.is_made(alloc, &mut end, pair);
    let is_told = told.is_made(alloc, &mut transcripts, pair);
    let is_met = close.is_met(replayed(alloc, end, transcripts.as_slice()), pair);
    is_run && is_told && is_met
}

/// Whether a run is torn at a place.
fn tears(alloc: Global, pair: &Pair, run: Run, place: usize) -> bool {
    comes_to(alloc, pair, run, Told::Nothing, Close::Torn(place))
}

/// Whether runs are replayed with what seats were told of them. A look takes no number.
fn are_replayed(alloc: Global, pair: &Pair) -> bool {
    comes_to(
        alloc,
        pair,
        Run::Whole,
        Told::Registration,
        Close::Events(6),
    ) && comes_to(alloc, pair, Run::Looked, Told::Look, Close::Events(7))
}

/// Whether what doesn't fit tears runs.
fn are_torn(alloc: Global, pair: &Pair) -> bool {
    tears(alloc, pair, Run::EmptyLink, 0)
        && tears(alloc, pair, Run::OtherAnswer, 0)
        && tears(alloc, pair, Run::SameStamp, 1)
        && tears(alloc, pair, Run::OtherNotice, 1)
        && tears(alloc, pair, Run::OtherTable, 6)
        && tears(alloc, pair, Run::OtherRule, 6)
        && comes_to(alloc, pair, Run::Alone, Told::Nothing, Close::LeftInHold)
}

/// Whether seats are strangers that were told of what is in no log, or that have two transcripts.
fn are_strangers(alloc: Global, pair: &Pair) -> bool {
    comes_to(alloc, pair, Run::Empty, Told::Registration, Close::Stranger)
        && comes_to(alloc, pair, Run::Whole, Told::Twice, Close::Stranger)
}

#[test]
fn replays_runs(rt: HostRuntime) {
    match x_of_a() {
        Some(pair) => {
            assert!(rt; are_replayed(rt.alloc(), &pair));
            assert!(rt; are_torn(rt.alloc(), &pair));
            assert!(rt; are_strangers(rt.alloc(), &pair));
        }
        None => assert!(rt; false),
    }
}
