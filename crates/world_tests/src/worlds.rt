//! Worlds, played by the lines of scripts. One function owns a world; what is played and looked at borrows it, since a proof grows with
//! what may be dropped where a function ends.
use crate::{holds, seats};
use cluster_world::{
    Call, HistoryEntry, LocalEvent, Look, NameCall, Refusal, Reply, StartFault, StepFault, World,
    WorldEvent,
};
use command_lines::{LineCommand, read_command};
use name_table::{ListTable, Names, Pair};
use std::alloc::{AllocError, Global};
use term::{
    Name, Node, NodeNames, Rule, parse_name, parse_node, parse_node_name, parse_nodes, parse_pid,
};
use text_lines::Line;

pub(crate) type Cluster = World<ListTable<Global>>;

/// More deliveries than any of these tests has.
pub(crate) const ENOUGH: u32 = 1000;

/// A name of as many bytes as a name has at most.
const LONG: &str = "sixty-four_bytes@4567890123456789012345678901234567890123456789_";

/// What a world is asked that has played some lines.
#[derive(Clone, Copy)]
pub(crate) enum Scene<'a> {
    /// Whether its history has each kind of entry.
    History,
    /// Whether a run ends at the first event that is refused.
    Run,
    /// Whether it shows how its nodes stand.
    Nodes,
    /// Whether a node tells nothing of another's process.
    Elsewhere,
    /// Whether work is done under locks.
    Work,
    /// Whether a lock goes with its holder.
    Death,
    /// Whether it plays these lines, too, whose events are written down.
    Written(&'a str),
    /// Whether it plays these events, and this node may leave then exactly where it doesn't hold the lock.
    Left(&'a [WorldEvent], &'a Node),
}

impl<'a> Scene<'a> {
    /// Whether it is so.
    fn holds(self, alloc: Global, world: &mut Cluster, events: &mut Vec<WorldEvent>) -> bool {
        match self {
            Scene::History => has_each_kind(alloc, world),
            Scene::Run => runs(alloc, world),
            Scene::Nodes => shows_nodes(alloc, world),
            Scene::Elsewhere => is_no_process(world, "a", "b.1"),
            Scene::Work => seats::works_while_free(world),
            Scene::Death => seats::loses_when_dead(world),
            Scene::Written(lines) => holds::writes_out(alloc, world, lines, events),
            Scene::Left(played, node) => holds::leaves_behind(world, played, node),
        }
    }
}

/// Delivers what waits until nothing does. Whether all that was taken.
fn settle(world: &mut Cluster) -> bool {
    for _ in 0..ENOUGH {
        match world.deliver_next() {
            Ok(Some(_)) => {}
            Ok(None) => return true,
            Err(_) => return false,
        }
    }
    false
}

/// The event that a command asks for, if it asks for one, in a world of first nodes.
fn event_in(command: LineCommand) -> Option<WorldEvent> {
    match command {
        LineCommand::Play(event) => Some(event),
        LineCommand::At(name, event) => Some(WorldEvent::At(Node::first(name), event)),
        _ => None,
    }
}

/// The event that a line asks for.
fn event_on(alloc: Global, line: &Line) -> Option<WorldEvent> {
    match read_command(alloc, line) {
        Ok(command) => event_in(command),
        Err(_) => None,
    }
}

/// The event that a line of a script asks for.
pub(crate) fn event_of(alloc: Global, line: &str) -> Option<WorldEvent> {
    match line.as_bytes().to_vec(alloc) {
        Ok(bytes) => event_on(alloc, &Line::Text(bytes)),
        Err(_) => None,
    }
}

/// Plays a line of a script. Whether it was taken.
fn play_line(alloc: Global, world: &mut Cluster, line: &str) -> bool {
    match event_of(alloc, line) {
        Some(event) => world.play(&event).is_ok(),
        None => line == "settle" && settle(world),
    }
}

/// Plays the lines of a script, parted by commas. Whether all were taken.
fn plays(alloc: Global, world: &mut Cluster, lines: &str) -> bool {
    for line in lines.split(", ") {
        if !play_line(alloc, world, line) {
            return false;
        }
    }
    true
}

/// The nodes of a list, or none where it is no list.
fn names_of(list: &str) -> NodeNames {
    parse_nodes(list).unwrap_or(NodeNames::empty())
}

/// Whether it is so in a world of these joined nodes, parted by commas, and of the lone node d, that has played the lines of a
/// script, parted by commas. Events that are written down go behind the others.
pub(crate) fn is_written(
    alloc: Global,
    cluster: &str,
    lines: &str,
    scene: Scene<'_>,
    events: &mut Vec<WorldEvent>,
) -> bool {
    let (joined, lone) = (names_of(cluster), names_of("d"));
    match Cluster::start(alloc, joined.as_slice(), lone.as_slice()) {
        Ok(mut world) => {
            plays(alloc, &mut world, lines) && scene.holds(alloc, &mut world, events)
        }
        Err(_) => false,
    }
}

/// Whether it is so where nothing is written down.
pub(crate) fn is_so(alloc: Global, cluster: &str, lines: &str, scene: Scene<'_>) -> bool {
    is_written(alloc, cluster, lines, scene, &mut Vec::new(alloc))
}

/// A line that changes nothing in a new world.
pub(crate) const NOTHING: &str = "settle";

/// Each kind of entry, with names of 16 bytes, of 17, and of 64, and with a process of a node outside the world.
const EACH_KIND: &str = "\
spawn a, spawn a, spawn b, whereis a x, names a, notices a.1, \
register a sixteen_bytes_16 a.1, settle, register a seventeen_bytes_1 a.2, settle, names b, \
re_register a sixty-four_bytes@4567890123456789012345678901234567890123456789_ b.1 notify, settle, \
unregister a seventeen_bytes_1, settle, register a z stranger.7, settle, \
join d a, settle, exit b.1, settle, leave b, settle";

/// Puts all entries of the history, made again, behind others.
fn push_history(entries: &mut Vec<HistoryEntry>, world: &Cluster) -> Result<(), AllocError> {
    for kept in world.history() {
        entries.push(kept.entry()?)?;
    }
    Ok(())
}

/// Whether entries are of these kinds, in this order.
fn are_of_each_kind(entries: &[HistoryEntry]) -> bool {
    entries.len() == 21
        && matches!(
            entries,
            [
                HistoryEntry::Read(..),
                HistoryEntry::Read(..),
                HistoryEntry::Read(_, Look::Notices(_), Reply::Notices(_)),
                HistoryEntry::Name(..),
                HistoryEntry::Done(_),
                ..,
                HistoryEntry::Join(..),
                HistoryEntry::Done(_),
                HistoryEntry::Exit(_),
                HistoryEntry::Strike(_),
                HistoryEntry::Done(_),
                HistoryEntry::Left(_),
                HistoryEntry::Told(..),
                HistoryEntry::Told(..),
            ]
        )
}

/// The entry of the longest name, which call 3 of node a registered.
fn entry_of_longest() -> Option<HistoryEntry> {
    match (parse_node("a"), parse_name(LONG), parse_pid("b.1")) {
        (Ok(node), Ok(name), Ok(owner)) => {
            let rule = Rule::Notify;
            let call = NameCall::ReRegister(Pair { name, owner, rule });
            Some(HistoryEntry::Name(node, 3, call, Reply::Yes))
        }
        _ => None,
    }
}

/// Whether that is among these.
fn has_longest(entries: &[HistoryEntry]) -> bool {
    match entry_of_longest() {
        Some(longest) => entries.contains(&longest),
        None => false,
    }
}

/// Whether the history of a world has each kind of entry, and one of the longest name.
fn has_each_kind(alloc: Global, world: &Cluster) -> bool {
    let mut entries = Vec::new(alloc);
    push_history(&mut entries, world).is_ok()
        && are_of_each_kind(entries.as_slice())
        && has_longest(entries.as_slice())
}

#[test]
fn gives_its_history_back(rt: HostRuntime) {
    assert!(rt; is_so(rt.alloc(), "a,b", EACH_KIND, Scene::History));
}

/// Puts the event of a line behind the others.
fn push_event(alloc: Global, events: &mut Vec<WorldEvent>, line: &str) -> bool {
    match event_of(alloc, line) {
        Some(event) => events.push(event).is_ok(),
        None => false,
    }
}

/// The events of a script's lines, parted by commas, up to the first that asks for none.
fn events(alloc: Global, lines: &str) -> Vec<WorldEvent> {
    let mut events = Vec::new(alloc);
    for line in lines.split(", ") {
        if !push_event(alloc, &mut events, line) {
            break;
        }
    }
    events
}

/// Whether three of these events are played, with one answer, and the next is refused for a node outside the world.
fn stops_at_fourth(world: &mut Cluster, events: &[WorldEvent]) -> bool {
    let end = world.run(events);
    end.played == 3 && end.answers.len() == 1 && end.refusal == Some(Refusal::NoSuchNode)
}

/// Whether a letter of this node to itself is delivered next.
fn waits_at(world: &Cluster, node: &str) -> bool {
    match (world.waiting(), parse_node_name(node)) {
        (Some((sender, receiver)), Ok(name)) => sender == name && receiver == name,
        _ => false,
    }
}

/// Whether a run ends at the first event that is refused.
fn runs(alloc: Global, world: &mut Cluster) -> bool {
    let events = events(
        alloc,
        "spawn a, register a x a.1, deliver a a, spawn z, spawn a",
    );
    stops_at_fourth(world, events.as_slice()) && waits_at(world, "a")
}

#[test]
fn runs_up_to_a_refusal(rt: HostRuntime) {
    assert!(rt; is_so(rt.alloc(), "a", NOTHING, Scene::Run));
}

/// The node `a` registers a name, and holds the lock.
const HELD: &str =
    "spawn a, register a x a.1, deliver a c, deliver c a, deliver a a, deliver a b, deliver a a, deliver b a";

/// Whether this node holds the global lock.
pub(crate) fn is_held(world: &Cluster, node: &Node) -> bool {
    match world.holder() {
        Some(holder) => holder == *node,
        None => false,
    }
}

/// How many members a node at present has.
fn count_members(world: &Cluster, node: &Node) -> Option<usize> {
    Some(world.members(node)?.len())
}

/// Whether a node at present was told that another has left.
fn is_told(world: &Cluster, node: &Node, other: &Node) -> bool {
    match world.told(node) {
        Some(told) => told.contains(other),
        None => false,
    }
}

/// Whether a node at present knows a name.
fn knows(world: &Cluster, node: &Node, name: &Name) -> Option<bool> {
    Some(world.table(node)?.get(name).is_some())
}

/// Whether nobody holds the lock and no letter waits once c has left, whose members stay as they were.
fn shows_departure(world: &Cluster, a: &Node, c: &Node) -> bool {
    world.holder().is_none()
        && world.waiting().is_none()
        && world.nodes().len() == 4
        && world.has_left(c)
        && !world.has_left(a)
        && count_members(world, a) == Some(2)
        && count_members(world, c) == Some(3)
}

/// Whether d was told of it, and the names of c stay as they were.
fn keeps_names(world: &Cluster, c: &Node) -> bool {
    match (parse_node("d"), parse_name("x")) {
        (Ok(d), Ok(x)) => {
            is_told(world, &d, c)
                && knows(world, c, &x) == Some(true)
                && knows(world, &d, &x) == Some(false)
        }
        _ => false,
    }
}

/// Whether a world shows how its nodes stand while `a` holds the lock, and once `c` has left.
fn shows_nodes(alloc: Global, world: &mut Cluster) -> bool {
    match (parse_node("a"), parse_node("c")) {
        (Ok(a), Ok(c)) => {
            is_held(world, &a)
                && plays(alloc, world, "settle, leave c, settle")
                && shows_departure(world, &a, &c)
                && keeps_names(world, &c)
        }
        _ => false,
    }
}

#[test]
fn shows_its_nodes(rt: HostRuntime) {
    assert!(rt; is_so(rt.alloc(), "a,b,c", HELD, Scene::Nodes));
}

/// Whether a node doesn't tell what a process of another node was sent, as if there were no such process.
fn is_no_process(world: &mut Cluster, node: &str, process: &str) -> bool {
    match (parse_node(node), parse_pid(process)) {
        (Ok(node), Ok(process)) => {
            let event = WorldEvent::At(node, LocalEvent::Call(Call::Notices(process)));
            match world.play(&event) {
                Ok(_) => false,
                Err(refusal) => refusal == Refusal::Step(StepFault::NoSuchProcess),
            }
        }
        _ => false,
    }
}

#[test]
fn refuses_to_look_elsewhere(rt: HostRuntime) {
    assert!(rt; is_so(rt.alloc(), "a,b", "spawn a, spawn b", Scene::Elsewhere));
}

/// Whether this text was printed.
pub(crate) fn is_text(printed: Result<String, AllocError>, wanted: &str) -> bool {
    match printed {
        Ok(text) => text.as_str() == wanted,
        Err(_) => false,
    }
}

/// Whether a refusal is shown so.
fn is_shown(alloc: Global, refusal: &Refusal, wanted: &str) -> bool {
    is_text(format!(in alloc; "{refusal}"), wanted)
}

/// Whether that of a node is.
fn is_shown_of_node(alloc: Global, fault: StepFault, wanted: &str) -> bool {
    is_shown(alloc, &Refusal::Step(fault), wanted)
}

#[test]
fn names_its_refusals(rt: HostRuntime) {
    assert!(rt; is_shown(rt.alloc(), &Refusal::NoSuchNode, "no_such_node"));
    assert!(rt; is_shown(rt.alloc(), &Refusal::NodeLeft, "node_left"));
    assert!(rt; is_shown(rt.alloc(), &Refusal::EmptyLink, "empty_link"));
    assert!(rt; is_shown_of_node(rt.alloc(), StepFault::HoldsLock, "holds_lock"));
    assert!(rt; is_shown_of_node(rt.alloc(), StepFault::SerialsSpent, "serials_spent"));
    assert!(rt; is_shown_of_node(rt.alloc(), StepFault::CallsSpent, "calls_spent"));
    assert!(rt; is_shown_of_node(rt.alloc(), StepFault::Memory, "memory"));
}

#[test]
fn names_what_starts_no_world(rt: HostRuntime) {
    let (none, same) = (StartFault::NoNode, StartFault::SameNode);
    let (many, memory) = (StartFault::TooManyNodes, StartFault::Memory);
    let shown = format!(in rt.alloc(); "{none} {same} {many} {memory}");
    assert!(rt; is_text(shown, "no_node same_node too_many_nodes memory"));
}
