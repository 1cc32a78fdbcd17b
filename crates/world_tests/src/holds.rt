//! When a node may leave: at each moment of some scripts, but in its hold of the global lock.
use crate::worlds::{Cluster, ENOUGH, NOTHING, Scene, event_of, is_held, is_so, is_written};
use cluster_world::{LocalEvent, Refusal, StepFault, WorldEvent};
use std::alloc::Global;
use term::{Node, parse_node};

/// Plays an event, and puts it behind the others. Whether it was taken.
fn plays_on(world: &mut Cluster, events: &mut Vec<WorldEvent>, event: WorldEvent) -> bool {
    world.play(&event).is_ok() && events.push(event).is_ok()
}

/// Delivers what waits until nothing does, each letter by an event of its own. Whether all that was taken.
fn settles_on(world: &mut Cluster, events: &mut Vec<WorldEvent>) -> bool {
    for _ in 0..ENOUGH {
        let Some((sender, receiver)) = world.waiting() else {
            return true;
        };
        if !plays_on(world, events, WorldEvent::Deliver(sender, receiver)) {
            return false;
        }
    }
    false
}

/// Plays the lines of a script, parted by commas, and writes their events down, of a `settle` each delivery. Whether all were taken.
pub(crate) fn writes_out(
    alloc: Global,
    world: &mut Cluster,
    lines: &str,
    events: &mut Vec<WorldEvent>,
) -> bool {
    for line in lines.split(", ") {
        let is_played = match event_of(alloc, line) {
            Some(event) => plays_on(world, events, event),
            None => line == "settle" && settles_on(world, events),
        };
        if !is_played {
            return false;
        }
    }
    true
}

/// Whether a node has no members but itself: so it has the lock of nobody else.
fn is_alone(world: &Cluster, node: &Node) -> bool {
    match world.members(node) {
        Some(members) => members.len() == 1,
        None => false,
    }
}

/// Whether a node may leave exactly where it doesn't hold the lock.
fn leaves_out_of_hold(world: &mut Cluster, node: &Node) -> bool {
    let is_held = is_held(world, node);
    match world.play(&WorldEvent::At(node.copy(), LocalEvent::Leave)) {
        Ok(_) => !is_held,
        Err(refusal) => is_held && refusal == Refusal::Step(StepFault::HoldsLock),
    }
}

/// Whether it is so of a node, if it is joined, in a world that plays these events first.
pub(crate) fn leaves_behind(world: &mut Cluster, events: &[WorldEvent], node: &Node) -> bool {
    world.run(events).refusal.is_none()
        && (is_alone(world, node) || leaves_out_of_hold(world, node))
}

/// Whether it is so of each of these nodes, parted by blanks.
fn all_leave_behind(alloc: Global, cluster: &str, events: &[WorldEvent], nodes: &str) -> bool {
    for text in nodes.split(' ') {
        let leaves = match parse_node(text) {
            Ok(node) => is_so(alloc, cluster, NOTHING, Scene::Left(events, &node)),
            Err(_) => false,
        };
        if !leaves {
            return false;
        }
    }
    true
}

/// Whether it is so behind each beginning of some events.
fn leave_behind_each(alloc: Global, cluster: &str, events: &[WorldEvent], nodes: &str) -> bool {
    for count in 0..events.len() {
        if !all_leave_behind(alloc, cluster, &events[..count], nodes) {
            return false;
        }
    }
    all_leave_behind(alloc, cluster, events, nodes)
}

/// Whether it is so at each moment of a script.
fn leave_at_each_moment(alloc: Global, cluster: &str, lines: &str, nodes: &str) -> bool {
    let mut events = Vec::new(alloc);
    is_written(alloc, cluster, NOTHING, Scene::Written(lines), &mut events)
        && leave_behind_each(alloc, cluster, events.as_slice(), nodes)
}

/// Two nodes ask for the lock at once.
const RIVALS: &str =
    "spawn a, spawn b, register a x a.1, register b x b.1, deliver b c, settle, retry a, settle";

/// A lone node joins, whose process has a name of the cluster's.
const CLASH: &str = "\
spawn a, spawn d, spawn d, register a x a.1, register d x d.1, register d z d.2, settle, join d a, settle";

/// A round is begun before a join, and ends behind it.
const OUTGROWN: &str = "\
spawn a, register a x a.1, join d b, deliver d b, deliver b c, deliver c b, deliver b a, deliver b b, deliver a b, \
deliver b b, deliver b a, deliver b b, deliver b c, deliver b d, deliver a b, deliver b b, deliver c b, deliver d b, \
deliver b c, settle, retry a, settle";

#[test]
fn leaves_are_refused_in_a_hold_alone(rt: HostRuntime) {
    assert!(rt; leave_at_each_moment(rt.alloc(), "a,b,c", RIVALS, "a b c d"));
    assert!(rt; leave_at_each_moment(rt.alloc(), "a,b", CLASH, "a b d"));
    assert!(rt; leave_at_each_moment(rt.alloc(), "a,b,c", OUTGROWN, "a b c d"));
}
