//! A log of a few steps.
use node_log::{LoggedEntry, LoggedEvent};
use replay::{Answer, Call, LocalEvent, Log, Reply, WorldEvent};
use std::alloc::Global;
use term::{Node, NodeSet, Pid, parse_node, parse_nodes};

/// The answer to the spawn of the first process of a node.
fn spawned(node: &Node) -> Answer {
    let process = Pid {
        node: node.copy(),
        serial: 1,
    };
    Answer {
        node: node.copy(),
        call: 0,
        reply: Reply::Pid(process),
    }
}

/// Gives the last step of a log this one answer.
fn answers(alloc: Global, log: &mut Log, answer: Answer) -> bool {
    let mut answers = Vec::new(alloc);
    if answers.push(answer).is_err() {
        return false;
    }
    log.answer(answers);
    true
}

/// Puts the spawn of a process from seat 3 at the end of a node's log, and two deliveries, of which the second is taken back.
fn logs(alloc: Global, log: &mut Log, a: &Node, b: &Node) -> bool {
    let spawn = WorldEvent::At(b.copy(), LocalEvent::Call(Call::Spawn));
    if log.begin(1, Some(3), spawn).is_err()
        || !answers(alloc, log, spawned(b))
        || log.begin_delivery(4, a).is_err()
        || log.begin_delivery(6, b).is_err()
    {
        return false;
    }
    log.take_back();
    true
}

/// Whether a step is the spawn.
fn is_spawn(entry: LoggedEntry<'_>, node: &Node) -> bool {
    let is_call = match entry.event {
        LoggedEvent::Other(WorldEvent::At(at, LocalEvent::Call(Call::Spawn))) => *at == *node,
        _ => false,
    };
    is_call
        && entry.stamp == 1
        && entry.seat == Some(3)
        && entry.answers.len() == 1
        && entry.answers[0] == spawned(node)
}

/// Whether a step is the delivery of a letter from this node.
fn is_from(entry: LoggedEntry<'_>, sender: &Node) -> bool {
    match entry.event {
        LoggedEvent::Delivery(from) => *from == *sender,
        LoggedEvent::Other(_) => false,
    }
}

/// Whether a step is a delivery from this node.
fn is_delivery(entry: LoggedEntry<'_>, sender: &Node) -> bool {
    is_from(entry, sender) && entry.stamp == 4 && entry.seat.is_none() && entry.answers.is_empty()
}

/// Whether a log has the spawn and the first delivery.
fn has_both(log: &Log, a: &Node, b: &Node) -> bool {
    match (log.get(0), log.get(1), log.get(2)) {
        (Some(first), Some(second), None) => is_spawn(first, b) && is_delivery(second, a),
        _ => false,
    }
}

/// Whether a new log keeps its steps in order.
fn keeps_order(alloc: Global, world: &NodeSet, a: &Node, b: &Node) -> bool {
    let mut log = Log::new(alloc, b.copy(), world);
    log.is_empty()
        && log.get(0).is_none()
        && logs(alloc, &mut log, a, b)
        && log.len() == 2
        && has_both(&log, a, b)
        && *log.node() == *b
}

/// Whether a new log keeps a delivery from a node that its world doesn't have.
fn keeps_stranger(alloc: Global, world: &NodeSet, a: &Node, c: &Node) -> bool {
    let mut log = Log::new(alloc, a.copy(), world);
    log.begin_delivery(1, c).is_ok()
        && match log.get(0) {
            Some(entry) => is_from(entry, c),
            None => false,
        }
}

#[test]
fn keeps_steps_in_order(rt: HostRuntime) {
    match (parse_nodes("a,b"), parse_node("a"), parse_node("b")) {
        (Ok(world), Ok(a), Ok(b)) => {
            let world = NodeSet::first_of(&world);
            assert!(rt; keeps_order(rt.alloc(), &world, &a, &b));
            assert!(rt; keeps_stranger(rt.alloc(), &NodeSet::one(a.copy()), &a, &b));
        }
        _ => assert!(rt; false),
    }
}
