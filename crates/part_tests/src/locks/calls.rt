//! Calls of two processes of one node.
ghost use Rattle.std.specs.Prelude.{◌≡◌, ◌<◌};

use lock_calls::{CallPhase, LockCall, LockCalls};
use locker::Round;
use std::alloc::Global;
use term::{LockId, Node, NodeNames, NodeSet, Pid, parse_node};
use transaction::{Nodes, Retries};

/// The process of a node that has this serial.
fn process(node: &Node, serial: u32) -> Pid
    ensures { result ≡ record { node = node.now; serial = serial } }
{
    Pid {
        node: node.copy(),
        serial,
    }
}

/// The lock call of a process that stands so.
fn call_of(holder: &Pid, number: u32, phase: CallPhase) -> LockCall
    ensures { result.holder ≡ holder.now }
{
    LockCall {
        holder: holder.copy(),
        number,
        id: LockId::global(&holder.node),
        nodes: Nodes::All,
        retries: Retries::Endless,
        phase,
    }
}

/// Puts the call of a process that stands so, if there is memory.
fn puts(calls: &mut LockCalls, holder: &Pid, number: u32, phase: CallPhase) -> bool
    requires own { holder.now.node ≡ calls.old.node }
    requires live { 0 < holder.now.serial }
    ensures { calls.new.node ≡ calls.old.node }
{
    calls.put(call_of(holder, number, phase)).is_ok()
}

/// Whether a process has the call of this number.
fn has_call(calls: &LockCalls, holder: &Pid, number: u32) -> bool {
    match calls.get(holder) {
        Some(call) => call.number == number,
        None => false,
    }
}

/// Whether a process has no call, and none is taken.
fn has_none(calls: &mut LockCalls, holder: &Pid) -> bool {
    calls.get(holder).is_none() && calls.take(holder).is_none()
}

/// Whether these two processes have calls.
fn are_holders(alloc: Global, calls: &LockCalls, first: &Pid, second: &Pid) -> bool {
    match calls.holders(alloc) {
        Ok(holders) => holders.as_slice() == [first.copy(), second.copy()].as_slice(),
        Err(_) => false,
    }
}

/// Whether the calls of a node keep one call of each of two processes.
fn keep_one(alloc: Global, node: &Node, other: &Node) -> bool {
    let (p, q) = (process(node, 1), process(node, 2));
    let mut calls = LockCalls::new(alloc, node.copy());
    puts(&mut calls, &q, 1, CallPhase::Waiting)
        && puts(&mut calls, &p, 2, CallPhase::Waiting)
        && puts(&mut calls, &q, 3, CallPhase::Waiting)
        && has_call(&calls, &p, 2)
        && has_call(&calls, &q, 3)
        && are_holders(alloc, &calls, &p, &q)
        && has_none(&mut calls, &process(other, 1))
        && calls.take(&q).is_some()
        && has_none(&mut calls, &q)
        && has_call(&calls, &p, 2)
}

/// Whether the calls of a node tell that one waits, and none where one deletes and another asks.
fn tell_waiting(alloc: Global, node: &Node) -> bool {
    let members = NodeSet::one(node.copy());
    let (p, q) = (process(node, 1), process(node, 2));
    let mut calls = LockCalls::new(alloc, node.copy());
    puts(&mut calls, &p, 1, CallPhase::Deleting(members.copy()))
        && puts(&mut calls, &q, 2, CallPhase::Asking(Round::begin(&members)))
        && !calls.has_waiting()
        && puts(&mut calls, &q, 2, CallPhase::Waiting)
        && calls.has_waiting()
}

/// Whether the copy of a call is the same, with nodes in memory of its own.
fn is_copied(call: &LockCall) -> bool {
    match call.copy() {
        Ok(copy) => {
            copy.holder == call.holder
                && copy.number == call.number
                && copy.nodes == call.nodes
                && copy.phase.is_waiting()
        }
        Err(_) => false,
    }
}

/// Whether a call that names its node is copied.
fn copies(alloc: Global, holder: &Pid) -> bool {
    match Nodes::named(alloc, NodeNames::of(&NodeSet::one(holder.node.copy()))) {
        Ok(Some(nodes)) => {
            let mut call = call_of(holder, 1, CallPhase::Waiting);
            call.nodes = nodes;
            is_copied(&call)
        }
        _ => false,
    }
}

/// Whether a copy of calls keeps a call that is taken out of them.
fn copy_keeps(alloc: Global, node: &Node) -> bool {
    let holder = process(node, 1);
    let mut calls = LockCalls::new(alloc, node.copy());
    if !puts(&mut calls, &holder, 1, CallPhase::Waiting) {
        return false;
    }
    match calls.copy() {
        Ok(copy) => {
            calls.take(&holder).is_some()
                && calls.is_empty()
                && copy.len() == 1
                && has_call(&copy, &holder, 1)
        }
        Err(_) => false,
    }
}

/// Whether a call that waits asks again, loses its node and waits again.
fn asks_again(alloc: Global, node: &Node) -> bool {
    let holder = process(node, 1);
    let mut calls = LockCalls::new(alloc, node.copy());
    if !puts(&mut calls, &holder, 1, CallPhase::Waiting) {
        return false;
    }
    calls.ask_again(&holder, Round::begin(&NodeSet::one(node.copy())));
    let asks = !calls.has_waiting();
    calls.lose(&holder, node);
    calls.wait(&holder);
    asks && calls.has_waiting()
}

#[test]
fn keeps_one_call_of_a_process(rt: HostRuntime) {
    match (parse_node("a"), parse_node("b")) {
        (Ok(a), Ok(b)) => {
            assert!(rt; keep_one(rt.alloc(), &a, &b));
            assert!(rt; tell_waiting(rt.alloc(), &a));
            assert!(rt; copies(rt.alloc(), &process(&a, 1)));
            assert!(rt; copy_keeps(rt.alloc(), &a));
            assert!(rt; asks_again(rt.alloc(), &a));
        }
        _ => assert!(rt; false),
    }
}
