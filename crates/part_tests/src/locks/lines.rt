//! Lines of lock calls that wait at a server, and what it counts of grants.
use lock_lines::{Bell, Grant, Grants, LinePlace, LockLines, Request, WaitingCalls};
use std::alloc::{AllocError, Global};
use std::sync::{Arc, Wait};
use term::{LockId, Node, NodeSet, Pid, Requester, Resource, parse_node};

/// What is asked for by a process of a node, in the name of another node, of these nodes.
fn request(node: &Node, serial: u32, requester: &Node, nodes: &NodeSet) -> Request {
    Request {
        holder: Pid {
            node: node.copy(),
            serial,
        },
        id: LockId {
            resource: Resource::global(),
            requester: Requester::of_node(requester),
        },
        nodes: nodes.copy(),
    }
}

/// A call for it enters a line: its number there.
fn enter(alloc: Global, line: &mut WaitingCalls, request: Request) -> Result<u64, AllocError> {
    let bell = Arc::new(alloc, Bell::new())?;
    line.enter(request, false, bell)
}

/// These two nodes.
fn both(a: &Node, b: &Node) -> NodeSet {
    let mut nodes = NodeSet::one(a.copy());
    let _ = nodes.insert(b.copy());
    nodes
}

/// The numbers of four calls in a line.
#[derive(Clone, Copy)]
struct Four {
    first: u64,
    second: u64,
    third: u64,
    nested: u64,
}

/// Four calls enter a line. The fourth asks in the first one's name.
fn enter_four(
    alloc: Global,
    line: &mut WaitingCalls,
    a: &Node,
    b: &Node,
) -> Result<Four, AllocError> {
    let first = enter(alloc, line, request(a, 9, a, &NodeSet::one(a.copy())))?;
    let second = enter(alloc, line, request(a, 2, b, &both(a, b)))?;
    let third = enter(alloc, line, request(b, 1, a, &NodeSet::one(b.copy())))?;
    let nested = enter(alloc, line, request(a, 3, a, &NodeSet::one(a.copy())))?;
    Ok(Four {
        first,
        second,
        third,
        nested,
    })
}

/// Whether they go in the order in which they came, those that have a node in common, and one passes whose requester is the next.
fn take_turns(line: &mut WaitingCalls, next: &Request, calls: Four) -> bool {
    let begins = line.may_go(calls.first)
        && !line.may_go(calls.second)
        && !line.may_go(calls.third)
        && !line.may_go(calls.nested);
    line.let_pass(next);
    let passes = line.may_go(calls.nested)
        && !line.may_go(calls.third)
        && !line.may_go(calls.second);
    line.leave(calls.first);
    let goes = line.may_go(calls.second) && !line.may_go(calls.third) && line.may_go(calls.first);
    line.leave(calls.second);
    begins && passes && goes && line.may_go(calls.third)
}

/// Whether four calls do so in a new line.
fn go_in_turn(alloc: Global, a: &Node, b: &Node) -> bool {
    let mut line = WaitingCalls::new(alloc);
    match enter_four(alloc, &mut line, a, b) {
        Ok(calls) => {
            let next = request(a, 9, a, &NodeSet::one(a.copy()));
            take_turns(&mut line, &next, calls)
        }
        Err(_) => false,
    }
}

/// The grant of such a request at a node.
fn grant(request: &Request, node: &Node) -> Grant {
    Grant {
        holder: request.holder.copy(),
        resource: request.id.resource.copy(),
        requester: request.id.requester.copy(),
        node: node.copy(),
    }
}

/// Whether there is memory for the grant of what is asked for.
fn notes(grants: &mut Grants, request: &Request, node: &Node) -> bool {
    grants.note(grant(request, node)).is_ok()
}

/// Whether somebody has what is asked for.
fn is_held(grants: &Grants, request: &Request) -> bool {
    grants.holds(&request.id, &request.nodes)
}

/// Whether a grant that was given twice stays once it is given back, and is gone then.
fn counts_each(grants: &mut Grants, one: &Request, other: &Request, a: &Node) -> bool {
    if !notes(grants, one, a) || !notes(grants, one, a) {
        return false;
    }
    grants.take(&grant(one, a));
    let stays = is_held(grants, one) && !is_held(grants, other);
    grants.take(&grant(one, a));
    stays && !is_held(grants, one)
}

/// Whether a grant is gone with its process, and another with its node.
fn goes_with_its_own(
    grants: &mut Grants,
    one: &Request,
    other: &Request,
    a: &Node,
    b: &Node,
) -> bool {
    if !notes(grants, one, a) || !notes(grants, other, b) {
        return false;
    }
    grants.drop_holder(&one.holder);
    let dies = !is_held(grants, one) && is_held(grants, other);
    grants.drop_node(b);
    dies && !is_held(grants, other)
}

/// Whether grants are counted, one by one, until they are given back, their process dies or their node leaves.
fn counts_grants(alloc: Global, a: &Node, b: &Node) -> bool {
    let one = request(a, 1, a, &NodeSet::one(a.copy()));
    let other = request(a, 2, b, &both(a, b));
    let mut grants = Grants::new(alloc);
    counts_each(&mut grants, &one, &other, a) && goes_with_its_own(&mut grants, &one, &other, a, b)
}

/// Whether the turn of the first of two calls has come alone, also behind a rest.
fn waits_behind<R: Wait>(rt: &R, lines: &LockLines, first: &LinePlace, second: &LinePlace) -> bool {
    second.rest(rt);
    lines.has_come(rt, first) && !lines.has_come(rt, second)
}

/// Whether a call for what was asked for has its turn at once.
fn passes<R: Wait>(rt: &R, lines: &LockLines, asked: &Request) -> bool {
    if lines.ask(rt, asked).is_err() {
        return false;
    }
    match lines.enter(rt, asked) {
        Ok(nested) => lines.has_come(rt, &nested),
        Err(_) => false,
    }
}

/// Whether the call that stands behind another has its turn when that has left, and one whose requester was asked for a lock has it at once.
fn follows<R: Wait>(
    rt: &R,
    lines: &LockLines,
    asked: &Request,
    first: LinePlace,
    second: &LinePlace,
) -> bool {
    let waits = waits_behind(rt, lines, &first, second);
    let passes = passes(rt, lines, asked);
    lines.leave(rt, first);
    waits && passes && lines.has_come(rt, second)
}

/// Whether the only call in line, whose turn has come, is told once that its lock may be free, for each cause: another has given a lock back at a
/// node of its own, or has died, or a node has left, or anything may be free. It isn't told where the other was refused.
fn is_told<R: Wait>(rt: &R, lines: &LockLines, turn: &LinePlace, other: &Request) -> bool {
    let untold = !turn.was_freed() && lines.has_come(rt, turn);
    let asked = lines.ask(rt, other).is_ok();
    lines.take_back(rt, other);
    let refused = turn.was_freed();
    lines.give_back(rt, other);
    let given_back = turn.was_freed() && !turn.was_freed();
    let asked_again = lines.ask(rt, other).is_ok();
    lines.bury(rt, &other.holder);
    let dead = turn.was_freed();
    lines.forget(rt, &other.holder.node);
    let left = turn.was_freed();
    lines.look_again(rt);
    untold && asked && !refused && given_back && asked_again && dead && left && turn.was_freed()
}

/// Whether a call is told so that is for a lock of two nodes, of one at the first of them.
fn hears_of_free_locks<R: Wait>(rt: &R, alloc: Global, a: &Node, b: &Node) -> bool {
    let lines = LockLines::new(alloc);
    match lines.enter(rt, &request(a, 2, a, &both(a, b))) {
        Ok(turn) => is_told(
            rt,
            &lines,
            &turn,
            &request(a, 1, b, &NodeSet::one(a.copy())),
        ),
        Err(_) => false,
    }
}

/// Whether two calls do so in new lines.
fn come_in_turn<R: Wait>(rt: &R, alloc: Global, a: &Node, b: &Node) -> bool {
    let lines = LockLines::new(alloc);
    let nodes = both(a, b);
    let one = request(a, 2, a, &nodes);
    match (
        lines.enter(rt, &one),
        lines.enter(rt, &request(a, 1, b, &nodes)),
    ) {
        (Ok(first), Ok(second)) => follows(rt, &lines, &one, first, &second),
        _ => false,
    }
}

#[test]
fn calls_go_in_the_order_in_which_they_came(rt: HostRuntime) {
    match (parse_node("a"), parse_node("b")) {
        (Ok(a), Ok(b)) => {
            assert!(rt; go_in_turn(rt.alloc(), &a, &b));
            assert!(rt; counts_grants(rt.alloc(), &a, &b));
            assert!(rt; come_in_turn(&rt, rt.alloc(), &a, &b));
            assert!(rt; hears_of_free_locks(&rt, rt.alloc(), &a, &b));
        }
        _ => assert!(rt; false),
    }
}
