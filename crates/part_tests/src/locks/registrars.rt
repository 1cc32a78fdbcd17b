//! A registrar that works its queue off.
use name_table::{Change, Pair};
use std::alloc::Global;
use term::{Node, NodeSet, Rule, parse_name, parse_node, parse_nodes, parse_pid};
use transaction::{NameCall, Op, Registrar};

/// The name `x` of a process, which is told if it loses the name.
fn pair(owner: &str) -> Option<Pair> {
    match (parse_name("x"), parse_pid(owner)) {
        (Ok(name), Ok(owner)) => Some(Pair {
            name,
            owner,
            rule: Rule::Notify,
        }),
        _ => None,
    }
}

/// Whether the operation of a call of this number is current.
fn is_current(registrar: &Registrar, number: u32, call: &NameCall) -> bool {
    match registrar.current() {
        Some(op) => *op == Op::Name(number, call.copy()),
        None => false,
    }
}

/// Whether two calls are put in, and the first becomes current alone.
fn starts(registrar: &mut Registrar, call: &NameCall) -> bool {
    !registrar.start(None)
        && registrar.enqueue(Op::Name(1, call.copy())).is_ok()
        && registrar.enqueue(Op::Name(2, call.copy())).is_ok()
        && registrar.current().is_none()
        && registrar.start(None)
        && !registrar.start(None)
        && is_current(registrar, 1, call)
}

/// Whether the current operation is done once both nodes have carried it out, each once.
fn awaits(registrar: &mut Registrar, both: &NodeSet, a: &Node, b: &Node) -> bool {
    if registrar.current().is_none() {
        return false;
    }
    registrar.await_from(both);
    registrar.applied(b)
        && !registrar.applied(b)
        && !registrar.is_done()
        && registrar.applied(a)
        && registrar.is_done()
}

/// Whether the second becomes current when the first has ended.
fn goes_on(registrar: &mut Registrar, call: &NameCall) -> bool {
    if registrar.current().is_none() {
        return false;
    }
    registrar.finish();
    registrar.current().is_none() && registrar.start(None) && is_current(registrar, 2, call)
}

/// Whether a copy of a registrar goes on.
fn copy_goes_on(registrar: &Registrar, call: &NameCall) -> bool {
    match registrar.copy() {
        Ok(mut copy) => { copy.waiting() == 1 && !copy.next_is_join() && goes_on(&mut copy, call) }
        Err(_) => false,
    }
}

/// Whether an operation is its copy.
fn is_copied(op: &Op) -> bool {
    match op.copy() {
        Ok(copy) => copy == *op,
        Err(_) => false,
    }
}

/// Whether an admission with a name is its copy.
fn admission_is_copied(alloc: Global) -> bool {
    match (parse_node("b"), pair("b.1")) {
        (Ok(joiner), Some(pair)) => {
            let mut pairs = Vec::new(alloc);
            pairs.push(pair).is_ok() && is_copied(&Op::Admission(joiner, pairs))
        }
        _ => false,
    }
}

/// Whether a call is its copy, and puts the pair.
fn is_put(call: &NameCall, pair: &Pair) -> bool {
    call.copy() == *call && call.change() == Change::Put(pair.copy())
}

/// Whether a new registrar carries out two calls, one after the other.
fn carries_out(alloc: Global, call: &NameCall) -> bool {
    let mut registrar = Registrar::new(alloc);
    match (parse_nodes("a,b"), parse_node("a"), parse_node("b")) {
        (Ok(both), Ok(a), Ok(b)) => {
            let both = NodeSet::first_of(&both);
            starts(&mut registrar, call)
                && awaits(&mut registrar, &both, &a, &b)
                && copy_goes_on(&registrar, call)
                && goes_on(&mut registrar, call)
        }
        _ => false,
    }
}

#[test]
fn carries_out_what_waits(rt: HostRuntime) {
    match pair("a.1") {
        Some(pair) => {
            let call = NameCall::Register(pair.copy());
            assert!(rt; is_put(&call, &pair));
            assert!(rt; carries_out(rt.alloc(), &call));
            assert!(rt; admission_is_copied(rt.alloc()));
        }
        None => assert!(rt; false),
    }
}
