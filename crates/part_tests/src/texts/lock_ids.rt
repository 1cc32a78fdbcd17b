//! Worked rows of resources, requesters and ids of locks.
use crate::texts::reading::{are_rising, is_refused, is_text};
use std::alloc::Global;
use term::{
    LockId, Node, Requester, Resource, TextFault, parse_node, parse_requester, parse_resource,
    print_requester, print_resource,
};

/// Whether a text is read as a resource that is printed as it.
fn is_resource(alloc: Global, text: &str) -> bool {
    match parse_resource(text) {
        Ok(resource) => resource.as_str() == text
            && is_text(print_resource(alloc, &resource), text),
        Err(_) => false,
    }
}

/// Whether a text is read as a requester that is printed as it.
fn is_requester(alloc: Global, text: &str) -> bool {
    match parse_requester(text) {
        Ok(requester) => is_text(print_requester(alloc, &requester), text),
        Err(_) => false,
    }
}

/// Whether a resource and a requester are shown so.
fn are_shown(alloc: Global, resource: &str, requester: &str, wanted: &str) -> bool {
    match (parse_resource(resource), parse_requester(requester)) {
        (Ok(resource), Ok(requester)) => {
            is_text(format!(in alloc; "{resource} {requester}"), wanted)
        }
        _ => false,
    }
}

/// Whether what is no resource and no requester is refused, and the others are in order.
fn are_refused_and_rising() -> bool {
    is_refused(parse_resource(""), TextFault::Empty)
        && is_refused(parse_resource("a.b"), TextFault::BadByte(1))
        && is_refused(parse_requester("r 1"), TextFault::BadByte(1))
        && is_refused(parse_requester("r/2"), TextFault::BadByte(1))
        && are_rising(parse_resource("a"), parse_resource("b"))
        && are_rising(parse_requester("ab"), parse_requester("b"))
}

#[test]
fn reads_and_prints(rt: HostRuntime) {
    assert!(rt; is_resource(rt.alloc(), "db_1@disk-2") && is_requester(rt.alloc(), "r1"));
    assert!(rt; are_shown(rt.alloc(), "db_1@disk-2", "r1", "db_1@disk-2 r1"));
    assert!(rt; are_refused_and_rising());
}

/// Whether the registrar of a node asks for `global` in the name of this node, which has this text.
fn asks_for_global(alloc: Global, node: &Node, text: &str) -> bool {
    let id = LockId::global(node);
    id.resource.as_str() == "global"
        && is_text(print_requester(alloc, &id.requester), text)
        && is_text(format!(in alloc; "{}", id.requester), text)
        && id.resource == Resource::global()
        && id.requester == Requester::of_node(node)
}

/// Whether the id of the lock of a node's registrar equals its copy and its clone.
fn is_copied(node: &Node) -> bool {
    let id = LockId::global(node);
    id.copy() == id
        && id.clone().is_ok_and(|clone| clone == id)
        && id.resource.copy() == id.resource
        && id.requester.copy() == id.requester
}

/// Whether the id of the lock of a registrar, whose node has this text, is as it is to be.
fn is_named(alloc: Global, text: &str) -> bool {
    match parse_node(text) {
        Ok(node) => asks_for_global(alloc, &node, text) && is_copied(&node),
        Err(_) => false,
    }
}

/// Whether the registrars of two nodes have locks of their own.
fn are_two(first: &str, second: &str) -> bool {
    match (parse_node(first), parse_node(second)) {
        (Ok(first), Ok(second)) => LockId::global(&first) != LockId::global(&second),
        _ => false,
    }
}

#[test]
fn names_the_registrars_lock(rt: HostRuntime) {
    assert!(rt; is_named(rt.alloc(), "n1@host") && is_named(rt.alloc(), "n1@host/2"));
    assert!(rt; are_two("n1@host", "n2@host") && are_two("n1@host", "n1@host/2"));
}

/// Whether a client's requester is that of the registrar of a node, if both are read.
fn is_of(requester: &str, node: &str) -> Option<bool> {
    match (parse_requester(requester), parse_node(node)) {
        (Ok(requester), Ok(node)) => Some(requester == Requester::of_node(&node)),
        _ => None,
    }
}

#[test]
fn takes_a_text_for_a_first_node(rt: HostRuntime) {
    assert!(rt; is_of("r1", "r1") == Some(true) && is_of("r1", "r1/2") == Some(false));
}
