//! Worked rows of names, of names of nodes, of nodes and of processes.
use crate::texts::reading::{are_rising, is_refused, is_text};
use std::alloc::Global;
use term::{
    Node, Pid, TextFault, parse_name, parse_node, parse_node_name, parse_pid, print_name,
    print_node, print_node_name, print_pid,
};

/// A text of 64 bytes.
const LONGEST: &str = "aB3_-@6789aB3_-@6789aB3_-@6789aB3_-@6789aB3_-@6789aB3_-@67891234";

/// One of 65.
const LONGER: &str = "aB3_-@6789aB3_-@6789aB3_-@6789aB3_-@6789aB3_-@6789aB3_-@678912345";

/// Whether a text is read as a name that is printed as it.
fn is_name(alloc: Global, text: &str) -> bool {
    match parse_name(text) {
        Ok(name) => name.as_str() == text && is_text(print_name(alloc, &name), text),
        Err(_) => false,
    }
}

/// Whether a text is read as the name of a node that is printed as it.
fn is_node_name(alloc: Global, text: &str) -> bool {
    match parse_node_name(text) {
        Ok(name) => name.as_str() == text && is_text(print_node_name(alloc, &name), text),
        Err(_) => false,
    }
}

/// Whether a node has this name and this creation.
fn has_parts(node: &Node, name: &str, creation: u32) -> bool {
    node.name().as_str() == name && node.creation() == creation
}

/// Whether a text is read as the node of this name and creation, and printed as it.
fn is_node(alloc: Global, text: &str, name: &str, creation: u32) -> bool {
    match parse_node(text) {
        Ok(node) => has_parts(&node, name, creation) && is_text(print_node(alloc, &node), text),
        Err(_) => false,
    }
}

/// Whether a text is read as the process of this node and serial, and printed as it.
fn is_process(alloc: Global, text: &str, node: &str, serial: u32) -> bool {
    match parse_pid(text) {
        Ok(pid) => {
            is_text(print_node(alloc, &pid.node), node)
                && pid.serial == serial
                && serial != 0
                && is_text(print_pid(alloc, &pid), text)
        }
        Err(_) => false,
    }
}

/// Whether a name, a process and its node are shown as they were read.
fn are_shown(alloc: Global, name: &str, process: &str, wanted: &str) -> bool {
    match (parse_name(name), parse_pid(process)) {
        (Ok(name), Ok(pid)) => is_text(format!(in alloc; "{name} {pid} {}", pid.node), wanted),
        _ => false,
    }
}

/// Whether names, and those of nodes, are.
fn are_names(alloc: Global) -> bool {
    is_name(alloc, LONGEST)
        && is_name(alloc, "db")
        && is_node_name(alloc, LONGEST)
        && is_node_name(alloc, "n1@host")
}

/// Whether nodes are.
fn are_nodes(alloc: Global) -> bool {
    is_node(alloc, LONGEST, LONGEST, 1)
        && is_node(alloc, "n1@host/2", "n1@host", 2)
        && is_node(alloc, "a/4294967295", "a", 4_294_967_295)
}

/// Whether processes are.
fn are_processes(alloc: Global) -> bool {
    is_process(alloc, "a/2.7", "a/2", 7)
        && is_process(alloc, "a.4294967295", "a", 4_294_967_295)
        && is_process(alloc, "n1@host.120", "n1@host", 120)
        && are_shown(alloc, "db", "n1@host.120", "db n1@host.120 n1@host")
        && are_shown(alloc, "db", "a/20.1", "db a/20.1 a/20")
}

#[test]
fn reads_and_prints(rt: HostRuntime) {
    assert!(rt; are_names(rt.alloc()));
    assert!(rt; are_nodes(rt.alloc()));
    assert!(rt; are_processes(rt.alloc()));
}

/// Whether a text is refused as a name, as that of a node and as a node, each with this fault.
fn is_no_name(text: &str, fault: TextFault) -> bool {
    is_refused(parse_name(text), fault)
        && is_refused(parse_node_name(text), fault)
        && is_refused(parse_node(text), fault)
}

/// Whether nodes and processes whose name is bad are refused.
fn are_no_nodes() -> bool {
    is_refused(parse_node_name("a/2"), TextFault::BadByte(1))
        && is_refused(parse_node("a!/2"), TextFault::BadByte(1))
        && is_refused(parse_pid("a!b.1"), TextFault::BadByte(1))
        && is_refused(parse_pid(""), TextFault::Empty)
}

#[test]
fn tells_where_names_are_bad(rt: HostRuntime) {
    assert!(rt; is_no_name(LONGER, TextFault::TooLong) && is_no_name("", TextFault::Empty));
    assert!(rt; is_no_name("a b!", TextFault::BadByte(1)));
    assert!(rt; are_no_nodes());
}

/// Whether the names of a row rise.
fn names_rise(first: &str, second: &str) -> bool {
    are_rising(parse_name(first), parse_name(second))
}

/// Whether the processes of a row do.
fn processes_rise(first: &str, second: &str) -> bool {
    are_rising(parse_pid(first), parse_pid(second))
}

/// Whether the nodes of a row do.
fn nodes_rise(first: &str, second: &str) -> bool {
    are_rising(parse_node(first), parse_node(second))
}

#[test]
fn orders_by_bytes_and_by_numbers(rt: HostRuntime) {
    assert!(rt; names_rise("ab", "b") && names_rise("a", "ab"));
    assert!(rt; processes_rise("a.9", "b.7") && processes_rise("b.7", "b.8"));
    assert!(rt; processes_rise("b.9", "b.10") && processes_rise("b.9", "b/2.1"));
    assert!(rt; nodes_rise("b", "b/2") && nodes_rise("b/9", "b/10"));
    assert!(rt; nodes_rise("a/4294967295", "a@"));
}

/// Whether a process equals its copy and its clone.
fn is_copied(pid: &Pid) -> bool {
    pid.copy() == *pid && pid.clone().is_ok_and(|clone| clone == *pid)
}

#[test]
fn copies_and_clones(rt: HostRuntime) {
    match parse_pid("b.7") {
        Ok(pid) => assert!(rt; is_copied(&pid)),
        Err(_) => assert!(rt; false),
    }
}

/// Whether a node has this next one, or none where the text is empty.
fn has_next(node: &Node, next: &str) -> bool {
    match (node.next(), parse_node(next)) {
        (Some(found), Ok(wanted)) => found == wanted,
        (None, Err(fault)) => fault == TextFault::Empty,
        _ => false,
    }
}

/// Whether the node of a text has this next one, or none where that is empty.
fn is_next(text: &str, next: &str) -> bool {
    match parse_node(text) {
        Ok(node) => has_next(&node, next),
        Err(_) => false,
    }
}

/// Whether a node is the first of the name `a`, if it is read.
fn is_first_of_a(text: &str) -> Option<bool> {
    match (parse_node(text), parse_node_name("a")) {
        (Ok(node), Ok(name)) => Some(node.is_first_of(&name)),
        _ => None,
    }
}

#[test]
fn counts_creations(rt: HostRuntime) {
    assert!(rt; is_next("a", "a/2") && is_next("a/4294967294", "a/4294967295"));
    assert!(rt; is_next("a/4294967295", ""));
    assert!(rt; is_first_of_a("a") == Some(true) && is_first_of_a("a/2") == Some(false));
    assert!(rt; is_first_of_a("ab") == Some(false));
}
