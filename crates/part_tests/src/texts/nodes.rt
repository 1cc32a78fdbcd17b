//! Sets of nodes, and worked rows of their lists.
use crate::texts::reading::{is_refused, is_text};
use std::alloc::Global;
use term::{
    MOST_NODES, Node, NodeNames, NodeSet, TextFault, parse_node, parse_node_name, parse_nodes,
    print_nodes,
};

/// Whether a list is read as this set.
fn spells(list: &str, nodes: &NodeNames) -> bool {
    match parse_nodes(list) {
        Ok(read) => read == *nodes,
        Err(_) => false,
    }
}

/// Whether a set is shown so, and that of its names is printed so, has as many and is read from that again.
fn is_shown(alloc: Global, nodes: &NodeSet, wanted: &str) -> bool {
    let names = NodeNames::of(nodes);
    !names.is_empty()
        && names.len() == nodes.len()
        && is_text(print_nodes(alloc, &names), wanted)
        && is_text(format!(in alloc; "{nodes}"), wanted)
        && spells(wanted, &names)
}

/// Lists, and how the sets of them are shown.
const LISTS: &str = "\
a=a
all,all=all
c,a,b,a=a,b,c
b,ab,a@x,B=B,a@x,ab,b
h,g,f,e,d,c,b,a=a,b,c,d,e,f,g,h
a,b,c,d,e,f,g,h,d=a,b,c,d,e,f,g,h
";

/// Whether the set of the list of a row is shown as behind it.
fn is_list(alloc: Global, row: &str) -> bool {
    let Some((list, shown)) = row.split_once('=') else {
        return false;
    };
    match parse_nodes(list) {
        Ok(names) => is_shown(alloc, &NodeSet::first_of(&names), shown),
        Err(_) => false,
    }
}

#[test]
fn reads_and_shows_lists(rt: HostRuntime) {
    for row in LISTS.lines() {
        assert!(rt; is_list(rt.alloc(), row), "{row}");
    }
}

/// Whether lists that are bad are refused.
fn are_no_lists() -> bool {
    is_refused(parse_nodes("b,a/2"), TextFault::BadByte(1))
        && is_refused(parse_nodes("a,b,c,d,e,f,g,h,i,!"), TextFault::BadByte(0))
        && is_refused(parse_nodes("a,,b"), TextFault::Empty)
        && is_refused(parse_nodes("a,b,c,d,e,f,g,h,i"), TextFault::TooManyNodes)
}

#[test]
fn tells_where_lists_are_bad(rt: HostRuntime) {
    assert!(rt; are_no_lists());
}

/// What comes of putting a node in: whether it is new, or why it is refused.
fn insert(nodes: &mut NodeSet, node: &str) -> Result<bool, TextFault> {
    nodes.insert(parse_node(node)?)
}

/// Puts eight nodes into an empty set: whether each of them is new.
fn fills(nodes: &mut NodeSet) -> bool {
    for node in "f b h d a g c e".split(' ') {
        if insert(nodes, node) != Ok(true) {
            return false;
        }
    }
    true
}

/// Whether the first node of a name is at this place of a set, and in it.
fn is_at(nodes: &NodeSet, name: &str, place: usize) -> bool {
    match parse_node_name(name) {
        Ok(name) => {
            let node = Node::first(name.copy());
            nodes.position(&node) == Some(place) && nodes.contains(&node) && nodes.has_name(&name)
        }
        Err(_) => false,
    }
}

/// Whether no node of a name is in a set.
fn is_absent(nodes: &NodeSet, name: &str) -> bool {
    match parse_node_name(name) {
        Ok(name) => {
            let is_named = nodes.has_name(&name) || NodeNames::of(nodes).contains(&name);
            let node = Node::first(name);
            nodes.position(&node).is_none() && !nodes.contains(&node) && !is_named
        }
        Err(_) => false,
    }
}

/// Whether a node is this one.
fn is_node(node: Option<&Node>, wanted: &str) -> bool {
    match node {
        Some(node) => node.name().as_str() == wanted,
        None => false,
    }
}

/// Whether an empty set takes eight nodes, each once, and no ninth.
fn takes_eight(nodes: &mut NodeSet) -> bool {
    nodes.is_empty()
        && nodes.greatest().is_none()
        && fills(nodes)
        && nodes.len() == MOST_NODES
        && insert(nodes, "d") == Ok(false)
        && insert(nodes, "i") == Err(TextFault::TooManyNodes)
}

/// Whether a set has these eight at their places.
fn has_eight(nodes: &NodeSet) -> bool {
    is_node(nodes.greatest(), "h")
        && is_at(nodes, "a", 0)
        && is_at(nodes, "c", 2)
        && is_absent(nodes, "i")
}

#[test]
fn holds_eight_nodes(rt: HostRuntime) {
    let mut nodes = NodeSet::empty();
    assert!(rt; takes_eight(&mut nodes) && has_eight(&nodes));
    assert!(rt; is_shown(rt.alloc(), &nodes, "a,b,c,d,e,f,g,h"));
}

/// Whether a set of eight nodes loses its first once, is then another than its copy, and has room for a ninth.
fn loses(nodes: &mut NodeSet, first: &Node) -> bool {
    let before = nodes.copy();
    before == *nodes
        && nodes.remove(first)
        && !nodes.remove(first)
        && before != *nodes
        && insert(nodes, "i") == Ok(true)
}

/// Whether an empty set that takes eight nodes loses the first.
fn fills_and_loses(nodes: &mut NodeSet, first: &Node) -> bool {
    fills(nodes)
        && loses(nodes, first)
        && is_node(nodes.as_slice().first(), "b")
        && is_absent(nodes, "a")
}

#[test]
fn takes_nodes_out(rt: HostRuntime) {
    match parse_node("a") {
        Ok(first) => {
            assert!(rt; fills_and_loses(&mut NodeSet::empty(), &first));
            assert!(rt; spells("a", &NodeNames::of(&NodeSet::one(first))));
        }
        Err(_) => assert!(rt; false),
    }
}

/// Whether of the nodes of one list these are named by another.
fn are_named(list: &str, names: &str, wanted: &str) -> bool {
    match (parse_nodes(list), parse_nodes(names)) {
        (Ok(nodes), Ok(names)) => {
            let named = NodeSet::first_of(&nodes).named(&names.copy());
            match parse_nodes(wanted) {
                Ok(wanted) => NodeNames::of(&named) == wanted,
                Err(_) => named.is_empty() && wanted.is_empty(),
            }
        }
        _ => false,
    }
}

#[test]
fn names_some_nodes(rt: HostRuntime) {
    assert!(rt; are_named("a,b,c", "d,c,a", "a,c"));
    assert!(rt; are_named("a,b", "c", ""));
    assert!(rt; NodeSet::first_of(&NodeNames::empty()).is_empty());
}

/// Puts the nodes of a list, which are written with their creations, into a set.
fn insert_all(nodes: &mut NodeSet, list: &str) -> Result<(), TextFault> {
    for node in list.split(' ') {
        insert(nodes, node)?;
    }
    Ok(())
}

/// The set of these nodes.
fn set_of(list: &str) -> Result<NodeSet, TextFault> {
    let mut nodes = NodeSet::empty();
    insert_all(&mut nodes, list)?;
    Ok(nodes)
}

/// Whether a set is that of a list.
fn is_set(nodes: &NodeSet, list: &str) -> bool {
    match set_of(list) {
        Ok(wanted) => *nodes == wanted,
        Err(_) => false,
    }
}

/// Whether a set has nodes of the name `a`, but not the first.
fn has_later_ones(nodes: &NodeSet) -> bool {
    match (parse_node_name("a"), parse_node("a")) {
        (Ok(name), Ok(node)) => nodes.has_name(&name) && !nodes.contains(&node),
        _ => false,
    }
}

/// Whether these nodes of a set are named by a list.
fn are_named_of(nodes: &NodeSet, names: &str, wanted: &str) -> bool {
    match parse_nodes(names) {
        Ok(names) => is_set(&nodes.named(&names), wanted),
        Err(_) => false,
    }
}

#[test]
fn holds_nodes_of_one_name(rt: HostRuntime) {
    match set_of("b a/10 a/2 ab a/2") {
        Ok(nodes) => {
            assert!(rt; is_text(format!(in rt.alloc(); "{nodes}"), "a/2,a/10,ab,b"));
            assert!(rt; has_later_ones(&nodes) && spells("a,ab,b", &NodeNames::of(&nodes)));
            assert!(rt; are_named_of(&nodes, "a,c", "a/2 a/10"));
        }
        Err(_) => assert!(rt; false),
    }
}

/// Whether a set reaches a node, if that is read.
fn reaches(nodes: &NodeSet, node: &str) -> Option<bool> {
    match parse_node(node) {
        Ok(node) => Some(nodes.reaches(&node)),
        Err(_) => None,
    }
}

/// Whether these nodes of a list are beyond a set.
fn are_beyond(nodes: &NodeSet, list: &str, wanted: &str) -> bool {
    match set_of(list) {
        Ok(others) => is_set(&others.beyond(nodes), wanted),
        Err(_) => false,
    }
}

/// Whether the set of `a/3` and `b` reaches what is older alone.
fn reaches_older(nodes: &NodeSet) -> bool {
    reaches(nodes, "a/3") == Some(true)
        && reaches(nodes, "a") == Some(true)
        && reaches(nodes, "a/4") == Some(false)
        && reaches(nodes, "ab") == Some(false)
        && are_beyond(nodes, "a/2 a/4 ab b", "a/4 ab")
}

#[test]
fn reaches_older_nodes(rt: HostRuntime) {
    match set_of("a/3 b") {
        Ok(nodes) => assert!(rt; reaches_older(&nodes)),
        Err(_) => assert!(rt; false),
    }
}

/// Whether these are the last of two sets within a world.
fn are_last(nodes: &NodeSet, others: &NodeSet, world: &str, wanted: &str) -> bool {
    match set_of(world) {
        Ok(world) => is_set(&nodes.last_within(others, &world), wanted),
        Err(_) => false,
    }
}

#[test]
fn holds_the_last_within_a_world(rt: HostRuntime) {
    match (set_of("a/2 b d"), set_of("a/3 a c/2")) {
        (Ok(nodes), Ok(others)) => {
            assert!(rt; are_last(&nodes, &others, "a/5 a b/4 c e", "a a/3 b c"));
        }
        _ => assert!(rt; false),
    }
}

/// Whether a set becomes this one where the next node of a name comes for one of its nodes.
fn gives_way(nodes: &NodeSet, older: &Node, wanted: &NodeSet) -> bool {
    match older.next() {
        Some(next) => !nodes.contains(&next) && nodes.with_next(older, &next) == *wanted,
        None => false,
    }
}

/// Whether a set becomes that of a list where a next node comes for this one.
fn becomes(nodes: &NodeSet, older: &str, wanted: &str) -> bool {
    match (parse_node(older), set_of(wanted)) {
        (Ok(older), Ok(wanted)) => gives_way(nodes, &older, &wanted),
        _ => false,
    }
}

#[test]
fn gives_way_to_the_next_node(rt: HostRuntime) {
    match set_of("a a/2 b") {
        Ok(nodes) => {
            assert!(rt; becomes(&nodes, "a/2", "a a/3 b") && becomes(&nodes, "c", "a a/2 b"));
        }
        Err(_) => assert!(rt; false),
    }
}
