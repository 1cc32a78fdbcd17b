//! Meshes of a few nodes and their ends, row by row.
use link::{Inbox, LinkFault, Mesh, Post, Unsent, are_rising};
use std::alloc::{AllocError, Global};
use term::{MOST_NODES, Node, NodeSet, parse_node, parse_nodes};

/// What is asked of a mesh, and what comes of it.
#[derive(Clone, Copy)]
struct Row<'a> {
    word: &'a str,
    first: &'a str,
    second: &'a str,
    letter: u32,
    wanted: &'a str,
}

/// The number of a text, or 0.
fn number_of(text: &str) -> u32 {
    text.parse().unwrap_or(0)
}

/// The row of a text such as `send a b 1=ok`. A node that isn't named has no byte, and a letter that isn't is 0.
fn row_of(text: &str) -> Option<Row<'_>> {
    let (asked, wanted) = text.split_once('=')?;
    let mut words = asked.split(' ');
    Some(Row {
        word: words.next()?,
        first: words.next().unwrap_or(""),
        second: words.next().unwrap_or(""),
        letter: number_of(words.next().unwrap_or("")),
        wanted,
    })
}

/// Whether this text was printed.
fn is_text(printed: Result<String, AllocError>, wanted: &str) -> bool {
    match printed {
        Ok(text) => text.as_str() == wanted,
        Err(_) => false,
    }
}

/// Whether a fault is shown so.
fn is_fault(alloc: Global, fault: LinkFault, wanted: &str) -> bool {
    is_text(format!(in alloc; "{fault}"), wanted)
}

/// Whether `true` or `false` was told.
fn is_told(told: bool, wanted: &str) -> bool {
    wanted == if told { "true" } else { "false" }
}

/// Whether a letter, which is at least 1, is this one.
fn is_letter(letter: u32, wanted: &str) -> bool {
    letter == number_of(wanted)
}

/// Whether a letter was sent, as `ok` tells, or came back with this fault.
fn is_sent(alloc: Global, sent: Result<(), Unsent<u32>>, row: Row<'_>) -> bool {
    match sent {
        Ok(()) => row.wanted == "ok",
        Err(unsent) => unsent.letter == row.letter && is_fault(alloc, unsent.fault, row.wanted),
    }
}

/// Whether this letter was taken, behind its sender, or `none`, or this fault came of it.
fn is_taken(alloc: Global, taken: Result<Option<(Node, u32)>, LinkFault>, wanted: &str) -> bool {
    match (taken, wanted.split_once(' ')) {
        (Ok(Some((from, letter))), Some((sender, number))) => {
            from.name().as_str() == sender && is_letter(letter, number)
        }
        (Ok(None), None) => wanted == "none",
        (Err(fault), None) => is_fault(alloc, fault, wanted),
        _ => false,
    }
}

/// Sends over any links.
fn send_by<E: Post<u32>>(end: &mut E, to: &Node, letter: u32) -> Result<(), Unsent<u32>> {
    end.send(to, letter)
}

/// Takes from any links.
fn take_by<E: Inbox<u32>>(end: &mut E) -> Result<Option<(Node, u32)>, LinkFault> {
    end.take()
}

/// Whether the end of a node sends a letter so.
fn end_sends(alloc: Global, mesh: &mut Mesh<u32>, from: &Node, to: &Node, row: Row<'_>) -> bool {
    match mesh.end(from) {
        Ok(mut end) => is_sent(alloc, send_by(&mut end, to, row.letter), row),
        Err(fault) => is_fault(alloc, fault, row.wanted),
    }
}

/// Whether the end of a node takes a letter so.
fn end_takes(alloc: Global, mesh: &mut Mesh<u32>, node: &Node, wanted: &str) -> bool {
    match mesh.end(node) {
        Ok(mut end) => is_taken(alloc, take_by(&mut end), wanted),
        Err(fault) => is_fault(alloc, fault, wanted),
    }
}

/// Whether this letter is delivered, or this fault comes of it.
fn is_delivered(alloc: Global, delivered: Result<u32, LinkFault>, wanted: &str) -> bool {
    match delivered {
        Ok(letter) => is_letter(letter, wanted),
        Err(fault) => is_fault(alloc, fault, wanted),
    }
}

/// Whether this is the oldest letter of a link, or `none`.
fn is_front(front: Option<&u32>, wanted: &str) -> bool {
    match front {
        Some(letter) => is_letter(*letter, wanted),
        None => wanted == "none",
    }
}

/// Whether what is asked of a link comes out so: of the mesh, or of the sender's end of it.
fn link_answers(alloc: Global, mesh: &mut Mesh<u32>, from: &Node, to: &Node, row: Row<'_>) -> bool {
    match row.word {
        "send" => is_sent(alloc, mesh.send(from, to, row.letter), row),
        "end" => end_sends(alloc, mesh, from, to, row),
        "deliver" => is_delivered(alloc, mesh.deliver(from, to), row.wanted),
        "front" => is_front(mesh.front(from, to), row.wanted),
        _ => row.word == "empty" && is_told(mesh.is_empty(from, to), row.wanted),
    }
}

/// Whether a node is closed out or reopened, as `ok` tells, or this fault comes of it.
fn is_changed(alloc: Global, changed: Result<(), LinkFault>, wanted: &str) -> bool {
    match changed {
        Ok(()) => wanted == "ok",
        Err(fault) => is_fault(alloc, fault, wanted),
    }
}

/// Whether what is asked of a node comes out so.
fn node_answers(alloc: Global, mesh: &mut Mesh<u32>, node: &Node, row: Row<'_>) -> bool {
    match row.word {
        "take" => end_takes(alloc, mesh, node, row.wanted),
        "close" => is_changed(alloc, mesh.close_out(node), row.wanted),
        "reopen" => is_changed(alloc, mesh.reopen(node), row.wanted),
        _ => row.word == "closed" && is_told(mesh.is_closed(node), row.wanted),
    }
}

/// Whether this is the first link on which a letter waits, or `none`.
fn is_waiting(mesh: &Mesh<u32>, wanted: &str) -> bool {
    match (mesh.first_waiting(), wanted.split_once(' ')) {
        (Some((from, to)), Some((sender, receiver))) => {
            from.name().as_str() == sender && to.name().as_str() == receiver
        }
        (None, None) => wanted == "none",
        _ => false,
    }
}

/// Whether a row holds.
fn holds(alloc: Global, mesh: &mut Mesh<u32>, row: Row<'_>) -> bool {
    match (parse_node(row.first), parse_node(row.second)) {
        (Ok(from), Ok(to)) => link_answers(alloc, mesh, &from, &to, row),
        (Ok(node), Err(_)) => node_answers(alloc, mesh, &node, row),
        _ => row.word == "waiting" && is_waiting(mesh, row.wanted),
    }
}

/// The nodes of a list of names.
fn set_of(list: &str) -> NodeSet {
    match parse_nodes(list) {
        Ok(names) => NodeSet::first_of(&names),
        Err(_) => NodeSet::empty(),
    }
}

/// A mesh of these nodes.
fn mesh_of(alloc: Global, nodes: &NodeSet) -> Option<Mesh<u32>> {
    let nodes = nodes.as_slice();
    if nodes.len() > MOST_NODES || !are_rising(nodes) {
        return None;
    }
    Mesh::new(alloc, nodes).ok()
}

/// Whether a row of a text holds.
fn holds_text(alloc: Global, mesh: &mut Mesh<u32>, text: &str) -> bool {
    match row_of(text) {
        Some(row) => holds(alloc, mesh, row),
        None => false,
    }
}

/// The first row that doesn't hold, in a mesh of these nodes.
fn first_wrong<'a>(alloc: Global, list: &str, script: &'a str) -> Option<&'a str> {
    match mesh_of(alloc, &set_of(list)) {
        Some(mut mesh) => script
            .lines()
            .find(|text| !holds_text(alloc, &mut mesh, text)),
        None => Some("no mesh"),
    }
}

/// Each link keeps its order.
const ORDERED: &str = "\
waiting=none
send b a 3=ok
send a b 1=ok
send a b 2=ok
send b b 4=ok
front a b=1
front a a=none
empty a a=true
empty b a=false
waiting=a b
deliver a b=1
deliver a b=2
waiting=b a
deliver b a=3
waiting=b b
deliver b b=4
waiting=none
deliver a b=empty_link
";

/// What is on its way to a node that is closed out vanishes, and so does what is sent to it afterwards.
const CLOSED: &str = "\
send a b 1=ok
send b b 2=ok
send b a 3=ok
send a a 4=ok
closed b=false
close b=ok
closed b=true
closed a=false
send a b 5=ok
send b a 6=ok
empty a b=true
empty b b=true
deliver a b=empty_link
deliver b a=3
deliver b a=6
deliver a a=4
end a b 7=ok
take b=none
end b a 8=ok
take a=b 8
";

/// What is sent to a node once it is reopened is taken in order, and nothing of what was sent before. To reopen it again, or another,
/// changes nothing.
const REOPENED: &str = "\
send a b 1=ok
send b a 2=ok
close b=ok
send a b 3=ok
send b a 4=ok
reopen a=ok
closed b=true
reopen b=ok
closed b=false
deliver a b=empty_link
send a b 5=ok
end b b 6=ok
send a b 7=ok
deliver a b=5
reopen b=ok
closed b=false
front a b=7
take b=a 7
take b=b 6
take b=none
deliver b a=2
deliver b a=4
close b=ok
send a b 8=ok
reopen b=ok
send a b 9=ok
deliver a b=9
waiting=none
";

/// Of a node that is none of the mesh's nothing is taken.
const STRANGERS: &str = "\
send a x 7=no_such_node
send x a 7=no_such_node
send x x 7=no_such_node
deliver a x=no_such_node
deliver x a=no_such_node
front a x=none
front x a=none
empty a x=true
empty x x=true
close x=no_such_node
reopen x=no_such_node
closed x=false
end x a 1=no_such_node
end a x 2=no_such_node
take x=no_such_node
waiting=none
";

/// An end takes of the least sender first.
const TAKEN: &str = "\
take b=none
end c b 1=ok
end b b 2=ok
end a c 3=ok
end a b 4=ok
end a b 5=ok
take b=a 4
take b=a 5
take b=b 2
take b=c 1
take b=none
deliver a c=3
";

#[test]
fn sends_and_delivers(rt: HostRuntime) {
    assert_eq!(rt; first_wrong(rt.alloc(), "a,b", ORDERED), None);
    assert_eq!(rt; first_wrong(rt.alloc(), "a,b", CLOSED), None);
    assert_eq!(rt; first_wrong(rt.alloc(), "a,b", REOPENED), None);
    assert_eq!(rt; first_wrong(rt.alloc(), "a", STRANGERS), None);
    assert_eq!(rt; first_wrong(rt.alloc(), "a,b,c", TAKEN), None);
    assert!(rt; is_fault(rt.alloc(), LinkFault::Full, "full"));
    assert!(rt; is_fault(rt.alloc(), LinkFault::Memory, "memory"));
}

/// Whether one end of a mesh sends and takes by turns.
fn is_used_again(alloc: Global, mesh: &mut Mesh<u32>, a: &Node, b: &Node) -> bool {
    match mesh.end(a) {
        Ok(mut end) => {
            end.send(a, 1).is_ok()
                && end.send(b, 2).is_ok()
                && is_taken(alloc, end.take(), "a 1")
                && is_taken(alloc, end.take(), "none")
                && end.send(b, 3).is_ok()
        }
        Err(_) => false,
    }
}

/// Whether a mesh is then as its end left it.
fn is_left(alloc: Global, a: &Node, b: &Node) -> bool {
    match mesh_of(alloc, &set_of("a,b")) {
        Some(mut mesh) => {
            is_used_again(alloc, &mut mesh, a, b)
                && is_delivered(alloc, mesh.deliver(a, b), "2")
                && is_delivered(alloc, mesh.deliver(a, b), "3")
        }
        None => false,
    }
}

/// Whether nodes rise where each is less than the next.
fn are_judged(a: Node, b: Node) -> bool {
    !are_rising(&[b.copy(), a.copy()]) && !are_rising(&[a.copy(), a.copy()]) && are_rising(&[a, b])
}

#[test]
fn an_end_is_used_many_times(rt: HostRuntime) {
    match (parse_node("a"), parse_node("b")) {
        (Ok(a), Ok(b)) => {
            assert!(rt; is_left(rt.alloc(), &a, &b));
            assert!(rt; are_judged(a, b));
        }
        _ => assert!(rt; false),
    }
}
