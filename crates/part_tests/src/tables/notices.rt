//! What the processes of a node were sent.
use crate::tables::reading::notices_of;
use exchange::NoticeLists;
use std::alloc::Global;
use term::{Node, parse_node};

/// Sends the notices of a text at a node, if there is memory.
fn sends(alloc: Global, lists: &mut NoticeLists, node: &Node, text: &str) -> bool {
    lists.add(node, notices_of(alloc, text).as_slice()).is_ok()
}

/// Whether these notices, and no others, were sent to the process of a serial. The text names the process with each.
fn was_sent(alloc: Global, lists: &NoticeLists, serial: u32, text: &str) -> bool {
    let wanted = notices_of(alloc, text);
    match lists.of(serial) {
        Ok(list) => {
            list.len() == wanted.len()
                && list
                    .iter()
                    .zip(&wanted)
                    .all(|(notice, noted)| *notice == noted.notice)
        }
        Err(_) => false,
    }
}

/// Whether a copy of lists keeps what it has, when the next notices are sent.
fn copy_stays(alloc: Global, lists: &mut NoticeLists, node: &Node) -> bool {
    match lists.copy() {
        Ok(copy) => {
            sends(alloc, lists, node, "v:c.2 w:a.1 x:a.1")
                && was_sent(alloc, &copy, 1, "x:a.1 y:a.1:b.1")
                && was_sent(alloc, &copy, 2, "z:a.2:c.3")
        }
        Err(_) => false,
    }
}

/// Whether each process is sent its own, in order.
fn keep_order(alloc: Global, lists: &mut NoticeLists, node: &Node) -> bool {
    was_sent(alloc, lists, 1, "")
        && sends(alloc, lists, node, "x:a.1 y:b.1 z:a.2:c.3 y:a.1:b.1")
        && copy_stays(alloc, lists, node)
        && was_sent(alloc, lists, 1, "x:a.1 y:a.1:b.1 w:a.1 x:a.1")
        && was_sent(alloc, lists, 2, "z:a.2:c.3")
        && was_sent(alloc, lists, 3, "")
}

#[test]
fn notices_come_in_order(rt: HostRuntime) {
    match parse_node("a") {
        Ok(node) => {
            assert!(rt; keep_order(rt.alloc(), &mut NoticeLists::new(rt.alloc()), &node));
        }
        Err(_) => assert!(rt; false),
    }
}
