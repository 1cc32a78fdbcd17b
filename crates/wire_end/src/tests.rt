//! An end of lines: letters that come in and go out as lines.
use crate::{
    HearFault, Inbox, Item, Letter, LinkLine, LocalEvent, Part, Post, Stamped, Task, WireEnd,
};
use std::alloc::{AllocError, Global};
use std::test::Fail;
use term::{Node, NodeSet, parse_node_name, parse_nodes};

/// The first node of a name.
fn node_of(name: &str) -> Result<Node, AllocError> {
    match parse_node_name(name) {
        Ok(name) => Ok(Node::first(name)),
        Err(_) => Err(AllocError),
    }
}

/// The end of the node a in the world of a and b.
fn end_of_a(alloc: Global) -> Result<WireEnd, AllocError> {
    let Ok(names) = parse_nodes("a,b") else {
        return Err(AllocError);
    };
    WireEnd::new(alloc, node_of("a")?, &NodeSet::first_of(&names))
}

/// A line of a link with this number.
fn line(number: u64, part: Part) -> LinkLine {
    LinkLine {
        number,
        stamp: 9,
        part,
    }
}

/// The node of the next creation.
fn next_of(node: &Node) -> Result<Node, AllocError> {
    node.next().ok_or(AllocError)
}

/// Sends this letter of the step with the stamp 4.
fn send(end: &mut WireEnd, to: &Node, letter: Letter) -> bool {
    end.send(to, Item::Letter(Stamped { stamp: 4, letter }))
        .is_ok()
}

/// Sends that a has left.
fn send_down(end: &mut WireEnd, to: &Node) -> bool {
    send(end, to, Letter::Down)
}

/// Whether the letter that is taken next was sent by the step with this stamp.
fn takes_stamp(end: &mut WireEnd, stamp: u64) -> bool {
    match end.take() {
        Ok(Some((_, Item::Letter(stamped)))) => stamped.stamp == stamp,
        _ => false,
    }
}

#[test]
fn lines_are_read_in_their_order(rt: HostRuntime) -> Result<(), Fail> {
    let b = node_of("b")?;
    let mut end = end_of_a(rt.alloc())?;
    assert!(rt; end.hear(&b, line(1, Part::JoinRefused)).is_ok());
    assert!(rt; matches!(end.hear(&b, line(3, Part::Applied)), Err(HearFault::Gap)));
    assert!(rt; takes_stamp(&mut end, 9));
    assert!(rt; end.lose(&b).is_ok());
    assert!(rt; takes_stamp(&mut end, 0));
    Ok(())
}

#[test]
fn letters_go_out_as_lines(rt: HostRuntime) -> Result<(), Fail> {
    let mut end = end_of_a(rt.alloc())?;
    assert!(rt; send_down(&mut end, &node_of("b")?));
    assert_eq!(rt; end.take_lines().as_str(), "send b 1 4 down\n");
    assert!(rt; send(&mut end, &node_of("a")?, Letter::Applied));
    assert!(rt; end.take_lines().is_empty());
    assert!(rt; takes_stamp(&mut end, 4));
    assert!(rt; !send_down(&mut end, &node_of("a")?));
    assert!(rt; !send_down(&mut end, &node_of("c")?));
    assert!(rt; end.take_lines().is_empty());
    Ok(())
}

#[test]
fn tasks_wait(rt: HostRuntime) -> Result<(), Fail> {
    let mut end = end_of_a(rt.alloc())?;
    let event = LocalEvent::Leave;
    end.ask(Task {
        ticket: None,
        event,
    })?;
    assert!(rt; matches!(end.take(), Ok(Some((_, Item::Task(_))))));
    assert!(rt; matches!(end.take(), Ok(None)));
    assert!(rt; end.take_orders().is_empty());
    Ok(())
}

#[test]
fn a_link_begins_anew(rt: HostRuntime) -> Result<(), Fail> {
    let b = node_of("b")?;
    let later = next_of(&b)?;
    let mut end = end_of_a(rt.alloc())?;
    assert!(rt; send_down(&mut end, &b));
    assert!(rt; end.hear(&b, line(1, Part::Down)).is_ok());
    assert!(rt; end.is_linked_with(&b));
    end.started(&b, &later);
    assert!(rt; !end.is_linked_with(&b));
    assert!(rt;
        matches!(
            end.hear(&b, line(2, Part::Applied)),
            Err(HearFault::NoSuchNode)
        )
    );
    assert!(rt; end.hear(&later, line(1, Part::JoinRefused)).is_ok());
    assert!(rt; !send_down(&mut end, &b));
    assert!(rt; send_down(&mut end, &later));
    assert_eq!(rt;
        end.take_lines().as_str(),
        "send b 1 4 down\nsend b/2 1 4 down\n"
    );
    Ok(())
}

#[test]
fn letters_name_nodes_that_have_started(rt: HostRuntime) -> Result<(), Fail> {
    let b = node_of("b")?;
    let later = next_of(&b)?;
    let mut end = end_of_a(rt.alloc())?;
    assert!(rt;
        matches!(
            end.hear(&b, line(1, Part::Admit(later.copy()))),
            Err(HearFault::Stray)
        )
    );
    assert!(rt; end.hear(&b, line(1, Part::Member(later.copy()))).is_ok());
    assert!(rt; matches!(end.hear(&b, line(2, Part::Welcome)), Err(HearFault::Stray)));
    end.started(&b, &later);
    assert!(rt; end.hear(&later, line(1, Part::Admit(later.copy()))).is_ok());
    Ok(())
}
