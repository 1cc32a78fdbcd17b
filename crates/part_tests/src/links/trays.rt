//! Trays over an end that takes so many letters.
use link::{LinkFault, Post, Station, Unsent};
use std::alloc::Global;
use term::{Node, NodeSet, parse_node, parse_nodes};
use tray::Tray;

/// An end that takes so many letters more, and keeps them with their receivers.
#[derive(Drop)]
struct Narrow {
    room: usize,
    sent: Vec<(Node, u32)>,
}

impl Station for Narrow {
    type State = usize;

    ghost state = { λ e. e.room };
}

impl Post<u32> for Narrow {
    ghost posts = { λ s to letter t. Unit {0} };

    ghost refuses = { λ s to letter fault. Unit {0} };

    fn send(&mut self, to: &Node, letter: u32) -> Result<(), Unsent<u32>> {
        let fault = LinkFault::Full;
        if self.room == 0 || self.sent.reserve(1).is_err() {
            return Err(Unsent { fault, letter });
        }
        self.room -= 1;
        self.sent.push_reserved((to.copy(), letter));
        Ok(())
    }
}

/// Whether a letter is put in for a receiver.
fn puts(tray: &mut Tray<u32>, to: &str, letter: u32) -> bool {
    match parse_node(to) {
        Ok(to) => tray.put(&to, letter).is_ok(),
        Err(_) => false,
    }
}

/// Whether a letter for a receiver that the tray doesn't have comes back.
fn is_refused(tray: &mut Tray<u32>, to: &str, letter: u32) -> bool {
    match parse_node(to) {
        Ok(to) => match tray.put(&to, letter) {
            Ok(()) => false,
            Err(unsent) => unsent.fault == LinkFault::NoSuchNode && unsent.letter == letter,
        },
        Err(_) => false,
    }
}

/// Whether this is the letter that was sent at a place.
fn is_sent(narrow: &Narrow, place: usize, to: &str, letter: u32) -> bool {
    match narrow.sent.get(place) {
        Some((receiver, number)) => receiver.name().as_str() == to && *number == letter,
        None => false,
    }
}

/// Whether four letters are sent receiver by receiver, to each the oldest first, while there is room.
fn sends(tray: &mut Tray<u32>, narrow: &mut Narrow) -> bool {
    let are_put = tray.is_empty()
        && puts(tray, "b", 1)
        && puts(tray, "a", 2)
        && puts(tray, "b", 3)
        && puts(tray, "a", 4)
        && is_refused(tray, "c", 5);
    tray.drain(narrow);
    let is_full = !tray.is_empty() && narrow.sent.len() == 3;
    narrow.room = 3;
    tray.drain(narrow);
    are_put && is_full && tray.is_empty() && narrow.sent.len() == 4 && narrow.room == 2
}

/// Whether a tray for a and b does so.
fn drains(alloc: Global, receivers: &NodeSet) -> bool {
    let mut narrow = Narrow {
        room: 3,
        sent: Vec::new(alloc),
    };
    let is_drained = match Tray::new(alloc, receivers) {
        Ok(mut tray) => sends(&mut tray, &mut narrow),
        Err(_) => false,
    };
    is_drained
        && is_sent(&narrow, 0, "a", 2)
        && is_sent(&narrow, 1, "a", 4)
        && is_sent(&narrow, 2, "b", 1)
        && is_sent(&narrow, 3, "b", 3)
}

#[test]
fn sends_oldest_first_while_there_is_room(rt: HostRuntime) {
    match parse_nodes("b,a") {
        Ok(receivers) => assert!(rt; drains(rt.alloc(), &NodeSet::first_of(&receivers))),
        Err(_) => assert!(rt; false),
    }
}
