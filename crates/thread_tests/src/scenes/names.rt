//! Names that are registered and looked up.
use crate::calls::{finds, is_refused, names_process};
use crate::cast::{Cast, process_of};
use node_threads::{Call, Reply, Seat, SeatFault};
use std::sync::Wait;
use std::time::Clock;
use term::{Name, Node, Pid};

/// Registers a process at its only node, and looks the name up.
pub(super) fn first<R: Wait + Clock>(rt: &R, seat: &mut Seat, cast: &Cast) -> bool {
    let process = process_of(seat, 1);
    names_process(rt, seat, &process, &cast.x) && finds(seat, &cast.x, &process)
}

/// Whether a seat is told these two names alone, in this order.
fn tells<R: Wait + Clock>(rt: &R, seat: &mut Seat, first: &Name, second: &Name) -> bool {
    match seat.call(rt, Call::RegisteredNames) {
        Ok(Reply::Names(names)) => match names.as_slice() {
            [one, two] => one == first && two == second,
            _ => false,
        },
        _ => false,
    }
}

/// Whether look-ups find the owners of both names.
fn finds_both(seat: &mut Seat, cast: &Cast, ours: &Pid, theirs: &Pid) -> bool {
    finds(seat, &cast.x, ours) && finds(seat, &cast.y, theirs)
}

/// Whether no node of another cluster can be joined.
fn knows_no_stranger<R: Wait + Clock>(rt: &R, seat: &mut Seat, stranger: &Node) -> bool {
    let join = Call::Join(stranger.copy());
    is_refused(rt, seat, join, SeatFault::NoSuchNode)
}

/// Names a process at each of two nodes, and looks both up at both.
pub(super) fn both<R: Wait + Clock>(rt: &R, one: &mut Seat, two: &mut Seat, cast: &Cast) -> bool {
    let (ours, theirs) = (process_of(one, 1), process_of(two, 1));
    names_process(rt, one, &ours, &cast.x)
        && names_process(rt, two, &theirs, &cast.y)
        && finds_both(one, cast, &ours, &theirs)
        && finds_both(two, cast, &ours, &theirs)
        && tells(rt, two, &cast.x, &cast.y)
        && knows_no_stranger(rt, one, &cast.stranger)
        && one.number() == 0
        && two.number() == 1
}
