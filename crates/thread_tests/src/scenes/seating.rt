//! Seats that get their node late, and that are given back.
use crate::calls::spawns;
use crate::cast::Cast;
use crate::plays::{Small, names_of, sit};
use node_threads::{FreeSeat, Seat, SeatFault};
use std::alloc::Global;
use std::sync::Wait;
use std::time::Clock;
use term::NodeName;

/// Whether a free seat is the second at this node, and answered there.
fn is_second_at<R: Wait + Clock>(rt: &R, alloc: Global, free: FreeSeat, node: &NodeName) -> bool {
    match free.at(alloc, node) {
        Ok(mut seat) => {
            seat.number() == 1 && seat.node().name() == node && spawns(rt, &mut seat)
        }
        Err(_) => false,
    }
}

/// Chooses the node of a seat for a free one, once a stranger gave that back.
pub(super) fn choose<R: Wait + Clock>(
    rt: &R,
    alloc: Global,
    cluster: &mut Small,
    seat: &Seat,
    cast: &Cast,
) -> bool {
    match cluster.free_seat() {
        Ok(free) => match free.at(alloc, cast.stranger.name()) {
            Ok(_) => false,
            Err(free) => is_second_at(rt, alloc, free, seat.node().name()),
        },
        Err(_) => false,
    }
}

/// A seat for each that a cluster has, at the node `a`.
const ALL_SEATS: &str = "\
a a a a a a a a a a a a a a a a a a a a a a a a a a a a a a a a \
a a a a a a a a a a a a a a a a a a a a a a a a a a a a a a a a";

/// Whether no further seat is made at a node, nor a free one, and none at a stranger.
fn are_spent(cluster: &mut Small, node: &NodeName, cast: &Cast) -> bool {
    matches!(cluster.seat(node), Err(SeatFault::SeatsSpent))
        && matches!(cluster.free_seat(), Err(SeatFault::SeatsSpent))
        && matches!(
            cluster.seat(cast.stranger.name()),
            Err(SeatFault::NoSuchNode)
        )
}

/// Gives a seat back. Whether the next seat has its slot, and a number of its own.
fn changes_hands(cluster: &mut Small, seat: Seat, node: &NodeName) -> bool {
    let slot = seat.slot();
    cluster.give_back(seat);
    match cluster.seat(node) {
        Ok(next) => next.slot() == slot && next.number() == 64,
        Err(_) => false,
    }
}

/// Whether of all seats that were made the second has the slot of its number, and is given back.
fn gives_back(cluster: &mut Small, mut seats: Vec<Seat>, node: &NodeName) -> bool {
    if seats.len() != 64 {
        return false;
    }
    let second = seats.swap_remove(1);
    second.number() == 1 && second.slot() == 1 && changes_hands(cluster, second, node)
}

/// Makes all seats at a node. Whether no further one is made, but where one is given back.
fn spends(alloc: Global, cluster: &mut Small, node: &NodeName, cast: &Cast) -> bool {
    let mut seats = Vec::new(alloc);
    sit(cluster, ALL_SEATS, &mut seats)
        && are_spent(cluster, node, cast)
        && gives_back(cluster, seats, node)
        && are_spent(cluster, node, cast)
}

/// Makes all seats of a cluster of the node `a`, and gives one back.
pub(super) fn spend(alloc: Global, cluster: &mut Small, cast: &Cast) -> bool {
    match names_of("a").as_slice().first() {
        Some(node) => spends(alloc, cluster, node, cast),
        None => false,
    }
}
