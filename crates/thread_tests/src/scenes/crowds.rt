//! Many at once, each at a seat in a thread of its own.
use crate::calls::{is_told, names_process, register, spawns};
use crate::cast::process_of;
use node_threads::{Call, Reply, Seat};
use std::sync::Wait;
use std::thread::{Threads, for_each_mut};
use std::time::Clock;
use term::{Name, Pid, parse_name};

/// How often each rival registers its name.
const TURNS: u32 = 5;

/// Whether each seat was told so much.
fn are_told(seats: &[Seat], entries: usize) -> bool {
    seats.iter().all(|seat| seat.entries().len() == entries)
}

/// Spawns a process from each seat. Whether all could.
pub(super) fn spawn<R: Threads + Wait + Clock + Sync>(rt: &R, seats: &mut [Seat]) -> bool {
    for_each_mut(
        rt,
        seats,
        8,
        &|_, seat: &mut Seat| {
            spawns(rt, seat);
        },
    );
    are_told(seats, 1)
}

/// Spawns a process, and registers it under a name that reads as its node.
fn name_own<R: Wait + Clock>(rt: &R, seat: &mut Seat) {
    if let Ok(name) = parse_name(seat.node().name().as_str()) {
        let process = process_of(seat, 1);
        names_process(rt, seat, &process, &name);
    }
}

/// Does so at each seat. Whether all were answered.
pub(super) fn name<R: Threads + Wait + Clock + Sync>(rt: &R, seats: &mut [Seat]) -> bool {
    for_each_mut(rt, seats, 8, &|_, seat: &mut Seat| name_own(rt, seat));
    are_told(seats, 2)
}

/// Registers a name for a process and unregisters it, again and again. Whether each call was answered as it is to be.
fn takes_turns<R: Wait + Clock>(rt: &R, seat: &mut Seat, process: &Pid, name: &Name) -> bool {
    for _ in 0..TURNS {
        let is_named = is_told(rt, seat, register(name, process), &Reply::Yes);
        if !is_named || !is_told(rt, seat, Call::Unregister(name.copy()), &Reply::Ok) {
            return false;
        }
    }
    true
}

/// Spawns a process, and takes turns with a name that reads as its node. Where all was answered as it is to be, another is spawned at last.
fn rival<R: Wait + Clock>(rt: &R, seat: &mut Seat) {
    if let Ok(name) = parse_name(seat.node().name().as_str()) {
        let process = process_of(seat, 1);
        if spawns(rt, seat) && takes_turns(rt, seat, &process, &name) {
            spawns(rt, seat);
        }
    }
}

/// Rivals take turns, one at each seat. Whether each was answered as it is to be.
pub(super) fn take_turns<R: Threads + Wait + Clock + Sync>(rt: &R, seats: &mut [Seat]) -> bool {
    for_each_mut(rt, seats, 8, &|_, seat: &mut Seat| rival(rt, seat));
    are_told(seats, 12)
}
