//! Nodes that leave, and calls that end so.
use crate::calls::{is_refused, is_told, names_process, register, set, spawns};
use crate::cast::{Cast, process_of};
use crate::plays::Small;
use node_threads::{Call, Reply, Retries, Seat, SeatFault, StepFault};
use std::sync::Wait;
use std::thread;
use std::thread::{Threads, join};
use std::time::Clock;
use term::{LockId, Name, NodeName, Pid};

/// How often a seat asks at most.
const TRIES: u32 = 1_000_000;

/// The process asks for the lock, once it isn't busy, and is granted none. Whether its wait ended since its node left.
fn waits<R: Wait + Clock>(rt: &R, seat: &mut Seat, holder: &Pid, id: &LockId) -> bool {
    for _ in 0..TRIES {
        match seat.call(rt, set(holder, id, Retries::Endless)) {
            Err(SeatFault::Step(StepFault::Busy(_))) => thread::yield_now(),
            Err(SeatFault::NodeLeft) => return true,
            _ => return false,
        }
    }
    false
}

/// Waits until the process waits for the lock: it is busy then. Whether it came to that.
fn until_busy<R: Wait + Clock>(rt: &R, seat: &mut Seat, holder: &Pid, id: &LockId) -> bool {
    for _ in 0..TRIES {
        match seat.call(rt, set(holder, id, Retries::Times(0))) {
            Err(SeatFault::Step(StepFault::Busy(_))) => return true,
            Ok(Reply::False) => thread::yield_now(),
            _ => return false,
        }
    }
    false
}

/// The node of a seat leaves, by the cluster. Whether it does so but once, and no call is taken behind that.
fn leaves<R: Wait + Clock>(rt: &R, cluster: &mut Small, seat: &mut Seat, node: &NodeName) -> bool {
    cluster.leave(rt, node) == Ok(())
        && cluster.leave(rt, node) == Err(SeatFault::NodeLeft)
        && is_refused(rt, seat, Call::Spawn, SeatFault::NodeLeft)
}

/// The second process of a node waits for a lock, in a thread of its own, until the node leaves.
fn waits_in_vain<R: Threads + Wait + Clock + Sync>(
    rt: &R,
    cluster: &mut Small,
    one: &mut Seat,
    two: &mut Seat,
    waiter: &Pid,
    id: &LockId,
) -> bool {
    let (waited, left) = join(
        rt,
        || waits(rt, two, waiter, id),
        || until_busy(rt, one, waiter, id) && leaves(rt, cluster, one, waiter.node.name()),
    );
    waited && left
}

/// One process of a node has a lock for which another waits, until the node leaves.
pub(super) fn wait<R: Threads + Wait + Clock + Sync>(
    rt: &R,
    cluster: &mut Small,
    one: &mut Seat,
    two: &mut Seat,
    cast: &Cast,
) -> bool {
    let (holder, waiter) = (process_of(one, 1), process_of(two, 2));
    let (ours, theirs) = (cast.lock(&holder.node), cast.lock(&cast.stranger));
    spawns(rt, one)
        && spawns(rt, one)
        && is_told(rt, one, set(&holder, &ours, Retries::Endless), &Reply::True)
        && waits_in_vain(rt, cluster, one, two, &waiter, &theirs)
}

/// Whether a call is answered so, or the node has left.
fn is_told_or_left<R: Wait + Clock>(rt: &R, seat: &mut Seat, call: Call, reply: &Reply) -> bool {
    match seat.call(rt, call) {
        Ok(found) => found == *reply,
        Err(fault) => fault == SeatFault::NodeLeft,
    }
}

/// Spawns a process, which is to be this one, and registers a name for it. Whether each was done, or the node had left.
fn names_or_left<R: Wait + Clock>(rt: &R, seat: &mut Seat, process: &Pid, name: &Name) -> bool {
    is_told_or_left(rt, seat, Call::Spawn, &Reply::Pid(process.copy()))
        && is_told_or_left(rt, seat, register(name, process), &Reply::Yes)
}

/// A name is registered in a thread of its own while its node is asked to leave: that waits behind the hold, where it meets one. Then
/// another is at the second of two seats.
pub(super) fn leave<R: Threads + Wait + Clock + Sync>(
    rt: &R,
    cluster: &mut Small,
    one: &mut Seat,
    two: &mut Seat,
    cast: &Cast,
) -> bool {
    let (ours, theirs) = (process_of(one, 1), process_of(two, 1));
    let (fine, left) = join(
        rt,
        || names_or_left(rt, one, &ours, &cast.x),
        || cluster.leave(rt, ours.node.name()) == Ok(()),
    );
    fine && left && names_process(rt, two, &theirs, &cast.y)
}
