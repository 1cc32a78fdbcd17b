//! Work at the seat of a lock's holder.
use crate::calls::spawns;
use crate::cast::{Cast, process_of};
use node_threads::{HolderSeat, Nodes, Retries, Seat};
use std::sync::Wait;
use std::time::Clock;
use term::{LockId, Pid};
use transaction::{LockSeat, Outcome, trans};

/// Whether a process is granted a lock by one try.
fn is_granted<R: Wait + Clock>(rt: &R, seat: &mut Seat, holder: &Pid, id: &LockId) -> bool {
    let mut held = HolderSeat::new(seat, holder.copy(), rt);
    held.set_lock(id, &Nodes::All, Retries::Times(0)) == Ok(true)
}

/// Whether one process works under its lock while another is granted none, but afterwards.
fn works_alone<R: Wait + Clock>(
    rt: &R,
    one: &mut Seat,
    two: &mut Seat,
    ours: &LockId,
    theirs: &LockId,
) -> bool {
    let (holder, other) = (process_of(one, 1), process_of(two, 1));
    let mut held = HolderSeat::new(one, holder, rt);
    let worked = trans(
        &mut held,
        ours,
        &Nodes::All,
        Retries::Endless,
        |_held: &mut HolderSeat<'_, R>| is_granted(rt, two, &other, theirs),
    );
    worked == Ok(Outcome::Done(false)) && is_granted(rt, two, &other, theirs)
}

/// A process of each of two nodes works, or is to wait.
pub(super) fn work<R: Wait + Clock>(rt: &R, one: &mut Seat, two: &mut Seat, cast: &Cast) -> bool {
    let (ours, theirs) = (cast.lock(one.node()), cast.lock(two.node()));
    spawns(rt, one) && spawns(rt, two) && works_alone(rt, one, two, &ours, &theirs)
}
