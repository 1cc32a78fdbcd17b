//! Calls from a seat, and whether they are answered as they are to be.
use name_table::Pair;
use node_threads::{Call, Nodes, Reply, Retries, Seat, SeatFault};
use std::sync::Wait;
use std::time::Clock;
use term::{LockId, Name, Pid, Rule};

/// Whether a call is answered so.
pub(crate) fn is_told<R: Wait + Clock>(rt: &R, seat: &mut Seat, call: Call, reply: &Reply) -> bool {
    match seat.call(rt, call) {
        Ok(found) => found == *reply,
        Err(_) => false,
    }
}

/// Whether a call gets no reply, for this cause.
pub(crate) fn is_refused<R: Wait + Clock>(
    rt: &R,
    seat: &mut Seat,
    call: Call,
    fault: SeatFault,
) -> bool {
    seat.call(rt, call) == Err(fault)
}

/// Spawns a process from a seat. Whether it could.
pub(crate) fn spawns<R: Wait + Clock>(rt: &R, seat: &mut Seat) -> bool {
    matches!(seat.call(rt, Call::Spawn), Ok(Reply::Pid(_)))
}

/// The call that registers a name for a process.
pub(crate) fn register(name: &Name, owner: &Pid) -> Call {
    Call::Register(Pair {
        name: name.copy(),
        owner: owner.copy(),
        rule: Rule::Exit,
    })
}

/// The call of a process for a lock of all members.
pub(crate) fn set(holder: &Pid, id: &LockId, retries: Retries) -> Call {
    Call::SetLock(holder.copy(), id.copy(), Nodes::All, retries)
}

/// Spawns a process, which is to be this one, and registers this name for it. Whether both was done.
pub(crate) fn names_process<R: Wait + Clock>(
    rt: &R,
    seat: &mut Seat,
    process: &Pid,
    name: &Name,
) -> bool {
    is_told(rt, seat, Call::Spawn, &Reply::Pid(process.copy()))
        && is_told(rt, seat, register(name, process), &Reply::Yes)
}

/// Whether a look-up finds this owner of a name.
pub(crate) fn finds(seat: &mut Seat, name: &Name, owner: &Pid) -> bool {
    match seat.whereis(name) {
        Ok(Some(found)) => found == *owner,
        _ => false,
    }
}
