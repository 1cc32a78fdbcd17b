//! Work under a lock.
ghost use Rattle.std.specs.Fn.{FnOnceReturnsAtMut};
ghost use Rattle.transaction.specs.Transactions.{IsTransaction};

use crate::nodes::{Nodes, Retries};
use crate::seat::LockSeat;
use std::fmt;
use term::LockId;
use thiserror::Error;

/// How a transaction ended.
#[derive(Debug, PartialEq, Eq, Drop)]
pub enum Outcome<T> {
    /// The function was called under the lock, and gave this.
    Done(T),
    /// The lock wasn't granted, and the function wasn't called.
    Aborted,
}

/// Why a transaction has no outcome.
#[derive(Debug, PartialEq, Eq, Drop, Error)]
#[error_bound(E: fmt::Display + fmt::Debug, T: fmt::Debug)]
pub enum TransFault<T, E> {
    /// Setting the lock failed so, and the function wasn't called.
    #[error("set_lock: {0}")]
    Set(E),
    /// Deleting the lock failed so. The function was called, and gave this; whether the lock was deleted isn't known.
    #[error("del_lock: {0}")]
    Del(E, T),
}

/// Sets a lock, calls the function once if the lock was granted, and deletes the lock again.
pub fn trans<S: LockSeat, T, F: FnOnce(&mut S) -> T>(
    seat: &mut S,
    id: &LockId,
    nodes: &Nodes,
    retries: Retries,
    f: F,
) -> Result<Outcome<T>, TransFault<T, S::Fault>>
    requires { F.IsAlwaysCallable f }
    ensures { IsTransaction (S.sets seat.old id.now nodes.now retries) (FnOnceReturnsAtMut F.FnOnce f)
        (λ left. S.deletes left id.now nodes.now) seat.new result }
{
    match seat.set_lock(id, nodes, retries) {
        Ok(true) => {}
        Ok(false) => return Ok(Outcome::Aborted),
        Err(fault) => return Err(TransFault::Set(fault)),
    }
    let given = f(seat);
    match seat.del_lock(id, nodes) {
        Ok(()) => Ok(Outcome::Done(given)),
        Err(fault) => Err(TransFault::Del(fault, given)),
    }
}
