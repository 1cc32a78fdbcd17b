//! Seats of lock holders, over a seat at a node.
ghost use Rattle.std.specs.Prelude.{◌≡◌, true, IfOk, IfErr};
ghost use Rattle.shared_table.specs.NodeEventsSeen.{reply_of};
ghost use Rattle.node_seats.specs.Faults.{IsUnmade};
ghost use Rattle.node_seats.specs.Fences.{grants};

use crate::fault::SeatFault;
use crate::seat::Seat;
use shared_table::{Call, Reply};
use std::sync::Wait;
use std::time::Clock;
use term::{LockId, Pid};
use transaction::{LockSeat, Nodes, Retries};

/// Whether this reply grants a lock.
pub(crate) fn is_granted(reply: &Reply) -> bool
    ensures { result ≡ grants (reply_of reply.now) }
{
    matches!(reply, Reply::True)
}

/// The same nodes, for a call from this seat. Where there is no memory for them, what the seat has against the call comes first.
fn copied(nodes: &Nodes, seat: &Seat) -> Result<Nodes, SeatFault>
    ensures copy { IfOk result (λ copy. copy ≡ nodes.now) }
    ensures unmade { IfErr result (λ fault. IsUnmade fault true) }
{
    match nodes.copy() {
        Ok(copy) => Ok(copy),
        Err(_) => Err(seat.unmade()),
    }
}

/// The seat of one lock holder over a seat at a node: its calls are the seat's, and wait as those do.
#[derive(Drop)]
pub struct HolderSeat<'a, R: Wait + Clock> {
    /// The seat, which may be used between calls.
    pub seat: &'a mut Seat,
    holder: Pid,
    rt: &'a R,
}

impl<'a, R: Wait + Clock> HolderSeat<'a, R> {
    ghost use Rattle.node_seats.specs.Holders.{holder_of};

    /// The seat of this holder. Who it is isn't asked before a call is made.
    pub fn new(seat: &'a mut Seat, holder: Pid, rt: &'a R) -> Self
        ensures same_seat { result.seat.ghost_name ≡ seat.entry.ghost_name }
        ensures seat { result.seat.now ≡ seat.old }
        ensures holder { holder_of result ≡ holder }
    {
        HolderSeat { seat, holder, rt }
    }
}

impl<'a, R: Wait + Clock> LockSeat for HolderSeat<'a, R> {
    ghost use Rattle.transaction.specs.Counts.{set_replies, deletion_replies};
    ghost use Rattle.shared_table.specs.declared.Call.TheVariants.{SetLock, DelLock};
    ghost use Rattle.node_seats.specs.Holders.{holder_of, replies_of, Grows, SetsLock, DeletesLock};

    type Fault = SeatFault;

    ghost replies = { λ s. replies_of s };

    ghost sets = { λ s id nodes retries answer t. Grows s t (set_replies id answer)
        × SetsLock (SetLock (holder_of s) id nodes retries) answer s.seat.now t.seat.now };

    ghost deletes = { λ s id nodes answer t. Grows s t (deletion_replies id answer)
        × DeletesLock (DelLock (holder_of s) id nodes) answer s.seat.now t.seat.now };

    fn set_lock(
        &mut self,
        id: &LockId,
        nodes: &Nodes,
        retries: Retries,
    ) -> Result<bool, SeatFault> {
        let nodes = copied(nodes, self.seat)?;
        let call = Call::SetLock(self.holder.copy(), id.copy(), nodes, retries);
        let reply = self.seat.call(self.rt, call)?;
        Ok(is_granted(&reply))
    }

    fn del_lock(&mut self, id: &LockId, nodes: &Nodes) -> Result<(), SeatFault> {
        let nodes = copied(nodes, self.seat)?;
        let call = Call::DelLock(self.holder.copy(), id.copy(), nodes);
        self.seat.call(self.rt, call)?;
        Ok(())
    }

    ghost set_is_replied = { λ s t id nodes retries answer given. given.0.replies };

    ghost deletion_is_replied = { λ s t id nodes answer given. given.0.replies };
}
