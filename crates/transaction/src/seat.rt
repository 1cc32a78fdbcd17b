//! Seats of lock holders.
ghost use Rattle.std.specs.Prelude.{◌≡◌, Bool, List, Result, ◌++◌};
ghost use Rattle.term.specs.declared.lock_id.LockId.{LockId as AnyId};
ghost use Rattle.transaction.specs.declared.nodes.Nodes.{Nodes as AnyNodes};
ghost use Rattle.transaction.specs.declared.nodes.Retries.{Retries as AnyRetries};
ghost use Rattle.transaction.specs.declared.reply.LockReply.{LockReply as AnyReply};
ghost use Rattle.transaction.specs.Counts.{set_replies, deletion_replies};

use crate::nodes::{Nodes, Retries};
use term::LockId;

/// The seat of one holder, who sets and deletes locks from it. How often the holder has a lock is counted by the replies that
/// the seat got.
pub trait LockSeat {
    /// Why a call got no reply.
    type Fault;

    /// The replies so far, the oldest first.
    ghost replies: { Self → List AnyReply };

    /// A call of `set_lock` may answer so, and leave such a seat.
    ghost sets: { Self → AnyId → AnyNodes → AnyRetries → Result Bool Self.Fault → Self → Type 0 };

    /// A call of `del_lock` may answer so, and leave such a seat.
    ghost deletes: { Self → AnyId → AnyNodes → Result Unit Self.Fault → Self → Type 0 };

    /// Sets a lock for the holder, and tells whether it was granted. After a fault this isn't known, and the seat has no
    /// reply more.
    fn set_lock(
        &mut self,
        id: &LockId,
        nodes: &Nodes,
        retries: Retries,
    ) -> Result<bool, Self::Fault>
        ensures { sets self.old id.now nodes.now retries result self.new };

    /// Takes one count of the holder's lock away, if there is one. After a fault it isn't known whether it was, and the seat
    /// has no reply more.
    fn del_lock(&mut self, id: &LockId, nodes: &Nodes) -> Result<(), Self::Fault>
        ensures { deletes self.old id.now nodes.now result self.new };

    /// Each call of `set_lock` gets one reply, or a fault.
    ghost set_is_replied: { (s t : Self) (id : AnyId) (nodes : AnyNodes) (retries : AnyRetries) (answer : Result Bool Self.Fault)
        → sets s id nodes retries answer t → replies t ≡ replies s ++ set_replies id answer };

    /// Each call of `del_lock` gets one reply, or a fault.
    ghost deletion_is_replied: { (s t : Self) (id : AnyId) (nodes : AnyNodes) (answer : Result Unit Self.Fault)
        → deletes s id nodes answer t → replies t ≡ replies s ++ deletion_replies id answer };
}
