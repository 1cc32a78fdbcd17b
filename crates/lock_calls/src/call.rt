//! Lock calls.
ghost use Rattle.std.specs.Prelude.{◌≡◌, true, IfOk, OnErr};
ghost use Rattle.protocol_model.specs.Event.{is_waiting_call};
ghost use Rattle.transaction.specs.Calls.{is_named};
ghost use Rattle.lock_calls.specs.Calls.{phase_of};

use locker::Round;
use std::alloc::AllocError;
use term::{LockId, NodeSet, Pid};
use transaction::{Nodes, Retries};

/// Where a lock call stands.
#[derive(Drop)]
pub enum CallPhase {
    /// Its round asks for the lock.
    Asking(Round),
    /// Its round was refused, and a retry is waited for.
    Waiting,
    /// It is a deletion, and these nodes owe word that they gave the lock up.
    Deleting(NodeSet),
}

impl CallPhase {
    /// The same phase. It takes no memory.
    pub fn copy(&self) -> Self
        ensures { result ≡ self.now }
    {
        match self {
            CallPhase::Asking(round) => CallPhase::Asking(round.copy()),
            CallPhase::Waiting => CallPhase::Waiting,
            CallPhase::Deleting(owing) => CallPhase::Deleting(owing.copy()),
        }
    }

    /// Whether a retry is waited for.
    pub fn is_waiting(&self) -> bool
        ensures { result ≡ is_waiting_call (phase_of self.now) }
    {
        matches!(self, CallPhase::Waiting)
    }
}

/// An unanswered lock call of a process.
#[derive(Drop)]
pub struct LockCall {
    /// The process that has the lock once the call is granted, or that gives it up.
    pub holder: Pid,
    /// The number of the call at its node.
    pub number: u32,
    /// What the lock is on, and in whose name it is held.
    pub id: LockId,
    /// Whom it asks.
    pub nodes: Nodes,
    /// How often it may begin anew.
    pub retries: Retries,
    /// Where it stands.
    pub phase: CallPhase,
}

impl LockCall {
    /// The same call. Only named nodes take memory.
    pub fn copy(&self) -> Result<Self, AllocError>
        ensures copy { IfOk result (λ copy. copy ≡ self.now) }
        ensures named { OnErr result (is_named self.now.nodes ≡ true) }
    {
        Ok(LockCall {
            holder: self.holder.copy(),
            number: self.number,
            id: self.id.copy(),
            nodes: self.nodes.copy()?,
            retries: self.retries.copy(),
            phase: self.phase.copy(),
        })
    }
}
