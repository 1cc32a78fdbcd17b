//! Calls as they are kept.
ghost use Rattle.std.specs.Prelude.{◌≡◌, IfOk};
ghost use Rattle.protocol_model.specs.Client.{in_phase};
ghost use Rattle.locker.specs.RoundState.{seen};
ghost use Rattle.lock_calls.specs.declared.call.CallPhase.TheVariants.{Waiting};
ghost use Rattle.lock_calls.specs.Calls.{as_call};
ghost use Rattle.lock_calls.specs.Standing.{answered, lost, with_one_less, asking_again};

use crate::call::{CallPhase, LockCall};
use locker::Round;
use std::alloc::{AllocError, Global};
use std::marker::Model;
use term::Node;

/// A call in memory of its own: it is large, and a map moves what it has.
#[derive(Drop)]
pub(crate) struct KeptCall {
    call: Box<LockCall>,
}

impl Model for KeptCall {
    ghost use Rattle.lock_calls.specs.declared.call.LockCall.{LockCall};

    ghost Value = { LockCall };

    ghost view = { λ k. k.call.value };
}

impl KeptCall {
    /// Keeps a call.
    pub(crate) fn new(alloc: Global, call: LockCall) -> Result<Self, AllocError>
        ensures { IfOk result (λ kept. kept ≡ call) }
    {
        Ok(KeptCall {
            call: Box::new(alloc, call)?,
        })
    }

    /// The call.
    pub(crate) fn call(&self) -> &LockCall
        ensures { result.now ≡ self.now }
    {
        self.call.as_ref()
    }

    /// Keeps another call in place of this one.
    pub(crate) fn set(&mut self, call: LockCall)
        ensures { self.new ≡ call }
    {
        *self.call = call;
    }

    /// Tells the round of the call, where it asks, of a node's answer.
    pub(crate) fn answer(&mut self, from: &Node, granted: bool)
        ensures { as_call self.new ≡ in_phase (answered from.now granted (as_call self.old).phase) (as_call self.old) }
    {
        if let CallPhase::Asking(round) = &mut self.call.phase {
            round.answer(from, granted);
        }
    }

    /// Tells the round of the call, where it asks, that a node has gone down.
    pub(crate) fn lose(&mut self, gone: &Node)
        ensures { as_call self.new ≡ in_phase (lost gone.now (as_call self.old).phase) (as_call self.old) }
    {
        if let CallPhase::Asking(round) = &mut self.call.phase {
            round.down(gone);
        }
    }

    /// The call waits for a retry.
    pub(crate) fn wait(&mut self)
        ensures { self.new ≡ record self.old { phase = Waiting } }
    {
        self.call.phase = CallPhase::Waiting;
    }

    /// The call uses one retry, and asks by this round.
    pub(crate) fn ask_again(&mut self, round: Round)
        ensures { as_call self.new ≡ asking_again (seen round) (as_call self.old) }
    {
        self.call.retries = self.call.retries.one_less();
        self.call.phase = CallPhase::Asking(round);
    }

    /// Tells the call, where it is a deletion, that a node has given the lock up.
    pub(crate) fn give_up(&mut self, from: &Node)
        ensures { self.new ≡ record self.old { phase = with_one_less from.now self.old.phase } }
    {
        if let CallPhase::Deleting(owing) = &mut self.call.phase {
            owing.remove(from);
        }
    }

    /// The call, kept no more.
    pub(crate) fn into_call(self) -> LockCall
        ensures { result ≡ self }
    {
        Box::into_inner(self.call)
    }
}

impl Clone for KeptCall {
    ghost is_clone = { λ k l. l ≡ k };

    fn clone(&self) -> Result<Self, AllocError> {
        let alloc = *Box::allocator(&self.call);
        KeptCall::new(alloc, self.call.as_ref().copy()?)
    }
}
