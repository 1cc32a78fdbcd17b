//! The calls of one node.
ghost use Rattle.std.specs.Prelude.{◌≡◌, ◌==◌, ◌<◌, ◌⊎◌, None, length, map, All, IfOk, IfSome, OnOk, OnErr};
ghost use Rattle.std.specs.List.{list_any, IsAmong};
ghost use Rattle.std.specs.Option.{option_map, option_copied};
ghost use Rattle.protocol_model.specs.Node.{LockPhase, call_of, put_call, drop_call};
ghost use Rattle.protocol_model.specs.Event.{is_waiting_call};
ghost use Rattle.locker.specs.RoundState.{seen as seen_round};
ghost use Rattle.lock_calls.specs.Calls.{as_call};
ghost use Rattle.lock_calls.specs.LockCallsState.{none_at, seen, AreOrdered};
ghost use Rattle.lock_calls.specs.Standing.{stands_by, asks_again, answered, lost, given_up};

use crate::call::LockCall;
use crate::kept::KeptCall;
use locker::Round;
use std::alloc::{AllocError, Global};
use std::collections::BTreeMap;
use std::marker::Model;
use term::{Node, Pid};

/// The unanswered lock calls of one node, by the serials of the processes that made them.
#[derive(Drop)]
pub struct LockCalls {
    alloc: Global,
    node: Node,
    calls: BTreeMap<u32, KeptCall>,
}

impl Model for LockCalls {
    ghost use Rattle.std.specs.BTreeMap.{values};
    ghost use Rattle.lock_calls.specs.LockCallsState.{LockCallsState, IsFiled};

    ghost Value = { LockCallsState };

    ghost view = { λ l. record { node = l.node; calls = values l.calls } };

    ghost invariant = { λ l. IsFiled l.node l.calls };
}

impl LockCalls {
    /// No call of this node. It takes no memory yet.
    pub fn new(alloc: Global, node: Node) -> Self
        ensures { result ≡ none_at node }
    {
        LockCalls {
            alloc,
            node,
            calls: BTreeMap::new(alloc),
        }
    }

    /// How many processes have a call.
    pub fn len(&self) -> usize
        ensures { result ≡ length self.now.calls }
    {
        self.calls.len()
    }

    /// Whether no process has a call.
    pub fn is_empty(&self) -> bool
        ensures { result ≡ (length self.now.calls == 0) }
    {
        self.len() == 0
    }

    /// The same calls, in memory of their own.
    pub fn copy(&self) -> Result<Self, AllocError>
        ensures { IfOk result (λ copy. copy ≡ self.now) }
    {
        Ok(LockCalls {
            alloc: self.alloc,
            node: self.node.copy(),
            calls: self.calls.clone()?,
        })
    }

    /// The call of a process, if it has one.
    pub fn get(&self, holder: &Pid) -> Option<&LockCall>
        ensures call { option_map as_call (option_copied result) ≡ call_of holder.now (seen self.now) }
        ensures member { IfSome result (λ call. IsAmong self.now.calls call.now) }
        ensures ordered { AreOrdered self.now.node (seen self.now) }
    {
        if holder.node != self.node {
            return None;
        }
        let kept = self.calls.get(&holder.serial)?;
        Some(kept.call())
    }

    /// Puts a call of a process of the node, in place of the one that the process has. `AllocError`: there is no memory
    /// for the first call of the process, and nothing changes.
    pub fn put(&mut self, call: LockCall) -> Result<(), AllocError>
        requires own { call.holder.node ≡ self.old.node }
        requires live { 0 < call.holder.serial }
        ensures node { self.new.node ≡ self.old.node }
        ensures ok { OnOk result (seen self.new ≡ put_call (as_call call) (seen self.old)) }
        ensures only_new { OnOk result (All (λ c. (c ≡ call) ⊎ IsAmong self.old.calls c) self.new.calls) }
        ensures unchanged { OnErr result (self.new ≡ self.old) }
        ensures err { OnErr result (call_of call.holder (seen self.old) ≡ None) }
        ensures ordered { AreOrdered self.old.node (seen self.old) }
    {
        let serial = call.holder.serial;
        if let Some(kept) = self.calls.get_mut(&serial) {
            kept.set(call);
            return Ok(());
        }
        let kept = KeptCall::new(self.alloc, call)?;
        self.calls.insert(serial, kept)?;
        Ok(())
    }

    /// Tells the round of a process's call, where the process has a call whose round asks, of a node's answer. It takes no memory.
    pub fn answer(&mut self, holder: &Pid, from: &Node, granted: bool)
        ensures node { self.new.node ≡ self.old.node }
        ensures calls { seen self.new ≡ stands_by (answered from.now granted) (call_of holder.now (seen self.old)) (seen self.old) }
    {
        if holder.node != self.node {
            return;
        }
        let Some(kept) = self.calls.get_mut(&holder.serial) else {
            return;
        };
        kept.answer(from, granted);
    }

    /// Tells the round of a process's call, where the process has a call whose round asks, that a node has gone down. It takes
    /// no memory.
    pub fn lose(&mut self, holder: &Pid, gone: &Node)
        ensures node { self.new.node ≡ self.old.node }
        ensures calls { seen self.new ≡ stands_by (lost gone.now) (call_of holder.now (seen self.old)) (seen self.old) }
    {
        if holder.node != self.node {
            return;
        }
        let Some(kept) = self.calls.get_mut(&holder.serial) else {
            return;
        };
        kept.lose(gone);
    }

    /// The process's call, if it has one, waits for a retry from now on. It takes no memory.
    pub fn wait(&mut self, holder: &Pid)
        ensures node { self.new.node ≡ self.old.node }
        ensures calls { seen self.new ≡ stands_by (λ _. LockPhase.Waiting) (call_of holder.now (seen self.old)) (seen self.old) }
    {
        if holder.node != self.node {
            return;
        }
        let Some(kept) = self.calls.get_mut(&holder.serial) else {
            return;
        };
        kept.wait();
    }

    /// The process's call, if it has one, uses one retry and asks by this round from now on. It takes no memory.
    pub fn ask_again(&mut self, holder: &Pid, round: Round)
        ensures node { self.new.node ≡ self.old.node }
        ensures calls { seen self.new ≡ asks_again (seen_round round) (call_of holder.now (seen self.old)) (seen self.old) }
    {
        if holder.node != self.node {
            return;
        }
        let Some(kept) = self.calls.get_mut(&holder.serial) else {
            return;
        };
        kept.ask_again(round);
    }

    /// Tells the deletion of a process's call, where the process has a call that is one, that a node has given the lock up. It
    /// takes no memory.
    pub fn give_up(&mut self, holder: &Pid, from: &Node)
        ensures node { self.new.node ≡ self.old.node }
        ensures calls { seen self.new ≡ stands_by (given_up from.now) (call_of holder.now (seen self.old)) (seen self.old) }
    {
        if holder.node != self.node {
            return;
        }
        let Some(kept) = self.calls.get_mut(&holder.serial) else {
            return;
        };
        kept.give_up(from);
    }

    /// Takes the call of a process out, if it has one.
    pub fn take(&mut self, holder: &Pid) -> Option<LockCall>
        ensures node { self.new.node ≡ self.old.node }
        ensures calls { seen self.new ≡ drop_call holder.now (seen self.old) }
        ensures call { option_map as_call result ≡ call_of holder.now (seen self.old) }
        ensures member { IfSome result (IsAmong self.old.calls) }
        ensures none_new { All (IsAmong self.old.calls) self.new.calls }
        ensures ordered { AreOrdered self.old.node (seen self.old) }
    {
        if holder.node != self.node {
            return None;
        }
        let kept = self.calls.remove(&holder.serial)?;
        Some(kept.into_call())
    }

    /// Whether some call waits for a retry. It looks at one call after another.
    pub fn has_waiting(&self) -> bool
        ensures { result ≡ list_any (λ c. is_waiting_call c.phase) (seen self.now) }
    {
        self.calls
            .values()
            .any(|kept| kept.call().phase.is_waiting())
    }

    /// The processes that have a call, rising by serial.
    pub fn holders(&self, alloc: Global) -> Result<Vec<Pid>, AllocError>
        ensures holders { IfOk result (λ holders. holders.items ≡ map (λ c. c.holder) self.now.calls) }
        ensures ordered { AreOrdered self.now.node (seen self.now) }
    {
        self.calls
            .values()
            .map(|kept| kept.call().holder.copy())
            .collect(alloc)
    }
}
