//! What the threads of a cluster share with its seats: its nodes, by what callers are woken, and whether the cluster is being closed.
ghost use Rattle.std.specs.Prelude.{◌≡◌, ◌<◌, vec_len, IfOk};
ghost use Rattle.term.specs.declared.limits.TheConstants.{SLOTS};

use crate::bell::{Bell, Rest};
use std::alloc::{AllocError, Global};
use std::sync::atomic::{AtomicBool, Ordering};
use term::{NodeSet, SLOTS};

/// The nodes of a cluster, by what all callers are woken, whether its threads are asked to end, and whether it is over, so that nobody reads a
/// table any more.
#[derive(Drop)]
pub struct Hub {
    nodes: NodeSet,
    closing: AtomicBool,
    over: AtomicBool,
    /// One for each slot.
    bells: Vec<Bell>,
    ghost all: { vec_len bells ≡ SLOTS },
}

impl Hub {
    ghost use Rattle.node_seats.specs.Callers.{nodes_at};

    /// That of a cluster of these nodes.
    pub fn new(alloc: Global, nodes: &NodeSet) -> Result<Self, AllocError>
        ensures { IfOk result (λ hub. nodes_at hub ≡ nodes.now) }
    {
        let mut bells = Vec::new(alloc);
        for _ in 0..SLOTS {
            bells.push(Bell::new(alloc)?)?;
        }
        Ok(Hub {
            nodes: nodes.copy(),
            closing: AtomicBool::new(false),
            over: AtomicBool::new(false),
            bells,
        })
    }

    /// The nodes of the cluster.
    pub(crate) fn nodes(&self) -> &NodeSet
        ensures { result.now ≡ nodes_at self.now }
    {
        &self.nodes
    }

    /// The rest of the caller with this slot, which its replies end.
    pub(crate) fn rest(&self, slot: u32, yields: u32) -> Result<Rest, AllocError>
        requires { slot < SLOTS }
    {
        self.bells[slot as usize].rest(yields)
    }

    /// Wakes the caller with this slot.
    pub(crate) fn wake(&self, slot: u32) {
        if let Some(bell) = self.bells.get(slot as usize) {
            bell.ring();
        }
    }

    /// Wakes all callers.
    pub(crate) fn ring(&self) {
        for bell in &self.bells {
            bell.ring();
        }
    }

    /// The cluster is over: it asks all threads to end, and nobody reads a table any more. Ring the threads' bells then.
    pub(crate) fn end(&self) {
        self.over.store(true, Ordering::SeqCst);
        self.close();
    }

    /// Whether the cluster is over.
    pub(crate) fn is_over(&self) -> bool {
        self.over.load(Ordering::SeqCst)
    }

    /// Asks all threads to end, and tells the callers. Ring the threads' bells then.
    pub(crate) fn close(&self) {
        self.closing.store(true, Ordering::SeqCst);
        self.ring();
    }

    /// Whether all threads are asked to end.
    pub(crate) fn is_closing(&self) -> bool {
        self.closing.load(Ordering::SeqCst)
    }
}
