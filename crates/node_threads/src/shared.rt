//! What the threads of a cluster have in common.
ghost use Rattle.std.specs.Prelude.{◌≡◌, IfOk};
ghost use Rattle.node_seats.specs.Callers.{nodes_at};

use node_loop::Gate;
use node_seats::Hub;
use std::alloc::{AllocError, Global};
use std::sync::Arc;
use term::NodeSet;

/// The gate and the hub of a cluster, how long its threads watch before they sleep, and where the stamps of its nodes begin.
#[derive(Drop)]
pub(crate) struct Shared<G: Gate + Drop> {
    pub(crate) gate: Arc<G, Global>,
    pub(crate) hub: Arc<Hub, Global>,
    /// How often a thread, or a caller, yields at most before it sleeps.
    pub(crate) yields: u32,
    /// The loops of its nodes begin with this stamp.
    pub(crate) stamp: u64,
}

impl<G: Gate + Drop> Shared<G> {
    /// This gate, and a hub without replies for a cluster of these nodes.
    pub(crate) fn new(
        alloc: Global,
        nodes: &NodeSet,
        gate: G,
        yields: u32,
        stamp: u64,
    ) -> Result<Self, AllocError>
        ensures { IfOk result (λ shared. nodes_at shared.hub.value ≡ nodes.now) }
    {
        let gate = Arc::new(alloc, gate)?;
        let hub = Arc::new(alloc, Hub::new(alloc, nodes)?)?;
        Ok(Shared {
            gate,
            hub,
            yields,
            stamp,
        })
    }
}
