//! What a run came to.
ghost use Rattle.std.specs.Prelude.{◌≡◌, is_some, IfSome};
ghost use Rattle.term.specs.NodeSets.{set_of};
ghost use Rattle.cluster_world.specs.WorldState.{nodes_of};
ghost use Rattle.cluster_world.specs.Seen.{seen};

use cluster_world::{KeptEntry, World};
use name_table::Names;
use std::alloc::Global;
use term::Node;

/// What the run of a closed cluster came to.
#[derive(Drop)]
pub struct Closed<N: Names> {
    /// How many events there were, at all nodes together.
    pub events: u64,
    /// The world that played them.
    pub world: World<N>,
}

impl<N: Names<Memory = Global>> Closed<N> {
    /// The history of the run: all entries, the oldest first.
    pub fn history(&self) -> &[KeptEntry]
        ensures { result.now ≡ self.now.world.history }
    {
        self.world.history()
    }

    /// The last table of a node, or `None` where the node isn't of the cluster.
    pub fn table(&self, node: &Node) -> Option<&N>
        ensures here { is_some result ≡ set_of (nodes_of self.now.world) node.now }
        ensures table { IfSome result (λ table. N.contents table.now ≡ ((seen self.now.world).node node.now).replica.table) }
    {
        self.world.table(node)
    }
}
