//! How a world is started.
ghost use Rattle.std.specs.Prelude.{◌≡◌, [], None, map, IfOk, IfErr};
ghost use Rattle.std.specs.List.{All};
ghost use Rattle.getting_through.specs.Leftovers.{NothingIsLeft};
ghost use Rattle.getting_through.specs.NamedWorld.{opening_named};
ghost use Rattle.getting_through.specs.WorldsOfNames.{of_names};
ghost use Rattle.term.specs.Nodes.{IsFirst};
ghost use Rattle.term.specs.NodeSets.{IsNodeSet};
ghost use Rattle.world_events.specs.Openings.{start_refused, start_fault_of};
ghost use Rattle.node_core.specs.CoreState.{opening_core};
ghost use Rattle.cluster_world.specs.WorldState.{nodes_of};
ghost use Rattle.cluster_world.specs.Seen.{names_of, opening_of, seen, named};
ghost use Rattle.cluster_world.specs.Agreeing.{AgreesAfter};
ghost use Rattle.cluster_world.specs.Locks.{LocksAfter};
ghost use Rattle.cluster_world.specs.Starting.{Opens};

use crate::mail::Mail;
use crate::world::World;
use name_table::Names;
use node_core::NodeCore;
use past::Trace;
use std::alloc::{AllocError, Global};
use term::NodeName;
use world_events::{Opening, StartFault, Turn};
use world_history::History;

/// The core that each node opens with.
fn cores_of<N: Names<Memory = Global>>(
    alloc: Global,
    opening: &Opening,
) -> Result<Vec<NodeCore<N>>, AllocError>
    ensures cores { IfOk result (λ cores. cores.items ≡ map (opening_core opening.now.nodes opening.now.cluster) opening.now.nodes) }
    ensures set { IfOk result (λ cores. IsNodeSet opening.now.nodes) }
{
    let mut cores = Vec::new(alloc);
    for node in opening.nodes().as_slice() {
        cores.push(NodeCore::open(alloc, opening, node))?;
    }
    Ok(cores)
}

impl<N: Names<Memory = Global>> World<N> {
    /// A world of the nodes of `cluster`, which are joined with each other, and of lone nodes, each of which stands for itself. A
    /// world without a joined node is refused as `NoNode`, then one that names a node twice as `SameNode`, then one of more than
    /// eight nodes as `TooManyNodes`.
    pub fn start(
        alloc: Global,
        cluster: &[NodeName],
        lone: &[NodeName],
    ) -> Result<World<N>, StartFault>
        ensures nodes { IfOk result (λ world. Opens cluster.now lone.now world) }
        ensures world { IfOk result (λ world. named world ≡ opening_named (names_of world)) }
        ensures agrees { IfOk result (λ world. AgreesAfter [] world) }
        ensures locks { IfOk result (λ world. LocksAfter (opening_of world) [] (seen world)) }
        ensures leaves_nothing { IfOk result (λ world. NothingIsLeft (of_names (names_of world)) [] (named world)) }
        ensures first { IfOk result (λ world. All IsFirst (nodes_of world)) }
        ensures ok { IfOk result (λ world. start_refused cluster.now lone.now ≡ None) }
        ensures err { IfErr result (λ fault. start_refused cluster.now lone.now ≡ start_fault_of fault) }
    {
        let opening = Opening::of(cluster, lone)?;
        let cores = cores_of(alloc, &opening)?;
        let links = Mail::new(alloc, opening.nodes())?;
        let history = History::new(alloc, opening.nodes())?;
        Ok(World {
            cluster: opening.cluster().copy(),
            cores,
            past: Trace::new(),
            links,
            history,
            spare: Turn::begin(alloc),
        })
    }
}
