//! What a cluster comes to, whether its nodes kept their steps or not.
ghost use Rattle.std.specs.Prelude.{◌≡◌, map, IfOk, IfErr};
ghost use Rattle.replay.specs.Ends.{end_by};
ghost use Rattle.node_threads.specs.Ending.{Adds, IsUntold, IsWhy, TellsOf};

use name_table::Names;
use node_loop::{NodeEnd, Record};
use std::alloc::Global;
use term::Node;
use thiserror::Error;

/// What a cluster came to: its run was one of the world's.
#[derive(Drop)]
pub struct EndedCluster<N: Names> {
    /// How many steps the run had.
    pub events: u64,
    /// The last table of each node.
    pub tables: Vec<(Node, N)>,
}

/// Why it isn't told what a cluster came to.
#[derive(Debug, PartialEq, Eq, Error, Drop)]
pub enum EndFault {
    /// The last turn of this node's thread failed, and the node hadn't left.
    #[error("left_in_hold {0}")]
    LeftInHold(Node),
    /// Memory was refused, or there were more steps than a `u64` can tell.
    #[error("memory")]
    Memory,
}

impl<N: Names> EndedCluster<N> {
    ghost use Rattle.std.specs.Prelude.{◌≡◌, []};

    /// Of no node yet. It takes no memory.
    fn new(alloc: Global) -> Self
        ensures events { result.events ≡ 0 }
        ensures tables { result.tables.items ≡ [] }
    {
        EndedCluster {
            events: 0,
            tables: Vec::new(alloc),
        }
    }
}

/// What one thread more left behind is told of.
fn add<N: Names, L: Record>(
    ended: EndedCluster<N>,
    end: NodeEnd<N, L>,
) -> Result<EndedCluster<N>, EndFault>
    ensures ok { IfOk result (λ more. Adds N.contents (end_by N.contents L.logged end) ended more) }
    ensures err { IfErr result (λ fault. IsUntold fault (end_by N.contents L.logged end)) }
{
    let EndedCluster { events, mut tables } = ended;
    let NodeEnd {
        log,
        table,
        ended_alone,
    } = end;
    if ended_alone {
        return Err(EndFault::LeftInHold(log.node().copy()));
    }
    let Some(events) = events.checked_add(log.count()) else {
        return Err(EndFault::Memory);
    };
    match tables.push((log.node().copy(), table)) {
        Ok(()) => Ok(EndedCluster { events, tables }),
        Err(_) => Err(EndFault::Memory),
    }
}

/// What all threads left behind is told of.
pub(crate) fn tell_of<N: Names, L: Record>(
    alloc: Global,
    ends: Vec<NodeEnd<N, L>>,
) -> Result<EndedCluster<N>, EndFault>
    ensures ok { IfOk result (λ ended. TellsOf N.contents (map (end_by N.contents L.logged) ends.items) ended) }
    ensures err { IfErr result (λ fault. IsWhy fault (map (end_by N.contents L.logged) ends.items)) }
{
    let mut ended = EndedCluster::new(alloc);
    for end in ends {
        match add(ended, end) {
            Ok(more) => ended = more,
            Err(fault) => return Err(fault),
        }
    }
    Ok(ended)
}
