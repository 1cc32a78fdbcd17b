//! The nodes' last tables beside those of the world.
ghost use Rattle.std.specs.Prelude.{◌≡◌, ◌<◌, true, length, map, nat_lt, All, IfOk, IfSome, MatchBool};
ghost use Rattle.term.specs.NodeSets.{set_of};
ghost use Rattle.cluster_world.specs.WorldState.{nodes_of};
ghost use Rattle.cluster_world.specs.Seen.{seen};
ghost use Rattle.replay.specs.Ends.{end_of, is_lesser, EndedWell, HasTableOf};
ghost use Rattle.replay.specs.Least.{LeastOther, IsChosen};

use crate::equal::same_pairs;
use cluster_world::World;
use name_table::Names;
use node_log::NodeEnd;
use std::alloc::{AllocError, Global};

/// Of an end and the least so far, the place of that whose node is less.
fn least_of<N: Names>(ends: &[NodeEnd<N>], least: Option<usize>, place: usize) -> Option<usize>
    requires here { place < length ends.now }
    requires there { IfSome least (λ k. k < length ends.now) }
    ensures { IsChosen (λ e f. nat_lt e.log.node f.log.node) ends.now place least result }
{
    let Some(best) = least else {
        return Some(place);
    };
    if *ends[place].log.node() < *ends[best].log.node() {
        Some(place)
    } else {
        Some(best)
    }
}

/// The place of the end of the least node whose thread ended alone, if one did.
pub(crate) fn least_alone<N: Names>(ends: &[NodeEnd<N>]) -> Option<usize>
    ensures { LeastOther EndedWell is_lesser (map (end_of N.contents) ends.now) (length ends.now) result }
{
    let mut least: Option<usize> = None;
    for (place, end) in ends.iter().enumerate() {
        if !end.ended_alone {
            continue;
        }
        least = least_of(ends, least, place);
    }
    least
}

/// Whether the last table of a node is the one that it has in the world.
fn has_table<N: Names<Memory = Global>>(
    alloc: Global,
    world: &World<N>,
    end: &NodeEnd<N>,
) -> Result<bool, AllocError>
    requires { set_of (nodes_of world.now) end.now.log.node ≡ true }
    ensures { IfOk result (λ same. MatchBool same (HasTableOf (seen world.now) (end_of N.contents end.now))
        (HasTableOf (seen world.now) (end_of N.contents end.now) → ⊥)) }
{
    let Some(table) = world.table(end.log.node()) else {
        return Ok(false);
    };
    let own = end.table.pairs(alloc)?;
    let others = table.pairs(alloc)?;
    Ok(same_pairs(own.as_slice(), others.as_slice()))
}

/// The place of the end of the least node whose last table isn't the one that it has in the world, if there is one.
pub(crate) fn least_other_table<N: Names<Memory = Global>>(
    alloc: Global,
    world: &World<N>,
    ends: &[NodeEnd<N>],
) -> Result<Option<usize>, AllocError>
    requires { All (λ e. set_of (nodes_of world.now) e.log.node ≡ true) ends.now }
    ensures { IfOk result (LeastOther (HasTableOf (seen world.now)) is_lesser (map (end_of N.contents) ends.now) (length ends.now)) }
{
    let mut least: Option<usize> = None;
    for (place, end) in ends.iter().enumerate() {
        if has_table(alloc, world, end)? {
            continue;
        }
        least = least_of(ends, least, place);
    }
    Ok(least)
}
