//! The numbers of the steps that grant locks.
ghost use Rattle.std.specs.Prelude.{◌≡◌, ◌&&◌, Some, if◌then◌else◌};
ghost use Rattle.shared_table.specs.NodeEventsSeen.{reply_of};
ghost use Rattle.node_seats.specs.Fences.{fence_of, grants, sets_lock as any_sets_lock};

use crate::asking::Given;
use crate::holder::is_granted;
use shared_table::Call;
use term::{MOST_NODES, Node, NodeSet};

/// Whether a call asks for a lock.
pub(crate) fn sets_lock(call: &Call) -> bool
    ensures { result ≡ any_sets_lock call.now }
{
    matches!(call, Call::SetLock(..))
}

/// The stamp of the last step that granted a lock, where a call was answered so that asks for one or doesn't.
pub(crate) fn granted_after(sets: bool, given: &Given, last: Option<u64>) -> Option<u64>
    ensures { result ≡ (if sets && grants (reply_of given.now.answer.reply) then Some given.now.stamp else last) }
{
    if sets && is_granted(&given.answer.reply) {
        Some(given.stamp)
    } else {
        last
    }
}

/// The number of the step with this stamp of a node among these, if there is one: each stamp has as many numbers as nodes may be.
pub(crate) fn fence_of(nodes: &NodeSet, node: &Node, granted: Option<u64>) -> Option<u128>
    ensures { result ≡ fence_of nodes.now node.now granted }
{
    let place = nodes.position(node).unwrap_or(0);
    match granted {
        Some(stamp) => Some(u128::from(stamp) * MOST_NODES as u128 + place as u128),
        None => None,
    }
}
