//! What a step enters into the history.
ghost use Rattle.std.specs.Prelude.{◌≡◌, ◌≤◌, ◌++◌, length, map};
ghost use Rattle.protocol_model.specs.World.{number_in};
ghost use Rattle.node_core.specs.NodeEventsSeen.{entry_by};
ghost use Rattle.node_core.specs.Seen.{node_of};
ghost use Rattle.world_history.specs.Histories.{entries_of};
ghost use Rattle.cluster_world.specs.Cores.{core_of};
ghost use Rattle.cluster_world.specs.Histories.{number_of, number_at};

use name_table::Names;
use node_core::{Entry, NodeCore};
use std::alloc::Global;
use term::Node;
use world_history::History;

/// The number of a core's join that waits for its contact, or 0 where it has none.
pub(crate) fn join_of<N: Names<Memory = Global>>(core: &NodeCore<N>) -> u32
    ensures { result ≡ number_in (node_of core.now).current }
{
    core.join_number().unwrap_or(0)
}

/// The same of a node, which is 0 where it has no core.
fn number_of<N: Names<Memory = Global>>(cores: &[NodeCore<N>], node: &Node) -> u32
    ensures { result ≡ number_of (core_of node.now cores.now) }
{
    for core in cores {
        if core.node() == node {
            return join_of(core);
        }
    }
    0
}

/// The number of the join of a node, when the node `stepped` had the join `own` before its step, and has made it.
fn number_at<N: Names<Memory = Global>>(
    cores: &[NodeCore<N>],
    stepped: &Node,
    own: u32,
    node: &Node,
) -> u32
    ensures { result ≡ number_at cores.now stepped.now own node.now }
{
    if node == stepped {
        own
    } else {
        number_of(cores, node)
    }
}

/// The number of the join that an entry decides for another node, which knows it, or 0 where it decides none.
fn number_for<N: Names<Memory = Global>>(
    entry: &Entry,
    cores: &[NodeCore<N>],
    stepped: &Node,
    own: u32,
) -> u32
    ensures { entry_by (λ _. result) entry.now ≡ entry_by (number_at cores.now stepped.now own) entry.now }
{
    match entry {
        Entry::Joined(joiner, _) | Entry::NotMember(joiner, _) => {
            number_at(cores, stepped, own, joiner)
        }
        _ => 0,
    }
}

/// Puts what the node `stepped` entered, which had the join `own` before its step, at the end of the history, and empties the list. It
/// takes no memory that can be refused, since there is room. Entries are large: so each is read where it lies, and not moved first.
pub(crate) fn enter_all<N: Names<Memory = Global>>(
    history: &mut History,
    entries: &mut Vec<Entry>,
    cores: &[NodeCore<N>],
    stepped: &Node,
    own: u32,
)
    requires { length entries.old.items ≤ history.old.room }
    ensures { entries_of history.new.entries
        ≡ entries_of history.old.entries ++ map (entry_by (number_at cores.now stepped.now own)) entries.old.items }
{
    for entry in entries.iter_mut() {
        let number = number_for(entry, cores, stepped, own);
        history.enter(entry, number);
    }
    entries.clear();
}
