//! What the lock calls of a console ask for, and which of them wait in a line.
ghost use Rattle.std.specs.Prelude.{◌≡◌, ℕ, None};
ghost use Rattle.term.specs.NodeSets.{set_of};
ghost use Rattle.console.specs.Locking.{are_members as all_members, asks, is_granted as any_granted, IsRequestOf, sets_lock as any_sets_lock, waits_in_line as any_waits};

use command_lines::{Call, Reply};
use lock_lines::Request;
use node_seats::{Nodes, Retries, SeatFault};
use term::{LockId, NodeSet, Pid};

/// The nodes that a lock call asks, where these are the members of its node.
fn asked_nodes(nodes: &Nodes, members: &NodeSet) -> NodeSet
    ensures { (node : ℕ) → set_of result node ≡ asks nodes.now members.now node }
{
    match nodes {
        Nodes::All => members.copy(),
        Nodes::Named(named) => members.named(named.as_set()),
    }
}

/// Whether a lock call names members alone. One that names another node is refused at once.
fn are_members(nodes: &Nodes, members: &NodeSet) -> bool
    ensures { result ≡ all_members nodes.now members.now }
{
    match nodes {
        Nodes::All => true,
        Nodes::Named(named) => named
            .as_set()
            .as_slice()
            .iter()
            .all(|name| members.has_name(name)),
    }
}

/// What is asked for of these nodes, where these are the members.
fn requested(holder: &Pid, id: &LockId, nodes: &Nodes, members: &NodeSet) -> Request
    ensures holder { result.holder ≡ holder.now }
    ensures id { result.id ≡ id.now }
    ensures nodes { (node : ℕ) → set_of result.nodes node ≡ asks nodes.now members.now node }
{
    Request {
        holder: holder.copy(),
        id: id.copy(),
        nodes: asked_nodes(nodes, members),
    }
}

/// Whether a call asks for a lock.
pub(crate) fn sets_lock(call: &Call) -> bool
    ensures { result ≡ any_sets_lock call.now }
{
    matches!(call, Call::SetLock(..))
}

/// What a lock call asks for, where these are the members of its node. `None`: it is no lock call.
pub(crate) fn request_of(call: &Call, members: &NodeSet) -> Option<Request>
    ensures { IsRequestOf call.now members.now result }
{
    match call {
        Call::SetLock(holder, id, nodes, _) => Some(requested(holder, id, nodes, members)),
        Call::DelLock(holder, id, nodes) => Some(requested(holder, id, nodes, members)),
        _ => None,
    }
}

/// Whether a call waits in the line of its resource before its node is asked: one for a lock that is retried without end.
pub(crate) fn waits_in_line(call: &Call, members: &NodeSet) -> bool
    ensures { result ≡ any_waits call.now members.now }
{
    match call {
        Call::SetLock(_, _, nodes, Retries::Endless) => are_members(nodes, members),
        _ => false,
    }
}

/// Whether a process has the lock for which it asked.
pub(crate) fn is_granted(outcome: &Result<Reply, SeatFault>) -> bool
    ensures { result ≡ any_granted outcome.now }
{
    matches!(outcome, Ok(Reply::True))
}
