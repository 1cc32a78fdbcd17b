//! What the seats of consoles knew, held against the books of their nodes.
ghost use Rattle.std.specs.Prelude.{◌≡◌, ◌++◌, ◌==◌, All};
ghost use Rattle.std.specs.List.{position};
ghost use Rattle.server.specs.Covering.{IsCovered, IsOfBook};

use crate::served::Witness;
use node_threads::Past;
use term::{Node, NodeName};

/// The index of a node among these.
fn place_of(names: &[NodeName], node: &Node) -> Option<usize>
    ensures { result ≡ position (λ name. name == node.now) names.now }
{
    names.iter().position(|name| node.is_first_of(name))
}

/// The index of a node among those of a cluster.
fn index_of(cluster: &[NodeName], lone: &[NodeName], node: &Node) -> Option<usize>
    ensures { result ≡ position (λ name. name == node.now) (cluster.now ++ lone.now) }
{
    match place_of(cluster, node) {
        Some(index) => Some(index),
        None => {
            let index = place_of(lone, node)?;
            Some(cluster.len() + index)
        }
    }
}

/// Holds what a seat knew against the book of its node.
fn cover(pasts: &[Past], cluster: &[NodeName], lone: &[NodeName], witness: &Witness)
    requires { IsOfBook pasts.now (cluster.now ++ lone.now) witness.now }
    ensures { IsCovered pasts.now (cluster.now ++ lone.now) witness.now }
{
    if let Some(index) = index_of(cluster, lone, &witness.node)
        && let Some(past) = pasts.get(index)
    {
        past.covers(&witness.token);
    }
}

/// Holds what each of these seats knew against the book of its node, of the books of all nodes of a cluster. Nothing else is done.
pub(crate) fn cover_all(
    pasts: &[Past],
    cluster: &[NodeName],
    lone: &[NodeName],
    witnesses: &[Witness],
)
    requires { All (IsOfBook pasts.now (cluster.now ++ lone.now)) witnesses.now }
    ensures { All (IsCovered pasts.now (cluster.now ++ lone.now)) witnesses.now }
{
    for witness in witnesses {
        cover(pasts, cluster, lone, witness);
    }
}
