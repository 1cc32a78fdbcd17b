//! The nodes of the two lists, and a node of one.
ghost use Rattle.std.specs.Prelude.{◌≡◌, MatchResult, option_map};
ghost use Rattle.arguments.specs.Nodes.{PlacesNode, PlacesNodes, RefusesLone, RefusesOwn, RefusesPlacing, SpellsLone, shares};

use crate::faults::ArgFault;
use term::{MOST_NODES, Node, NodeNames, TextFault, parse_node, parse_nodes};

/// Whether some node is in both sets.
fn share_a_node(cluster: &NodeNames, lone: &NodeNames) -> bool
    ensures { result ≡ shares cluster.now lone.now }
{
    cluster.as_slice().iter().any(|node| lone.contains(node))
}

/// Reads the list of lone nodes: the empty set where there is no list.
fn read_lone(list: Option<&str>) -> Result<NodeNames, TextFault>
    ensures { MatchResult result (SpellsLone (option_map (λ text. text.now) list.entry))
        (RefusesLone (option_map (λ text. text.now) list.entry)) }
{
    match list {
        Some(text) => parse_nodes(text),
        None => Ok(NodeNames::empty()),
    }
}

/// Reads the list of the joined nodes and that of the lone ones, and gives the two sets. The first list is looked at
/// first, then the second, then whether they share a node, then whether they are more than eight together.
pub(crate) fn read_nodes(
    nodes: &str,
    lone: Option<&str>,
) -> Result<(NodeNames, NodeNames), ArgFault>
    ensures { MatchResult result (λ sets. PlacesNodes nodes.now (option_map (λ text. text.now) lone.entry) sets.0 sets.1)
        (RefusesPlacing nodes.now (option_map (λ text. text.now) lone.entry)) }
{
    let cluster = parse_nodes(nodes)?;
    let lone = read_lone(lone)?;
    if share_a_node(&cluster, &lone) {
        return Err(ArgFault::SameNode);
    }
    if cluster.len() + lone.len() > MOST_NODES {
        return Err(ArgFault::TooManyNodes);
    }
    Ok((cluster, lone))
}

/// Reads the node that is to run, of whatever creation, and the list of all names of its world, of which its own is one. The node is looked at
/// first.
pub(crate) fn read_own(node: &str, nodes: &str) -> Result<(Node, NodeNames), ArgFault>
    ensures { MatchResult result (λ own. PlacesNode node.now nodes.now own.0 own.1) (RefusesOwn node.now nodes.now) }
{
    let node = parse_node(node)?;
    let world = parse_nodes(nodes)?;
    if !world.contains(node.name()) {
        return Err(ArgFault::NoSuchNode);
    }
    Ok((node, world))
}
