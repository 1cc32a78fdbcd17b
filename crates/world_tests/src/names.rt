//! Names of the nodes that have logs.
ghost use Rattle.std.specs.Prelude.{◌≡◌, IfSome};

use term::{Node, NodeName};

/// The name of a node, if it is the first of that name.
pub(crate) fn first_name(node: &Node) -> Option<NodeName>
    ensures { IfSome result (λ name. name ≡ node.now) }
{
    let name = node.name().copy();
    if !node.is_first_of(&name) {
        return None;
    }
    Some(name)
}
