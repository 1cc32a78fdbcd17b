//! Requesters that locks are held in the name of.
ghost use Rattle.std.specs.Prelude.{◌≡◌, IfOk, Some, MatchResult, string_bytes};
ghost use Rattle.term.specs.Spelling.{SpellsNode, SpellsNodeName, RefusesText, node_bytes};

use crate::faults::TextFault;
use crate::node::{Node, print_node};
use crate::node_name::parse_node_name;
use std::alloc::{AllocError, Allocator};
use std::fmt;
use std::marker::Model;

/// A requester, in whose name a lock is held: that of a client is a text as the name of a node is, and stands for the first
/// node of this name; that of a node's registrar is the node. Requesters are ordered as nodes are.
#[derive(Clone, Debug, PartialEq, Eq, PartialOrd, Ord, Hash, Drop)]
pub struct Requester {
    node: Node,
}

impl Model for Requester {
    ghost use Rattle.std.specs.Prelude.{ℕ};

    ghost Value = { ℕ };

    ghost view = { λ r. r.node };

    ghost inverse = { λ v. record { node = v } };
}

impl Requester {
    /// The requester of a node's registrar, which is the node. It takes no memory.
    pub fn of_node(node: &Node) -> Self
        ensures { result ≡ node.now }
    {
        Requester { node: node.copy() }
    }

    /// The same requester. It takes no memory.
    pub fn copy(&self) -> Self
        ensures { result ≡ self.now }
    {
        Requester {
            node: self.node.copy(),
        }
    }
}

/// Reads a requester. A text that spells none is refused: an empty one, else one of more than 64 bytes,
/// else one with a byte that is not allowed.
pub fn parse_requester(text: &str) -> Result<Requester, TextFault>
    ensures { MatchResult result (SpellsNodeName text.now) (RefusesText text.now) }
{
    let name = parse_node_name(text)?;
    Ok(Requester {
        node: Node::first(name),
    })
}

/// The text of a requester, which is that of its node.
pub fn print_requester<A: Allocator>(
    alloc: A,
    requester: &Requester,
) -> Result<String<A>, AllocError>
    ensures { IfOk result (λ text. SpellsNode (string_bytes text) requester.now) }
{
    print_node(alloc, &requester.node)
}

impl fmt::Display for Requester {
    ghost output = { λ n. Some (node_bytes n) };

    fn fmt<W: fmt::Write>(&self, f: &mut fmt::Formatter<W>) -> fmt::Result {
        fmt::Display::fmt(&self.node, f)
    }
}
