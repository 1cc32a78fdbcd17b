//! Sets of names of nodes.
ghost use Rattle.std.specs.Prelude.{◌≡◌, ◌<◌, ◌==◌, ℕ, [], length, IfOk, MatchResult, string_bytes};
ghost use Rattle.std.specs.List.{All, list_any};
ghost use Rattle.term.specs.Nodes.{IsFirst, name_of};
ghost use Rattle.term.specs.NodeSets.{IsNodeSet, set_of};
ghost use Rattle.term.specs.NodeLists.{SpellsNodes, RefusesNodes, list_of};

use crate::faults::TextFault;
use crate::limits::MOST_NODES;
use crate::node::Node;
use crate::node_name::{Blank, NodeName, parse_node_name};
use crate::node_set::NodeSet;
use arrayvec::ArrayVec;
use std::alloc::{AllocError, Allocator};
use std::marker::Model;

/// A set of up to eight names of nodes, held in place. No call on it takes memory.
#[derive(Debug, PartialEq, Eq, Drop)]
pub struct NodeNames {
    names: ArrayVec<NodeName, MOST_NODES, Blank>,
}

impl Model for NodeNames {
    ghost use Rattle.std.specs.Prelude.{ℕ, List};
    ghost use Rattle.term.specs.NodeSets.{IsNameSet};

    ghost Value = { List ℕ };

    ghost view = { λ s. s.names.items };

    ghost invariant = { λ s. IsNameSet s.names.items };

    ghost inverse = { λ v. record { names = record { items = v } } };
}

impl NodeNames {
    /// The set with no name.
    pub fn empty() -> Self
        ensures { result ≡ [] }
    {
        NodeNames {
            names: ArrayVec::new_in(Blank),
        }
    }

    /// The names of these nodes, each once.
    pub fn of(nodes: &NodeSet) -> Self
        ensures names { (x : ℕ) → set_of result x ≡ list_any (λ m. name_of m == x) nodes.now }
        ensures first_nodes { All IsFirst nodes.now → result ≡ nodes.now }
    {
        let mut names = ArrayVec::new_in(Blank);
        for node in nodes.as_slice() {
            let name = node.name();
            if !names.contains(name) {
                names.push(name.copy());
            }
        }
        NodeNames { names }
    }

    /// The same set.
    pub fn copy(&self) -> Self
        ensures { result ≡ self.now }
    {
        let mut names = ArrayVec::new_in(Blank);
        for name in self.as_slice() {
            names.push(name.copy());
        }
        NodeNames { names }
    }

    /// How many names it holds, which is eight at most.
    pub fn len(&self) -> usize
        ensures value { result ≡ length self.now }
        ensures set { IsNodeSet self.now }
        ensures first { All IsFirst self.now }
    {
        self.names.len()
    }

    /// Whether it holds no name.
    pub fn is_empty(&self) -> bool
        ensures { result ≡ (length self.now == 0) }
    {
        self.names.is_empty()
    }

    /// Its names, rising.
    pub fn as_slice(&self) -> &[NodeName]
        ensures names { result.now ≡ self.now }
        ensures set { IsNodeSet self.now }
        ensures first { All IsFirst self.now }
    {
        self.names.as_slice()
    }

    /// Whether it holds the name.
    pub fn contains(&self, name: &NodeName) -> bool
        ensures { result ≡ set_of self.now name.now }
    {
        self.names.contains(name)
    }
}

/// Reads a set of names of nodes: they are parted by commas, in any order; one that stands there again counts once. A text
/// that spells none is refused as its first part that is no name is, else for more than eight different names.
pub fn parse_nodes(text: &str) -> Result<NodeNames, TextFault>
    ensures { MatchResult result (SpellsNodes text.now) (RefusesNodes text.now) }
{
    let mut nodes = NodeSet::empty();
    let mut is_over = false;
    for part in text.split(',') {
        let name = parse_node_name(part)?;
        is_over |= nodes.insert(Node::first(name)).is_err();
    }
    if is_over {
        return Err(TextFault::TooManyNodes);
    }
    Ok(NodeNames::of(&nodes))
}

/// The text of a set that is not empty: its names, rising, parted by commas.
pub fn print_nodes<A: Allocator>(alloc: A, names: &NodeNames) -> Result<String<A>, AllocError>
    requires { 0 < length names.now }
    ensures spelled { IfOk result (λ text. SpellsNodes (string_bytes text) names.now) }
    ensures bytes { IfOk result (λ text. string_bytes text ≡ list_of names.now) }
{
    let mut text = String::new(alloc);
    let mut separator = "";
    for name in names.as_slice() {
        text.push_str(separator)?;
        text.push_str(name.as_str())?;
        separator = ",";
    }
    Ok(text)
}
