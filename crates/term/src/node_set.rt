//! Sets of nodes.
ghost use Rattle.std.specs.Prelude.{◌≡◌, ℕ, List, ◌-◌, ◌<◌, ◌==◌, ◌||◌, not, [], ◌∷◌, length, Some, OnOk, OnErr, MatchOption, MatchResult, slice_get};
ghost use Rattle.std.specs.List.{list_any, position as place_of};
ghost use Rattle.std.specs.Option.{option_copied};
ghost use Rattle.term.specs.Nodes.{name_of};
ghost use Rattle.term.specs.NodeSets.{IsNodeSet, HasNoRoom, set_of, with_node, without_node, with_older};
ghost use Rattle.term.specs.NodeLists.{list_of_nodes, SpellsNodeSet};

use crate::faults::TextFault;
use crate::limits::MOST_NODES;
use crate::node::{Node, parse_node};
use crate::node_name::{Blank, NodeName};
use crate::node_names::NodeNames;
use arrayvec::ArrayVec;
use std::fmt;
use std::marker::Model;

/// A set of up to eight nodes, held in place. No call on it takes memory.
#[derive(Debug, PartialEq, Eq, Drop)]
pub struct NodeSet {
    nodes: ArrayVec<Node, MOST_NODES, Blank>,
}

impl Model for NodeSet {
    ghost use Rattle.std.specs.Prelude.{ℕ, List};
    ghost use Rattle.term.specs.NodeSets.{IsNodeSet};

    ghost Value = { List ℕ };

    ghost view = { λ s. s.nodes.items };

    ghost invariant = { λ s. IsNodeSet s.nodes.items };

    ghost inverse = { λ v. record { nodes = record { items = v } } };
}

impl NodeSet {
    /// The set with no node.
    pub fn empty() -> Self
        ensures { result ≡ [] }
    {
        NodeSet {
            nodes: ArrayVec::new_in(Blank),
        }
    }

    /// The set of one node.
    pub fn one(node: Node) -> Self
        ensures { result ≡ node ∷ [] }
    {
        let mut nodes = ArrayVec::new_in(Blank);
        nodes.push(node);
        NodeSet { nodes }
    }

    /// The same set.
    pub fn copy(&self) -> Self
        ensures { result ≡ self.now }
    {
        let mut nodes = ArrayVec::new_in(Blank);
        for node in self.as_slice() {
            nodes.push(node.copy());
        }
        NodeSet { nodes }
    }

    /// The first node of each of these names.
    pub fn first_of(names: &NodeNames) -> Self
        ensures { result ≡ names.now }
    {
        let mut nodes = ArrayVec::new_in(Blank);
        for name in names.as_slice() {
            nodes.push(Node::first(name.copy()));
        }
        NodeSet { nodes }
    }

    /// How many nodes it holds, which is eight at most.
    pub fn len(&self) -> usize
        ensures value { result ≡ length self.now }
        ensures set { IsNodeSet self.now }
    {
        self.nodes.len()
    }

    /// Whether it holds no node.
    pub fn is_empty(&self) -> bool
        ensures { result ≡ (length self.now == 0) }
    {
        self.nodes.is_empty()
    }

    /// Its nodes, rising.
    pub fn as_slice(&self) -> &[Node]
        ensures nodes { result.now ≡ self.now }
        ensures set { IsNodeSet self.now }
    {
        self.nodes.as_slice()
    }

    /// Whether it holds the node.
    pub fn contains(&self, node: &Node) -> bool
        ensures { result ≡ set_of self.now node.now }
    {
        self.nodes.contains(node)
    }

    /// Whether it holds the node or a younger one of its name.
    pub fn reaches(&self, node: &Node) -> bool
        ensures { result ≡ with_older self.now node.now }
    {
        self.nodes
            .as_slice()
            .iter()
            .any(|own| own.name() == node.name() && node <= own)
    }

    /// Whether it holds a node of the name.
    pub fn has_name(&self, name: &NodeName) -> bool
        ensures { result ≡ list_any (λ m. name_of m == name.now) self.now }
    {
        self.nodes.as_slice().iter().any(|node| node.name() == name)
    }

    /// The place of the node in the rising order, counted from 0.
    pub fn position(&self, node: &Node) -> Option<usize>
        ensures { result ≡ place_of (λ m. m == node.now) self.now }
    {
        self.nodes.binary_search(node).ok()
    }

    /// The last of its nodes.
    pub fn greatest(&self) -> Option<&Node>
        ensures { option_copied result ≡ slice_get self.now (length self.now - 1) }
    {
        self.nodes.last()
    }

    /// Puts a node in, and tells whether it is new. The set stays as it was, and the node is refused, where eight
    /// others stand.
    pub fn insert(&mut self, node: Node) -> Result<bool, TextFault>
        ensures inserted { MatchResult result
            (λ is_new. (self.new ≡ with_node self.old node) × (is_new ≡ not (set_of self.old node)))
            (HasNoRoom self.old node) }
        ensures holds { OnOk result ((c : ℕ) → set_of self.new c ≡ (set_of self.old c || (node == c))) }
        ensures set { IsNodeSet self.new }
        ensures refused { OnErr result (self.new ≡ self.old) }
    {
        let place = match self.nodes.binary_search(&node) {
            Ok(_) => return Ok(false),
            Err(place) => place,
        };
        match self.nodes.try_insert(place, node) {
            Ok(()) => Ok(true),
            Err(_) => Err(TextFault::TooManyNodes),
        }
    }

    /// Takes a node out, and tells whether it was there.
    pub fn remove(&mut self, node: &Node) -> bool
        ensures others { self.new ≡ without_node self.old node.now }
        ensures held { result ≡ set_of self.old node.now }
        ensures set { IsNodeSet self.new }
    {
        match self.nodes.binary_search(node) {
            Ok(place) => {
                self.nodes.remove(place);
                true
            }
            Err(_) => false,
        }
    }
}

impl fmt::Display for NodeSet {
    ghost output = { λ s. Some (list_of_nodes s) };

    fn fmt<W: fmt::Write>(&self, f: &mut fmt::Formatter<W>) -> fmt::Result {
        let mut separator = "";
        for node in self.as_slice() {
            f.write_str(separator)?;
            write!(f, "{node}")?;
            separator = ",";
        }
        Ok(())
    }
}

/// Reads a set of nodes, of whatever creations: they are parted by commas, in any order; one that stands there again counts once.
pub fn parse_node_set(text: &str) -> Option<NodeSet>
    ensures { MatchOption result ((nodes : List ℕ) → SpellsNodeSet text.now nodes → ⊥) (SpellsNodeSet text.now) }
{
    let mut nodes = NodeSet::empty();
    for part in text.split(',') {
        let node = parse_node(part).ok()?;
        nodes.insert(node).ok()?;
    }
    Some(nodes)
}
