//! Nodes.
ghost use Rattle.std.specs.Prelude.{◌≡◌, ◌==◌, ◌+◌, ◌-◌, ◌<◌, ◌≤◌, ◌++◌, nat_eq, IfOk, Some, MatchOption, MatchResult, string_bytes};
ghost use Rattle.std.specs.Cmp.Rules.{comparing, hashing};
ghost use Rattle.std.specs.Hash as fed;
ghost use Rattle.std.specs.Ordering.{nat_cmp, as_partial_cmp};
ghost use Rattle.std.proofs.Common.{rules};
ghost use Rattle.term.specs.Nodes.{IsFirst, name_of, creation_of, last_creation};
ghost use Rattle.term.specs.Spelling.{SpellsNode, RefusesNode, name_bytes, node_bytes};

use crate::digits::parse_creation;
use crate::faults::TextFault;
use crate::node_name::{Blank, NodeName, parse_node_name};
use std::alloc::{AllocError, Allocator};
use std::cmp::Ordering;
use std::default::MadeWith;
use std::fmt;
use std::hash::{Hash, Hasher};
use std::marker::Model;

/// A node: its name, and which of the nodes of this name it is, counted from 1, which is its creation.
/// Nodes are ordered by name, then by creation.
#[derive(Debug, Drop)]
pub struct Node {
    name: NodeName,
    creation: u32,
}

impl Model for Node {
    ghost use Rattle.std.specs.Prelude.{ℕ, ◌+◌, ◌-◌, ◌^◌, ◌<◌, ◌≤◌};
    ghost use Rattle.term.specs.Nodes.{IsFirst};

    ghost Value = { ℕ };

    ghost view = { λ n. n.name + (n.creation - 1) };

    ghost invariant = { λ n. IsFirst n.name × (1 ≤ n.creation) × (n.creation < 2 ^ 32) };
}

impl MadeWith<Blank> for Node {
    fn made_with(blank: Blank) -> Self {
        Node::first(NodeName::made_with(blank))
    }
}

impl Node {
    /// The first node of a name.
    pub fn first(name: NodeName) -> Self
        ensures node { result ≡ name }
        ensures first { IsFirst name }
    {
        Node::of(name, 1)
    }

    /// The node of a name with this creation.
    fn of(name: NodeName, creation: u32) -> Self
        requires { 1 ≤ creation }
        ensures node { result ≡ name + (creation - 1) }
        ensures first { IsFirst name }
    {
        // its text shows that the number of the name is that of its first node
        let _text = name.as_str();
        Node { name, creation }
    }

    /// The node of the next creation, unless this one is the last.
    pub fn next(&self) -> Option<Node>
        ensures { MatchOption result (creation_of self.now ≡ last_creation)
            (λ next. (creation_of self.now < last_creation) × (next ≡ self.now + 1)) }
    {
        let creation = self.creation.checked_add(1)?;
        Some(Node {
            name: self.name.copy(),
            creation,
        })
    }

    /// The node of the creation before, unless this one is the first.
    pub fn before(&self) -> Option<Node>
        ensures { MatchOption result (creation_of self.now ≡ 1)
            (λ older. (creation_of older < last_creation) × (self.now ≡ older + 1) × (name_of older ≡ name_of self.now)) }
    {
        if self.creation == 1 {
            return None;
        }
        Some(Node {
            name: self.name.copy(),
            creation: self.creation - 1,
        })
    }

    /// The same node. It takes no memory.
    pub fn copy(&self) -> Self
        ensures { result ≡ self.now }
    {
        Node {
            name: self.name.copy(),
            creation: self.creation,
        }
    }

    /// Its name.
    pub fn name(&self) -> &NodeName
        ensures { result.now ≡ name_of self.now }
    {
        &self.name
    }

    /// Its creation.
    pub fn creation(&self) -> u32
        ensures { result ≡ creation_of self.now }
    {
        self.creation
    }

    /// Whether it is the first node of this name.
    pub fn is_first_of(&self, name: &NodeName) -> bool
        ensures { result ≡ (self.now == name.now) }
    {
        *self == Node::first(name.copy())
    }

    /// The same node, of which it is known then that its text spells it.
    pub(crate) fn as_spelled(&self) -> &Self
        ensures same { result.now ≡ self.now }
        ensures spelled { SpellsNode (node_bytes self.now) self.now }
    {
        let _text = self.name.as_str();
        self
    }
}

/// Reads a node. The part before the first slash, or the whole text where there is none, is refused as the name of a node
/// is; else the text is refused for a bad creation, where a slash is not followed by a creation of 2 to 4,294,967,295 with
/// no leading zero.
pub fn parse_node(text: &str) -> Result<Node, TextFault>
    ensures { MatchResult result (SpellsNode text.now) (RefusesNode text.now) }
{
    let Some((name, digits)) = text.split_once('/') else {
        let name = parse_node_name(text)?;
        return Ok(Node::first(name));
    };
    let name = parse_node_name(name)?;
    match parse_creation(digits) {
        Some(creation) => Ok(Node::of(name, creation)),
        None => Err(TextFault::BadCreation),
    }
}

/// The text of a node.
pub fn print_node<A: Allocator>(alloc: A, node: &Node) -> Result<String<A>, AllocError>
    ensures { IfOk result (λ text. SpellsNode (string_bytes text) node.now) }
{
    let node = node.as_spelled();
    format!(in alloc; "{node}")
}

impl Clone for Node {
    ghost is_clone = { λ n m. m ≡ n };

    ghost is_infallible = { λ n. n ≡ n };

    fn clone(&self) -> Result<Self, AllocError> {
        Ok(self.copy())
    }
}

impl PartialEq for Node {
    ghost eq = { nat_eq };

    ghost laws = { Prim.search (comparing, rules) };

    fn eq(&self, other: &Self) -> bool {
        self.name == other.name && self.creation == other.creation
    }
}

impl Eq for Node {
    ghost laws = { Prim.search (comparing, rules) };
}

impl PartialOrd for Node {
    ghost partial_cmp = { as_partial_cmp nat_cmp };

    ghost laws = { Prim.search (comparing, rules) };

    fn partial_cmp(&self, other: &Self) -> Option<Ordering> {
        Some(self.cmp(other))
    }
}

impl Ord for Node {
    ghost cmp = { nat_cmp };

    ghost total = { Prim.search (comparing, rules) };

    ghost matches_partial_cmp = { Prim.search (comparing, rules) };

    ghost matches_eq = { Prim.search (comparing, rules) };

    fn cmp(&self, other: &Self) -> Ordering {
        self.name
            .cmp(&other.name)
            .then(self.creation.cmp(&other.creation))
    }
}

impl Hash for Node {
    ghost hash_input = { λ n. fed.str (name_bytes n) ++ fed.u32 (creation_of n) };

    ghost respects_eq = { Prim.search (hashing, rules) };

    fn hash<H: Hasher>(&self, state: &mut H) {
        self.name.hash(state);
        self.creation.hash(state);
    }
}

impl fmt::Display for Node {
    ghost output = { λ n. Some (node_bytes n) };

    fn fmt<W: fmt::Write>(&self, f: &mut fmt::Formatter<W>) -> fmt::Result {
        if self.creation == 1 {
            return fmt::Display::fmt(&self.name, f);
        }
        write!(f, "{}/{}", self.name, self.creation)
    }
}
