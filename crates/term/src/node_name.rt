//! Names of nodes.
ghost use Rattle.std.specs.Prelude.{◌≡◌, nat_eq, IfOk, Some, MatchResult, string_bytes};
ghost use Rattle.std.specs.Cmp.Rules.{comparing, hashing};
ghost use Rattle.std.specs.Hash as fed;
ghost use Rattle.std.specs.Ordering.{nat_cmp, as_partial_cmp};
ghost use Rattle.std.proofs.Common.{rules};
ghost use Rattle.term.specs.Nodes.{IsFirst};
ghost use Rattle.term.specs.Spelling.{SpellsNodeName, RefusesText, name_bytes};

use crate::faults::TextFault;
use crate::text::ShortText;
use std::alloc::{AllocError, Allocator};
use std::cmp::Ordering;
use std::default::MadeWith;
use std::fmt;
use std::hash::{Hash, Hasher};
use std::marker::Model;

/// The name of a node: 1 to 64 bytes, each an ASCII letter, a digit, `_`, `-` or `@`.
/// Names of nodes are ordered by bytes. Among nodes, a name stands where the first node of this name does.
#[derive(Debug, Drop)]
pub struct NodeName {
    text: ShortText,
}

impl Model for NodeName {
    ghost use Rattle.std.specs.Prelude.{ℕ};
    ghost use Rattle.term.specs.Nodes.{first_node};

    ghost Value = { ℕ };

    ghost view = { λ n. first_node n.text };
}

/// What fills the places of a list in place that hold no name yet.
#[derive(Clone, Copy, Drop)]
pub(crate) struct Blank;

impl MadeWith<Blank> for NodeName {
    fn made_with(_blank: Blank) -> Self {
        NodeName {
            text: ShortText::shortest(),
        }
    }
}

impl NodeName {
    /// The same name. It takes no memory.
    pub fn copy(&self) -> Self
        ensures { result ≡ self.now }
    {
        NodeName {
            text: self.text.copy(),
        }
    }

    /// Its text.
    pub fn as_str(&self) -> &str
        ensures spelled { SpellsNodeName result.now self.now }
        ensures bytes { result.now ≡ name_bytes self.now }
        ensures first { IsFirst self.now }
    {
        self.text.as_str()
    }
}

/// Reads the name of a node. A text that spells none is refused: an empty one, else one of more than 64 bytes,
/// else one with a byte that is not allowed.
pub fn parse_node_name(text: &str) -> Result<NodeName, TextFault>
    ensures { MatchResult result (SpellsNodeName text.now) (RefusesText text.now) }
{
    let text = ShortText::parse(text)?;
    Ok(NodeName { text })
}

/// The text of the name of a node.
pub fn print_node_name<A: Allocator>(alloc: A, name: &NodeName) -> Result<String<A>, AllocError>
    ensures { IfOk result (λ text. SpellsNodeName (string_bytes text) name.now) }
{
    String::from_str(alloc, name.as_str())
}

impl Clone for NodeName {
    ghost is_clone = { λ n m. m ≡ n };

    ghost is_infallible = { λ n. n ≡ n };

    fn clone(&self) -> Result<Self, AllocError> {
        Ok(self.copy())
    }
}

impl PartialEq for NodeName {
    ghost eq = { nat_eq };

    ghost laws = { Prim.search (comparing, rules) };

    fn eq(&self, other: &Self) -> bool {
        self.text == other.text
    }
}

impl Eq for NodeName {
    ghost laws = { Prim.search (comparing, rules) };
}

impl PartialOrd for NodeName {
    ghost partial_cmp = { as_partial_cmp nat_cmp };

    ghost laws = { Prim.search (comparing, rules) };

    fn partial_cmp(&self, other: &Self) -> Option<Ordering> {
        Some(self.cmp(other))
    }
}

impl Ord for NodeName {
    ghost cmp = { nat_cmp };

    ghost total = { Prim.search (comparing, rules) };

    ghost matches_partial_cmp = { Prim.search (comparing, rules) };

    ghost matches_eq = { Prim.search (comparing, rules) };

    fn cmp(&self, other: &Self) -> Ordering {
        self.text.cmp(&other.text)
    }
}

impl Hash for NodeName {
    ghost hash_input = { λ n. fed.str (name_bytes n) };

    ghost respects_eq = { Prim.search (hashing, rules) };

    fn hash<H: Hasher>(&self, state: &mut H) {
        self.text.hash(state);
    }
}

impl fmt::Display for NodeName {
    ghost output = { λ n. Some (name_bytes n) };

    fn fmt<W: fmt::Write>(&self, f: &mut fmt::Formatter<W>) -> fmt::Result {
        fmt::Display::fmt(&self.text, f)
    }
}
