//! Whom a lock call asks, and how often.
ghost use Rattle.std.specs.Prelude.{◌≡◌, ◌==◌, ◌<◌, length, All, true, None, Some, if◌then◌else◌, IfOk, OnErr, nat_eq};
ghost use Rattle.std.specs.Cmp.Rules.{comparing};
ghost use Rattle.std.specs.Cmp.Lexicographic.{pointwise};
ghost use Rattle.std.proofs.Common.{rules};
ghost use Rattle.term.specs.Nodes.{IsFirst};
ghost use Rattle.protocol_model.specs.Client.{is_spent, one_less};
ghost use Rattle.transaction.specs.declared.nodes.Nodes.TheVariants.{Named};
ghost use Rattle.transaction.specs.Calls.{is_named, retries_of};

use std::alloc::{AllocError, Global};
use std::marker::Model;
use term::NodeNames;

/// The names of the nodes that a lock call names, at least one. A set of names is large and few calls have one, so it lies in memory
/// of its own.
#[derive(Debug, Drop)]
pub struct NamedNodes {
    names: Box<NodeNames>,
}

impl Model for NamedNodes {
    ghost use Rattle.std.specs.Prelude.{ℕ, List, ◌<◌, length, All};
    ghost use Rattle.term.specs.Nodes.{IsFirst};

    ghost Value = { List ℕ };

    ghost view = { λ n. n.names.value };

    ghost invariant = { λ n. (0 < length n.names.value) × All IsFirst n.names.value };
}

impl NamedNodes {
    /// The same names, in memory of their own.
    pub fn copy(&self) -> Result<Self, AllocError>
        ensures { IfOk result (λ copy. copy ≡ self.now) }
    {
        let alloc = *Box::allocator(&self.names);
        Ok(NamedNodes {
            names: Box::new(alloc, self.names.as_ref().copy())?,
        })
    }

    /// The set of them, which isn't empty.
    pub fn as_set(&self) -> &NodeNames
        ensures names { result.now ≡ self.now }
        ensures some { 0 < length self.now }
        ensures first { All IsFirst self.now }
    {
        self.names.as_ref()
    }
}

impl PartialEq for NamedNodes {
    ghost eq = { pointwise nat_eq };

    ghost laws = { Prim.search (comparing, rules) };

    fn eq(&self, other: &Self) -> bool {
        *self.as_set() == *other.as_set()
    }
}

impl Eq for NamedNodes {
    ghost laws = { Prim.search (comparing, rules) };
}

/// The nodes that a lock call asks.
#[derive(Debug, PartialEq, Eq, Drop)]
pub enum Nodes {
    /// All members, as they are when a try begins.
    All,
    /// Those of the named nodes that are members then.
    Named(NamedNodes),
}

impl Nodes {
    /// The nodes of these names. `None`: there are none, which takes no memory.
    pub fn named(alloc: Global, names: NodeNames) -> Result<Option<Self>, AllocError>
        ensures named { IfOk result (λ named. named ≡ (if length names == 0 then None else Some (Named names))) }
        ensures refused { OnErr result (0 < length names) }
    {
        if names.as_slice().is_empty() {
            return Ok(None);
        }
        Ok(Some(Nodes::Named(NamedNodes {
            names: Box::new(alloc, names)?,
        })))
    }

    /// The same nodes. Only named ones take memory.
    pub fn copy(&self) -> Result<Self, AllocError>
        ensures copy { IfOk result (λ copy. copy ≡ self.now) }
        ensures named { OnErr result (is_named self.now ≡ true) }
    {
        Ok(match self {
            Nodes::All => Nodes::All,
            Nodes::Named(named) => Nodes::Named(named.copy()?),
        })
    }
}

/// How often a refused lock call may begin anew.
#[derive(Debug, PartialEq, Eq, Drop)]
pub enum Retries {
    /// So many times.
    Times(u32),
    /// Until it is granted.
    Endless,
}

impl Retries {
    /// The same. It takes no memory.
    pub fn copy(&self) -> Self
        ensures { result ≡ self.now }
    {
        match self {
            Retries::Times(left) => Retries::Times(*left),
            Retries::Endless => Retries::Endless,
        }
    }

    /// Whether none is left.
    pub fn is_spent(&self) -> bool
        ensures { result ≡ is_spent (retries_of self.now) }
    {
        matches!(self, Retries::Times(0))
    }

    /// What is left when one is used.
    pub fn one_less(&self) -> Self
        ensures { retries_of result ≡ one_less (retries_of self.now) }
    {
        match self {
            Retries::Times(left) => Retries::Times(left.saturating_sub(1)),
            Retries::Endless => Retries::Endless,
        }
    }
}
