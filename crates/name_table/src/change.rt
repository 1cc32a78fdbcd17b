//! What a table has, and how it changes.
ghost use Rattle.std.specs.Prelude.{◌≡◌, IfOk};

use std::alloc::{AllocError, Global};
use std::marker::Model;
use term::{Name, Pid, Rule};

/// A name, the process that owns it, and what becomes of it in a clash.
#[derive(Debug, PartialEq, Eq, Drop)]
pub struct Pair {
    /// The name.
    pub name: Name,
    /// Its owner.
    pub owner: Pid,
    /// Its rule, which decides where it stands in the cluster's table, and a joiner has the name too.
    pub rule: Rule,
}

impl Model for Pair {
    ghost use Rattle.registry_model.specs.Table.{Pair as Owned};
    ghost use Rattle.term.specs.Rules.{rule_of, rule_in};

    ghost Value = { Owned };

    ghost view = { λ p. record { name = p.name; owner = p.owner; rule = rule_of p.rule } };

    ghost inverse = { λ p. record { name = p.name; owner = p.owner; rule = rule_in p.rule } };
}

impl Pair {
    /// The same pair. It takes no memory.
    pub fn copy(&self) -> Self
        ensures { result ≡ self.now }
    {
        Pair {
            name: self.name.copy(),
            owner: self.owner.copy(),
            rule: self.rule,
        }
    }
}

/// What stands in a table under a name.
#[derive(Clone, Debug, PartialEq, Eq, Drop)]
pub struct Registration {
    /// The process that owns the name.
    pub owner: Pid,
    /// The name's rule.
    pub rule: Rule,
}

impl Registration {
    /// The same entry. It takes no memory.
    pub fn copy(&self) -> Self
        ensures { result ≡ self.now }
    {
        Registration {
            owner: self.owner.copy(),
            rule: self.rule,
        }
    }
}

/// The same pairs, in memory of their own.
pub fn copied_pairs(pairs: &Vec<Pair>) -> Result<Vec<Pair>, AllocError>
    ensures { IfOk result (λ copy. copy.items ≡ pairs.now.items) }
{
    let alloc: Global = *pairs.allocator();
    pairs.iter().map(|pair| pair.copy()).collect(alloc)
}

/// A change of a table.
#[derive(Debug, PartialEq, Eq, Drop)]
pub enum Change {
    /// The process has the name, under this rule, and nobody else does.
    Put(Pair),
    /// Nobody has the name.
    Remove(Name),
    /// The process has no name.
    StrikeOwner(Pid),
}

impl Change {
    /// The same change. It takes no memory.
    pub fn copy(&self) -> Self
        ensures { result ≡ self.now }
    {
        match self {
            Change::Put(pair) => Change::Put(pair.copy()),
            Change::Remove(name) => Change::Remove(name.copy()),
            Change::StrikeOwner(owner) => Change::StrikeOwner(owner.copy()),
        }
    }
}
