//! A look at the numbers that nodes give, which are spent one day.
ghost use Rattle.std.specs.Prelude.{◌≡◌, MatchBool};
ghost use Rattle.server.specs.Lookouts.{nearly_spent, none_told, IsNews, IsOld};

use node_threads::Numbers;
use std::marker::Model;
use term::{Node, NodeSet};

/// Of which nodes it was told that nine tenths of their numbers are spent.
#[derive(Drop)]
pub struct Lookout {
    calls: NodeSet,
    serials: NodeSet,
}

impl Model for Lookout {
    ghost use Rattle.server.specs.Lookouts.{Told};

    ghost Value = { Told };

    ghost view = { λ l. record { calls = l.calls; serials = l.serials } };
}

/// What is to be told of the numbers of a node.
#[derive(Clone, Copy, Debug, PartialEq, Eq)]
pub struct Spent {
    /// That nine tenths of the numbers for its calls are given.
    pub calls: bool,
    /// That nine tenths of the serials for its processes are.
    pub serials: bool,
}

/// Whether more than nine tenths of all numbers of 32 bits are given, where this one was given last.
fn is_nearly_spent(last: u32) -> bool
    ensures { result ≡ nearly_spent last }
{
    u64::from(last) * 10 > u64::from(u32::MAX) * 9
}

/// Whether it is to be told that the numbers of a node are nearly spent: they are, and it wasn't told before. From now on it was.
fn is_news(told: &mut NodeSet, node: &Node, last: u32) -> bool
    ensures { MatchBool result (IsNews told.old node.now last told.new) (IsOld told.old node.now last told.new) }
{
    if !is_nearly_spent(last) || told.contains(node) {
        return false;
    }
    told.insert(node.copy()).is_ok()
}

impl Lookout {
    /// One that has told nothing yet.
    pub fn new() -> Self
        ensures { result ≡ none_told }
    {
        Lookout {
            calls: NodeSet::empty(),
            serials: NodeSet::empty(),
        }
    }

    /// Looks at the numbers of a node: what is to be told of them, once in all.
    pub fn look(&mut self, node: &Node, numbers: &Numbers) -> Spent
        ensures calls { MatchBool result.calls (IsNews self.old.calls node.now numbers.now.calls self.new.calls)
            (IsOld self.old.calls node.now numbers.now.calls self.new.calls) }
        ensures serials { MatchBool result.serials (IsNews self.old.serials node.now numbers.now.serials self.new.serials)
            (IsOld self.old.serials node.now numbers.now.serials self.new.serials) }
    {
        let calls = is_news(&mut self.calls, node, numbers.calls);
        let serials = is_news(&mut self.serials, node, numbers.serials);
        Spent { calls, serials }
    }
}
