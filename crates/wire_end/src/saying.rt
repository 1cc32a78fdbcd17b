//! What a node relies on of letters, as far as its end knows of nodes.
ghost use Rattle.std.specs.Prelude.{◌≡◌, ◌==◌, ◌&&◌, nat_le};
ghost use Rattle.registry_model.specs.Table.{is_rising};
ghost use Rattle.term.specs.NodeSets.{with_older};
ghost use Rattle.term.specs.Nodes.{name_of};
ghost use Rattle.wire_end.specs.Saying.{at_present, all_started as have_all_started, greets as is_greeting, is_said as is_said_so, is_said_by as is_said_by_part};

use crate::wire::Wire;
use letter_lines::{Gathering, Letter, Part};
use name_table::Pair;
use term::{Node, NodeSet};

/// The nodes at present, as far as an end knows: its own, and those that it has links with.
#[derive(Clone, Copy)]
pub(crate) struct Present<'a> {
    pub(crate) node: &'a Node,
    pub(crate) wires: &'a [Wire],
}

/// Whether a node is this one, or an older one of its name.
fn is_reached_by(node: &Node, young: &Node) -> bool
    ensures { result ≡ ((name_of young.now == name_of node.now) && nat_le node.now young.now) }
{
    young.name() == node.name() && node <= young
}

/// Whether the names of a table rise.
fn rise(pairs: &[Pair]) -> bool
    ensures { result ≡ is_rising pairs.now }
{
    for place in 1..pairs.len() {
        let (below, above) = (&pairs[place - 1], &pairs[place]);
        if below.name >= above.name {
            return false;
        }
    }
    true
}

impl Present<'_> {
    /// Whether a node has started: it is at present, or older than one of its name that is.
    fn has_started(self, node: &Node) -> bool
        ensures { result ≡ with_older (at_present self.entry.node.now self.entry.wires.now) node.now }
    {
        is_reached_by(node, self.node)
            || self
                .wires
                .iter()
                .any(|wire| is_reached_by(node, wire.node()))
    }

    /// Whether all of these have.
    fn have_started(self, nodes: &NodeSet) -> bool
        ensures { result ≡ have_all_started (at_present self.entry.node.now self.entry.wires.now) nodes.now }
    {
        nodes.as_slice().iter().all(|node| self.has_started(node))
    }

    /// Whether a welcome with these members, names and told nodes is one to the end's node.
    fn greets(self, members: &NodeSet, pairs: &[Pair], told: &NodeSet) -> bool
        ensures { result ≡ is_greeting (at_present self.entry.node.now self.entry.wires.now) self.entry.node.now members.now pairs.now told.now }
    {
        self.have_started(members)
            && self.have_started(told)
            && members.contains(self.node)
            && !told.reaches(self.node)
            && rise(pairs)
    }

    /// Whether a letter of a node that has started is one that the end's node relies on.
    pub(crate) fn says(self, from: &Node, letter: &Letter) -> bool
        ensures { result ≡ is_said_so (at_present self.entry.node.now self.entry.wires.now) self.entry.node.now from.now letter.now }
    {
        match letter {
            Letter::Admit(body) => self.has_started(&body.joiner),
            Letter::Welcome(body) => self.greets(&body.members, body.pairs.as_slice(), &body.told),
            Letter::Down => from != self.node,
            _ => true,
        }
    }

    /// Whether so is the letter that ends with this part, behind these items, if one does. It is from another node.
    pub(crate) fn says_by(self, part: &Part, items: &Gathering) -> bool
        ensures { result ≡ is_said_by_part (at_present self.entry.node.now self.entry.wires.now) self.entry.node.now part.now items.now }
    {
        match part {
            Part::Admit(joiner) => self.has_started(joiner),
            Part::Welcome => self.greets(items.members(), items.pairs(), items.told()),
            _ => true,
        }
    }
}
