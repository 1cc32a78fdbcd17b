//! What sets of nodes have in common, and what one has that another hasn't.
ghost use Rattle.std.specs.Prelude.{◌≡◌, ℕ, ◌+◌, ◌≤◌, ◌==◌, ◌&&◌, ◌||◌, false, not, length};
ghost use Rattle.std.specs.Option.{option_copied, option_to_list};
ghost use Rattle.registry_model.specs.Process.{with_node};
ghost use Rattle.term.specs.Nodes.{name_of};
ghost use Rattle.term.specs.NodeSets.{set_of, with_node as and_node, with_older, succeeded};
ghost use Rattle.term.specs.declared.limits.TheConstants.{MOST_NODES};

use crate::node::Node;
use crate::node_name::NodeName;
use crate::node_names::NodeNames;
use crate::node_set::NodeSet;

impl NodeSet {
    /// Those of its nodes that are in the other set, too.
    pub fn intersection(&self, other: &NodeSet) -> NodeSet
        ensures { (c : ℕ) → set_of result c ≡ (set_of self.now c && set_of other.now c) }
    {
        let mut common = self.copy();
        for node in self.as_slice() {
            if !other.contains(node) {
                common.remove(node);
            }
        }
        common
    }

    /// Those of its nodes whose names are in the set.
    pub fn named(&self, names: &NodeNames) -> NodeSet
        ensures { (c : ℕ) → set_of result c ≡ (set_of self.now c && set_of names.now (name_of c)) }
    {
        let mut named = self.copy();
        for node in self.as_slice() {
            if !names.contains(node.name()) {
                named.remove(node);
            }
        }
        named
    }

    /// Those of its nodes that aren't in the other set.
    pub fn difference(&self, other: &NodeSet) -> NodeSet
        ensures { (c : ℕ) → set_of result c ≡ (set_of self.now c && not (set_of other.now c)) }
    {
        let mut rest = self.copy();
        for node in other.as_slice() {
            rest.remove(node);
        }
        rest
    }

    /// Those of its nodes that the other set doesn't reach.
    pub fn beyond(&self, other: &NodeSet) -> NodeSet
        ensures { (c : ℕ) → set_of result c ≡ (set_of self.now c && not (with_older other.now c)) }
    {
        let mut rest = self.copy();
        for node in self.as_slice() {
            if other.reaches(node) {
                rest.remove(node);
            }
        }
        rest
    }

    /// The last of its nodes with the name, if it has one.
    fn last_named(&self, name: &NodeName) -> Option<&Node>
        ensures { (c : ℕ) → with_older (option_to_list (option_copied result)) c
            ≡ (with_older self.now c && (name_of c == name.now)) }
    {
        let mut last = None;
        for node in self.as_slice() {
            if node.name() == name {
                last = Some(node);
            }
        }
        last
    }

    /// The last node with the name in this set and another, if one of them has one.
    fn last_of_both<'a>(&'a self, other: &'a NodeSet, name: &NodeName) -> Option<&'a Node>
        ensures { (c : ℕ) → with_older (option_to_list (option_copied result)) c
            ≡ ((with_older self.now c || with_older other.now c) && (name_of c == name.now)) }
    {
        self.last_named(name).max(other.last_named(name))
    }

    /// Of each name the last node that this set or another reaches, as far as a third reaches it. All of them have room,
    /// as the third is a set.
    pub fn last_within(&self, other: &NodeSet, world: &NodeSet) -> NodeSet
        ensures { (c : ℕ) → with_older result c ≡ (with_older world.now c && (with_older self.now c || with_older other.now c)) }
    {
        let mut all = NodeSet::empty();
        for node in world.as_slice() {
            if let Some(last) = self.last_of_both(other, node.name()) {
                let _is_new = all.insert(last.min(node).copy());
            }
        }
        all
    }

    /// The same nodes, where the next node of a name stands for the one before it.
    pub fn with_next(&self, older: &Node, next: &Node) -> NodeSet
        requires next { next.now ≡ older.now + 1 }
        requires new { set_of self.now next.now ≡ false }
        ensures { result ≡ succeeded older.now next.now self.now }
    {
        let mut nodes = NodeSet::empty();
        for node in self.as_slice() {
            let present = if node == older { next } else { node };
            let _is_new = nodes.insert(present.copy());
        }
        nodes
    }

    /// The nodes of both sets, as far as they are of a third. All of them have room, as the third is a set.
    pub fn union_within(&self, other: &NodeSet, world: &NodeSet) -> NodeSet
        ensures { (c : ℕ) → set_of result c ≡ (set_of world.now c && (set_of self.now c || set_of other.now c)) }
    {
        world.difference(&world.difference(self).difference(other))
    }

    /// Its nodes and one more, as far as they are of another set. All of them have room, as the other is a set.
    pub fn with_within(&self, node: &Node, world: &NodeSet) -> NodeSet
        ensures { (c : ℕ) → set_of result c ≡ (set_of world.now c && (set_of self.now c || (c == node.now))) }
    {
        let mut others = world.difference(self);
        others.remove(node);
        world.difference(&others)
    }

    /// Its nodes and one more, for which there is room.
    pub fn with(&self, node: &Node) -> NodeSet
        requires { length (and_node self.now node.now) ≤ MOST_NODES }
        ensures { set_of result ≡ with_node node.now (set_of self.now) }
    {
        let mut all = self.copy();
        let _is_new = all.insert(node.copy());
        all
    }
}
