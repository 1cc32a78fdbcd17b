//! The boss of a set, and the others.
ghost use Rattle.std.specs.Prelude.{ℕ, ◌≡◌, ◌==◌, ◌&&◌, ◌<◌, ◌≤◌, ◌-◌, not, length, take, All, Contains};
ghost use Rattle.protocol_model.specs.Round.{greatest};
ghost use Rattle.term.specs.NodeSets.{IsNodeSet, set_of};
ghost use Rattle.boss_order.specs.Boss.{boss_of, others_of};

use term::{Node, NodeSet};

/// The greatest of these nodes, which are not none.
pub fn boss(nodes: &NodeSet) -> Node
    requires { 0 < length nodes.now }
    ensures value { result ≡ boss_of nodes.now }
    ensures among { Contains nodes.now result }
    ensures greatest { All (λ c. c ≤ result) nodes.now }
    ensures protocol { (n : ℕ) → All (λ c. c < n) nodes.now → result ≡ greatest n (set_of nodes.now) }
{
    nodes.as_slice()[nodes.len() - 1].copy()
}

/// All of these nodes but the greatest; none where there is none.
pub fn rest(nodes: &NodeSet) -> NodeSet
    ensures value { result ≡ others_of nodes.now }
    ensures set { IsNodeSet result }
    ensures members { (c : ℕ) → set_of result c ≡ (set_of nodes.now c && not (c == boss_of nodes.now)) }
{
    let mut rest = nodes.copy();
    if let Some(boss) = nodes.as_slice().last() {
        rest.remove(boss);
    }
    rest
}
