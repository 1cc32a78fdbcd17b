//! A lock round, and what it makes of each answer.
ghost use Rattle.std.specs.Prelude.{◌≡◌, map};
ghost use Rattle.std.specs.List.{list_any};
ghost use Rattle.protocol_model.specs.Round.{asked_too, is_owes, is_refused};
ghost use Rattle.locker.specs.RoundState.{as_mark};

use crate::ending::Ending;
use crate::mark::Mark;
use boss_order::boss;
use std::marker::Model;
use term::{MOST_NODES, Node, NodeSet};

/// A round over a set of nodes: which of them are asked so far, and what each answered. No call on it takes memory.
#[derive(Drop)]
pub struct Round {
    nodes: NodeSet,
    marks: [Mark; MOST_NODES],
}

impl Model for Round {
    ghost use Rattle.locker.specs.RoundState.{RoundState, IsRound};

    ghost Value = { RoundState };

    ghost view = { λ r. record { nodes = r.nodes; marks = r.marks } };

    ghost invariant = { λ r. IsRound (record { nodes = r.nodes; marks = r.marks }) };
}

/// Who was to be asked later is asked now.
fn ask_the_rest(marks: &mut [Mark])
    ensures { map as_mark marks.new ≡ map (λ mark. asked_too (as_mark mark)) marks.old }
{
    for mark in marks.iter_mut() {
        *mark = mark.asked_too();
    }
}

/// Whether some answer is owed.
fn is_some_owed(marks: &[Mark]) -> bool
    ensures { result ≡ list_any (λ mark. is_owes (as_mark mark)) marks.now }
{
    marks.iter().any(|mark| matches!(mark, Mark::Owes))
}

/// Whether some answer is a refusal.
fn is_some_refused(marks: &[Mark]) -> bool
    ensures { result ≡ list_any (λ mark. is_refused (as_mark mark)) marks.now }
{
    marks.iter().any(|mark| matches!(mark, Mark::Refused))
}

impl Round {
    ghost use Rattle.std.specs.Prelude.{ℕ, ◌≡◌, ◌<◌, ◌==◌, length, take, All, IfSome};
    ghost use Rattle.std.specs.List.{list_all};
    ghost use Rattle.protocol_model.specs.Round as protocol;
    ghost use Rattle.term.specs.NodeSets.{IsNodeSet, set_of};
    ghost use Rattle.boss_order.specs.Boss.{boss_of, others_of};
    ghost use Rattle.locker.specs.RoundState.{IsRound, as_mark, as_known, place, seen, is_settled};
    ghost use Rattle.locker.specs.Ends.{granted_by, is_won, end_of, EndsAs};

    /// A round over these nodes, of which the boss alone is asked at first.
    pub fn begin(nodes: &NodeSet) -> Round
        requires { 0 < length nodes.now }
        ensures nodes { result.nodes ≡ nodes.now }
        ensures protocol { (n : ℕ) → All (λ c. c < n) nodes.now → seen result ≡ protocol.begin n (set_of nodes.now) }
    {
        let mut marks = [Mark::Later; MOST_NODES];
        marks[nodes.len() - 1] = Mark::Owes;
        Round {
            nodes: nodes.copy(),
            marks,
        }
    }

    /// The same round.
    pub fn copy(&self) -> Round
        ensures { result ≡ self.now }
    {
        Round {
            nodes: self.nodes.copy(),
            marks: self.marks,
        }
    }

    /// The place of a node among those that are asked.
    fn place(&self, node: &Node) -> Option<usize>
        ensures value { result ≡ place node.now self.now.nodes }
        ensures within { IfSome result (λ i. i < MOST_NODES) }
    {
        self.nodes.position(node)
    }

    /// What is known of a node that is asked.
    fn mark_of(&self, node: &Node) -> Option<Mark>
        ensures { as_known result ≡ (seen self.now).mark node.now }
    {
        match self.place(node) {
            Some(place) => Some(self.marks[place]),
            None => None,
        }
    }

    /// Whether the node is the boss.
    fn is_boss(&self, node: &Node) -> bool
        ensures { result ≡ (node.now == boss_of self.now.nodes) }
    {
        match self.nodes.greatest() {
            Some(boss) => *node == *boss,
            None => false,
        }
    }

    /// What is known of the boss.
    fn boss_mark(&self) -> Mark
        ensures value { as_mark result ≡ (seen self.now).mark (boss_of self.now.nodes) }
        ensures round { IsRound self.now }
    {
        self.marks[self.nodes.len() - 1]
    }

    /// All nodes that the round asks, now or later.
    pub fn asked(&self) -> NodeSet
        ensures value { result ≡ self.now.nodes }
        ensures set { IsNodeSet result }
        ensures protocol { set_of result ≡ protocol.asked (seen self.now) }
    {
        self.nodes.copy()
    }

    /// All of these but the boss.
    pub fn rest(&self) -> NodeSet
        ensures value { result ≡ others_of self.now.nodes }
        ensures set { IsNodeSet result }
        ensures protocol { set_of result ≡ protocol.rest (seen self.now) }
    {
        boss_order::rest(&self.nodes)
    }

    /// Whom to ask at this point: the boss until it has answered, the rest once it has granted, and else nobody.
    pub fn asked_now(&self) -> NodeSet
        ensures set { IsNodeSet result }
        ensures protocol { set_of result ≡ protocol.asked_now (seen self.now) }
    {
        match self.boss_mark() {
            Mark::Granted | Mark::Lost => self.rest(),
            Mark::Owes => NodeSet::one(boss(&self.nodes)),
            Mark::Later | Mark::Refused | Mark::Gone => NodeSet::empty(),
        }
    }

    /// Whether the node owes an answer.
    pub fn owes(&self, node: &Node) -> bool
        ensures { result ≡ protocol.owes (seen self.now) node.now }
    {
        matches!(self.mark_of(node), Some(Mark::Owes))
    }

    /// Whether this answer is the boss's grant, which opens the round to the rest.
    pub fn opens(&self, node: &Node, granted: bool) -> bool
        ensures { result ≡ protocol.opens node.now granted (seen self.now) }
    {
        granted && self.is_boss(node) && matches!(self.boss_mark(), Mark::Owes)
    }

    /// Takes the answer of a node in. One that isn't owed changes nothing.
    pub fn answer(&mut self, node: &Node, granted: bool)
        ensures nodes { self.new.nodes ≡ self.old.nodes }
        ensures protocol { seen self.new ≡ protocol.answer node.now granted (seen self.old) }
    {
        if !self.owes(node) {
            return;
        }
        if self.opens(node, granted) {
            ask_the_rest(&mut self.marks);
        }
        if let Some(place) = self.place(node) {
            self.marks[place] = Mark::of_answer(granted);
        }
    }

    /// Takes in that a node has gone down.
    pub fn down(&mut self, node: &Node)
        ensures nodes { self.new.nodes ≡ self.old.nodes }
        ensures protocol { seen self.new ≡ protocol.down node.now (seen self.old) }
    {
        if let Some(place) = self.place(node) {
            self.marks[place] = self.marks[place].down();
        }
    }

    /// What is known of each node, in the order of the nodes.
    fn marks_of_all(&self) -> &[Mark]
        ensures value { result.now ≡ take (length self.now.nodes) self.now.marks }
        ensures round { IsRound self.now }
    {
        &self.marks[..self.nodes.len()]
    }

    /// Whether some node owes an answer.
    fn is_owed(&self) -> bool
        ensures { result ≡ list_any (protocol.owes (seen self.now)) self.now.nodes }
    {
        is_some_owed(self.marks_of_all())
    }

    /// Whether it is known how the round ends: the boss refused, or went down before it answered, or granted and
    /// nobody owes an answer.
    pub fn is_over(&self) -> bool
        ensures value { result ≡ is_settled self.now }
        ensures protocol { (n : ℕ) → All (λ c. c < n) self.now.nodes → result ≡ protocol.is_over n (seen self.now) }
    {
        match self.boss_mark() {
            Mark::Refused | Mark::Gone => true,
            Mark::Granted | Mark::Lost => !self.is_owed(),
            Mark::Later | Mark::Owes => false,
        }
    }

    /// Whether some node has refused.
    fn is_refused(&self) -> bool
        ensures { result ≡ list_any (λ c. is_refused ((seen self.now).mark c)) self.now.nodes }
    {
        is_some_refused(self.marks_of_all())
    }

    /// The growth check: whether each of these members was asked.
    fn asks_all(&self, members: &NodeSet) -> bool
        ensures value { result ≡ list_all (set_of self.now.nodes) members.now }
        ensures members { IsNodeSet members.now }
    {
        members
            .as_slice()
            .iter()
            .all(|member| self.nodes.contains(member))
    }

    /// Whether the node has granted and not gone down.
    fn has_grant(&self, node: &Node) -> bool
        ensures { result ≡ protocol.granted (seen self.now) node.now }
    {
        matches!(self.mark_of(node), Some(Mark::Granted))
    }

    /// The nodes that granted and haven't gone down.
    fn granted(&self) -> NodeSet
        ensures { result ≡ granted_by self.now }
    {
        let mut granted = self.nodes.copy();
        for node in self.nodes.as_slice() {
            if !self.has_grant(node) {
                granted.remove(node);
            }
        }
        granted
    }

    /// Whether each of these members was asked, the boss granted, nobody refused, and some node that granted hasn't
    /// gone down.
    fn is_won(&self, members: &NodeSet) -> bool
        ensures value { result ≡ is_won members.now self.now }
        ensures round { IsRound self.now }
        ensures members { IsNodeSet members.now }
    {
        let boss = self.boss_mark();
        self.asks_all(members)
            && boss.has_granted()
            && !self.is_refused()
            && !self.granted().is_empty()
    }

    /// How a round that is over ends, by the members as they are now. It is held where each of them was asked, the
    /// boss granted, nobody refused, and some node that granted hasn't gone down; else each node that granted and
    /// hasn't gone down gets its grant back.
    pub fn finish(&self, members: &NodeSet) -> Ending
        ensures value { result ≡ end_of members.now self.now }
        ensures protocol { (n : ℕ) → All (λ c. c < n) self.now.nodes → All (λ c. c < n) members.now
            → EndsAs result (protocol.ending n (set_of members.now) (seen self.now)) }
    {
        if self.is_won(members) {
            Ending::Held
        } else {
            Ending::GiveBack(self.granted())
        }
    }
}
