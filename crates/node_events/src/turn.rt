//! What one step has made so far.
ghost use Rattle.std.specs.Prelude.{◌≡◌, false, OnOk, OnErr};
ghost use Rattle.term.specs.declared.limits.TheConstants.{MOST_NODES};

use crate::events::{Answer, Entry, Letter};
use std::alloc::{AllocError, Global};
use std::marker::Model;
use term::{Node, NodeSet};

/// What one step of a node has made so far: the letters that it sends, its entries of the history, and its answers, in order.
/// Room for them is had before the step changes its node, so that nothing can be refused behind a change.
#[derive(Drop)]
pub struct Turn {
    /// The letters, each with its receiver.
    pub letters: Vec<(Node, Letter)>,
    /// What is entered into the history.
    pub entries: Vec<Entry>,
    /// The answers to calls.
    pub answers: Vec<Answer>,
}

impl Model for Turn {
    ghost use Rattle.std.specs.Vec.{vec_capacity};
    ghost use Rattle.node_events.specs.Made.{Made};

    ghost Value = { Made };

    ghost view = { λ t. record {
      letters = t.letters.items;
      entries = t.entries.items;
      answers = t.answers.items;
      room = record {
        letters = vec_capacity t.letters;
        entries = vec_capacity t.entries;
        answers = vec_capacity t.answers;
      };
    } };
}

impl Turn {
    ghost use Rattle.term.specs.NodeSets.{IsNodeSet};
    ghost use Rattle.node_events.specs.Letters.{has_lists};
    ghost use Rattle.node_events.specs.Made.{nothing, IsNothing, sent, SendsAll, SendsSome, entered, answered, HasRoom, Spends, IsSameMade, IsRoomier};

    /// Nothing is made yet, and there is no room yet.
    pub fn begin(alloc: Global) -> Self
        ensures { result ≡ nothing }
    {
        Turn {
            letters: Vec::new(alloc),
            entries: Vec::new(alloc),
            answers: Vec::new(alloc),
        }
    }

    /// Nothing is made any more; the memory stays.
    pub fn clear(&mut self)
        ensures { IsNothing self.new }
    {
        self.letters.clear();
        self.entries.clear();
        self.answers.clear();
    }

    /// Makes room for so many letters, entries and answers more. Where memory is refused, what was made stays.
    pub fn reserve(
        &mut self,
        letters: usize,
        entries: usize,
        answers: usize,
    ) -> Result<(), AllocError>
        ensures room { OnOk result (HasRoom letters entries answers self.new) }
        ensures made { IsSameMade self.old self.new }
        ensures roomier { IsRoomier self.old self.new }
    {
        self.letters.reserve(letters)?;
        self.entries.reserve(entries)?;
        self.answers.reserve(answers)
    }

    /// A letter to a node. It takes no memory, since there is room.
    pub fn send(&mut self, to: Node, letter: Letter)
        requires { HasRoom 1 0 0 self.old }
        ensures made { self.new ≡ sent to letter self.old }
        ensures spends { Spends 1 0 0 self.old self.new }
    {
        self.letters.push_reserved((to, letter));
    }

    /// A letter without lists to each of these nodes, in their order. It takes no memory, since there is room.
    pub fn send_all(&mut self, nodes: &NodeSet, letter: &Letter)
        requires room { HasRoom MOST_NODES 0 0 self.old }
        requires plain { has_lists letter.now ≡ false }
        ensures letters { SendsAll nodes.now letter.now self.old self.new }
        ensures spends { Spends MOST_NODES 0 0 self.old self.new }
        ensures set { IsNodeSet nodes.now }
    {
        for node in nodes.as_slice() {
            let Ok(copy) = letter.copy() else {
                return;
            };
            self.send(node.copy(), copy);
        }
    }

    /// A copy of a letter that may have lists to each of these nodes, in their order. Where memory is refused the first of them
    /// have theirs.
    pub fn send_copies(&mut self, nodes: &NodeSet, letter: &Letter) -> Result<(), AllocError>
        requires { HasRoom MOST_NODES 0 0 self.old }
        ensures letters { OnOk result (SendsAll nodes.now letter.now self.old self.new) }
        ensures some { OnErr result (SendsSome nodes.now letter.now self.old self.new) }
        ensures spends { Spends MOST_NODES 0 0 self.old self.new }
        ensures set { IsNodeSet nodes.now }
    {
        for node in nodes.as_slice() {
            let copy = letter.copy()?;
            self.send(node.copy(), copy);
        }
        Ok(())
    }

    /// An entry of the history. It takes no memory, since there is room.
    pub fn enter(&mut self, entry: Entry)
        requires { HasRoom 0 1 0 self.old }
        ensures made { self.new ≡ entered entry self.old }
        ensures spends { Spends 0 1 0 self.old self.new }
    {
        self.entries.push_reserved(entry);
    }

    /// An answer to a call. It takes no memory, since there is room.
    pub fn answer(&mut self, answer: Answer)
        requires { HasRoom 0 0 1 self.old }
        ensures made { self.new ≡ answered answer self.old }
        ensures spends { Spends 0 0 1 self.old self.new }
    {
        self.answers.push_reserved(answer);
    }
}
