//! What the steps of a node do to what its readers are shown.
ghost use Rattle.std.specs.Prelude.{◌≡◌};
ghost use Rattle.protocol_model.specs.Node.{unless_told};
ghost use Rattle.name_table.specs.Changes.{change_of};
ghost use Rattle.term.specs.NodeSets.{with_older};
ghost use Rattle.node_loop.specs.Editions.{NotedBy};
ghost use Rattle.node_loop.specs.Owing.{with_note};

use name_table::{Change, Names, Pair};
use node_core::NodeCore;
use node_log::Letter;
use std::alloc::Global;
use std::collections::LinkedList;
use std::mem;
use term::{Node, NodeSet};

/// What a step does to what its node shows.
#[derive(Drop)]
pub enum Edit {
    /// One change is written.
    Write(Change),
    /// The names of this node's processes go.
    Departure(Node),
    /// From now on these pairs, put one behind the other, are the table, and this says whether the node has left.
    Whole(Vec<Pair>, bool),
    /// The node leaves.
    Leave,
}

/// An edit, and how long the node's log is behind the step that makes it.
#[derive(Drop)]
pub struct Update {
    /// How many steps the log then has.
    pub length: u64,
    /// What the last of them does.
    pub edit: Edit,
}

/// What contracts see of what a node shows. No value of it is made.
pub struct Edition {
    /// The node.
    pub node: Node,
    /// Its table.
    pub table: LinkedList<Pair>,
    /// How long its log was behind the last step that changed what it shows.
    pub length: u64,
    /// Whether it had left.
    pub left: bool,
}

/// What a node's readers are still to be shown. It takes no memory of its own.
#[derive(Drop)]
pub(crate) enum Note {
    /// Nothing.
    Nothing,
    /// One edit.
    One(Edit),
    /// More than that, or what isn't known: the whole table.
    Whole,
}

/// What a node's readers are still to be shown, and how long the log was behind the last step that changed it.
#[derive(Drop)]
pub(crate) struct Owed {
    pub(crate) note: Note,
    pub(crate) length: u64,
}

impl Owed {
    /// A step that does this was logged as the last of so many. What was to be shown before can't be made good but by the whole table.
    pub(crate) fn add(&mut self, note: Note, length: u64)
        ensures { self.new ≡ with_note note length self.old }
    {
        if let Note::Nothing = note {
            return;
        }
        self.length = length;
        self.note = match mem::replace(&mut self.note, Note::Whole) {
            Note::Nothing => note,
            _ => Note::Whole,
        };
    }
}

/// What a node writes that is told to write this: a name isn't given to a process of a node that has left.
fn written_for(told: &NodeSet, change: &Change) -> Change
    ensures { change_of result ≡ unless_told (with_older told.now) (change_of change.now) }
{
    match change {
        Change::Put(pair) if told.reaches(&pair.owner.node) => Change::Remove(pair.name.copy()),
        other => other.copy(),
    }
}

/// What a node shows otherwise behind a letter, as far as that is known before it is read.
pub(crate) fn note_of<N: Names<Memory = Global>>(
    core: &NodeCore<N>,
    from: &Node,
    letter: &Letter,
) -> Note
    ensures { NotedBy result from.now letter.now core.now }
{
    let is_known = core.world().contains(from);
    let is_own = from == core.node();
    match letter {
        Letter::Apply(_) if core.told().reaches(from) => Note::Nothing,
        Letter::Apply(change) => Note::One(Edit::Write(written_for(core.told(), change))),
        Letter::Down if is_known && !is_own => Note::One(Edit::Departure(from.copy())),
        Letter::JoinAsk(_) if is_known => Note::Nothing,
        Letter::JoinAsk(_) | Letter::Admit(_) | Letter::Welcome(_) | Letter::Down => Note::Whole,
        _ => Note::Nothing,
    }
}
