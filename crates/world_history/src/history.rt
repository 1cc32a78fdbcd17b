//! The history of a world.
ghost use Rattle.std.specs.Prelude.{◌≡◌, ℕ, ◌≤◌, ◌<◌, ◌+◌, List, [], ◌∷◌, OnOk};
ghost use Rattle.std.specs.Vec.{vec_len};
ghost use Rattle.node_events.specs.Seen.{entry_by};
ghost use Rattle.world_history.specs.Histories.{made_by, entries_of};

use crate::entered::Entered;
use crate::keeper::Keeper;
use crate::kept::{Kept, KeptEntry};
use node_events::Entry;
use std::alloc::{AllocError, Global};
use std::marker::Model;
use std::mem;
use term::{Node, NodeSet};

/// The history of a world: all entries, the oldest first. Contracts see their list, and for how many more there is room.
#[derive(Drop)]
pub struct History {
    keeper: Keeper,
    entries: Vec<KeptEntry>,
    /// Memory for entries that there is none to make small.
    spare: Vec<Box<Entered>>,
}

impl Model for History {
    ghost use Rattle.std.specs.Prelude.{◌-◌, min};
    ghost use Rattle.std.specs.Vec.{vec_len, vec_capacity};
    ghost use Rattle.world_history.specs.HistoryState.{HistoryState};

    ghost Value = { HistoryState };

    ghost view = { λ h. record {
      entries = h.entries.items;
      room = min (vec_capacity h.entries - vec_len h.entries) (vec_len h.spare);
    } };
}

/// Fills memory up for so many entries, with entries of the node that say nothing.
fn fill(spare: &mut Vec<Box<Entered>>, more: usize, node: &Node) -> Result<(), AllocError>
    ensures { OnOk result (more ≤ vec_len spare.new) }
{
    let alloc: Global = *spare.allocator();
    for _ in spare.len()..more {
        let entry = Entry::Done(node.copy());
        spare.push(Box::new(alloc, Entered { entry, number: 0 })?)?;
    }
    Ok(())
}

/// Keeps an entry small, or where memory is refused in spare memory, whose entry is then in its place.
fn keep(keeper: &Keeper, spare: &mut Vec<Box<Entered>>, entry: &mut Entry, number: u32) -> KeptEntry
    requires { 0 < vec_len spare.old }
    ensures kept { (left : List ℕ) → made_by result left ≡ entry_by (λ _. number) entry.old ∷ [] }
    ensures spare { vec_len spare.old ≤ vec_len spare.new + 1 }
{
    match keeper.entry(entry, number) {
        Ok(kept) => kept,
        Err(_) => {
            let mut place = spare.take_last();
            place.number = number;
            mem::swap(&mut place.entry, entry);
            KeptEntry::new(Kept::Whole(place))
        }
    }
}

impl History {
    ghost use Rattle.std.specs.Prelude.{◌++◌, IfOk, OnErr};
    ghost use Rattle.world_history.specs.declared.entry.HistoryEntry.{HistoryEntry};

    /// The history of a world of these nodes, without an entry and without room for one.
    pub fn new(alloc: Global, nodes: &NodeSet) -> Result<Self, AllocError>
        ensures { IfOk result (λ history. history.entries ≡ []) }
    {
        Ok(History {
            keeper: Keeper::new(alloc, nodes)?,
            entries: Vec::new(alloc),
            spare: Vec::new(alloc),
        })
    }

    /// Its entries.
    pub fn as_slice(&self) -> &[KeptEntry]
        ensures { result.now ≡ self.now.entries }
    {
        self.entries.as_slice()
    }

    /// Makes room for so many entries of a node. Where memory is refused, no entry is lost.
    pub fn reserve(&mut self, more: usize, node: &Node) -> Result<(), AllocError>
        ensures entries { self.new.entries ≡ self.old.entries }
        ensures room { OnOk result (more ≤ self.new.room) }
    {
        self.entries.reserve(more)?;
        if self.spare.len() < more {
            fill(&mut self.spare, more, node)?;
        }
        Ok(())
    }

    /// Puts an entry of a node at the end, for which there is room: so it is put whatever memory there is, and nothing is refused.
    /// Where that decided a join of another node, `number` is that of its call there. What is left in the entry's place says nothing.
    pub fn enter(&mut self, entry: &mut Entry, number: u32)
        requires { 0 < self.old.room }
        ensures entries { entries_of self.new.entries ≡ entries_of self.old.entries ++ entry_by (λ _. number) entry.old ∷ [] }
        ensures room { self.old.room ≤ self.new.room + 1 }
    {
        let kept = keep(&self.keeper, &mut self.spare, entry, number);
        self.entries.push_reserved(kept);
    }

    /// Puts at the end that a name has come back: the next node of it has started, which takes the older one's place among the
    /// nodes that entries share. Where memory is refused, no entry is put.
    pub fn enter_restart(&mut self, older: &Node, next: &Node) -> Result<(), AllocError>
        ensures entries { OnOk result (self.new.entries ≡ self.old.entries ++ HistoryEntry.Restart next.now ∷ []) }
        ensures unchanged { OnErr result (self.new.entries ≡ self.old.entries) }
    {
        let shared = self.keeper.node(next)?;
        let kept = KeptEntry::new(Kept::Restart(shared.clone()?));
        self.entries.reserve(1)?;
        self.keeper.replace(older, shared);
        self.entries.push_reserved(kept);
        Ok(())
    }
}
