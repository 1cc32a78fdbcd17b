//! When a refused round is tried again.
ghost use Rattle.std.specs.Prelude.{◌≡◌, ◌-◌, ◌==◌, ◌≤◌};

use crate::ring::Ring;
use node_log::Letter;
use std::marker::Model;
use term::{LockId, MOST_TURNS, Node, NodeSet, Resource};

/// For so many it waits for each rival that goes first, and where it knows of nobody who is in its way.
const TURNS_FOR_ONE: u32 = 16;

/// How long a refused round of the node gives way to those of others. It sees in the letters that are read when the global lock is
/// granted here and when it is given back. While another holds it the round waits; when that gives it back, the rivals go on in the
/// order of a ring that begins behind it. A refused lock call of a client waits twice as long each time, until a lock of some client
/// is heard to be given back. What is heard in no letter ends the wait too: each empty turn makes it shorter by one.
/// Contracts see how many more it lasts.
#[derive(Drop)]
pub(crate) struct Courtesy {
    ring: Ring,
    /// How many turns the wait lasts yet: that of a refused round for the global lock where there is one, else that of clients.
    turns: u32,
    /// Whether a round for the global lock was refused and hasn't been tried again yet.
    is_refused: bool,
    /// The place of the node that holds the lock here.
    holder: Option<usize>,
    /// How many others gave the lock back since a round of the operation that wants it was refused first; none where none was.
    waited: Option<usize>,
    /// How many turns the next refused lock call of a client waits.
    patience: u32,
}

impl Model for Courtesy {
    ghost use Rattle.std.specs.Prelude.{ℕ, ◌≤◌};
    ghost use Rattle.term.specs.declared.limits.TheConstants.{MOST_TURNS};

    ghost Value = { ℕ };

    ghost view = { λ c. c.turns };

    ghost invariant = { λ c. c.turns ≤ MOST_TURNS };
}

/// Whether a lock is the one that the nodes' registrars ask for.
fn is_global(id: &LockId) -> bool {
    id.resource == Resource::global()
}

/// The place of a node. A stranger has none, and counts as one behind all others.
fn place_in(world: &NodeSet, node: &Node) -> usize {
    world.position(node).unwrap_or(world.len())
}

impl Courtesy {
    /// No round waits, and no rival is known.
    pub(crate) fn new(ring: Ring) -> Self
        ensures { result ≡ 0 }
    {
        Courtesy {
            ring,
            turns: 0,
            is_refused: false,
            holder: None,
            waited: None,
            patience: TURNS_FOR_ONE,
        }
    }

    /// Whether a refused round waits no longer.
    pub(crate) fn is_over(&self) -> bool
        ensures { result ≡ (self.now == 0) }
    {
        self.turns == 0
    }

    /// A turn finds no item. Where no wait was left before it, a refused round is tried again in it.
    pub(crate) fn pass_turn(&mut self)
        ensures { self.new ≡ self.old - 1 }
    {
        if self.turns == 0 {
            self.is_refused = false;
        }
        if self.turns == 1 && self.is_refused {
            // What ends the wait is no letter: nothing seen before counts any more.
            self.holder = None;
        }
        self.turns = self.turns.saturating_sub(1);
    }

    /// A refused round waits for so many turns, or for as many as it may.
    fn wait(&mut self, turns: u32)
        ensures { self.new ≤ MOST_TURNS }
    {
        self.turns = turns.min(MOST_TURNS);
    }

    /// Whether all have had the lock twice since a round was refused: it gives way to nobody any more.
    fn is_passed_over(&self) -> bool {
        let most = self.ring.len().saturating_mul(2);
        self.waited.is_some_and(|others| others >= most)
    }

    /// A lock call of a client is refused. Who holds the lock may do so for long: so it is tried again later each time. Where a
    /// round for the global lock waits, too, both are tried again when that wait is over.
    fn hear_client_refused(&mut self)
        ensures { self.new ≤ MOST_TURNS }
    {
        if self.is_refused {
            return;
        }
        let turns = self.turns.max(self.patience);
        self.patience = self.patience.saturating_mul(2).min(MOST_TURNS);
        self.wait(turns);
    }

    /// Locks of clients may be free: calls that wait for one are tried soon.
    fn hear_client_freed(&mut self)
        ensures { self.new ≤ MOST_TURNS }
    {
        self.patience = TURNS_FOR_ONE;
        if self.is_refused {
            return;
        }
        let turns = self.turns;
        self.wait(turns.min(TURNS_FOR_ONE));
    }

    /// A round of the node's own is refused.
    fn hear_refusal(&mut self, id: &LockId)
        ensures { self.new ≤ MOST_TURNS }
    {
        if !is_global(id) {
            return self.hear_client_refused();
        }
        self.is_refused = true;
        self.waited = self.waited.or(Some(0));
        let turns = match self.holder {
            Some(_) => MOST_TURNS,
            None => TURNS_FOR_ONE,
        };
        self.wait(turns);
    }

    /// A node asks for the lock. Where nobody holds it here, it is granted.
    fn hear_asked(&mut self, from: usize)
        ensures { self.new ≤ MOST_TURNS }
    {
        if self.holder.is_some() {
            return;
        }
        self.holder = Some(from);
        if self.turns > 0 && self.is_refused && from != self.ring.own() {
            self.wait(MOST_TURNS);
        }
    }

    /// The node itself gives the lock back: its operation is done, unless a round was refused, which only had some grants.
    fn end_hold(&mut self)
        ensures { self.new ≤ MOST_TURNS }
    {
        if !self.is_refused {
            self.waited = None;
        }
    }

    /// A node gives the lock back, or has left.
    fn hear_given_back(&mut self, from: usize)
        ensures { self.new ≤ MOST_TURNS }
    {
        if self.holder != Some(from) {
            return;
        }
        self.holder = None;
        self.ring.pass_to(from);
        if from == self.ring.own() {
            return self.end_hold();
        }
        if let Some(others) = self.waited {
            self.waited = Some(others.saturating_add(1));
        }
        if !self.is_refused {
            return;
        }
        let rivals = if self.is_passed_over() {
            0
        } else {
            self.ring.rivals_behind(from)
        };
        self.wait(TURNS_FOR_ONE.saturating_mul(rivals));
    }

    /// A letter is about to be read that came from this node of the world.
    pub(crate) fn hear(&mut self, world: &NodeSet, from: &Node, letter: &Letter)
        ensures { self.new ≤ MOST_TURNS }
    {
        // What is heard of no lock leaves the wait as it is, which is known to have its bound once a field is read.
        let _ring = &self.ring;
        match letter {
            Letter::LockAnswer(id, _, false) => self.hear_refusal(id),
            Letter::SetLock(id, _) if is_global(id) => self.hear_asked(place_in(world, from)),
            Letter::GiveBack(id, ..) if is_global(id) => {
                self.hear_given_back(place_in(world, from));
            }
            Letter::Down => {
                self.hear_given_back(place_in(world, from));
                self.hear_client_freed();
            }
            // One that asks for no acknowledgement only undoes what a refused call was granted.
            Letter::GiveBack(_, _, true) | Letter::ReleaseOf(_) => self.hear_client_freed(),
            _ => {}
        }
    }
}
