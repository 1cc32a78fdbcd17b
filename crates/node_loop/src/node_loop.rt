//! A node's loop.
ghost use Rattle.std.specs.Prelude.{ℕ, ◌≡◌, ◌∷◌, [], true, false, length, map, IfOk, OnErr, MatchOption};
ghost use Rattle.tray.specs.Held.{none_for};
ghost use Rattle.node_core.specs.CoreState.{spans_of, IsNext};
ghost use Rattle.node_loop.specs.Told.{told_by};
ghost use Rattle.node_loop.specs.Coming.{begun};
ghost use Rattle.node_loop.specs.Desks.{empty_desk};
ghost use Rattle.node_loop.specs.Held.{owes, with_next, written};
ghost use Rattle.term.specs.NodeSets.{set_of, with_older};
ghost use Rattle.node_loop.specs.Returning.{BeginsSoundFrom, KeepsSoundFrom, LeavesSoundFrom, MayStart};
ghost use Rattle.node_loop.specs.Sound.{BeginsSound, KeepsSound, LeavesSound};
ghost use Rattle.node_loop.specs.Turned.{Turned};
ghost use Rattle.node_loop.specs.declared.edit.Note.TheVariants.{Whole};
ghost use Rattle.node_loop.specs.Owing.{nothing_owed, shown_by, KeepsOwing, TakesUpdate};

use crate::courtesy::Courtesy;
use crate::desk::Desk;
use crate::edit::{Edit, Note, Owed, Update};
use crate::fault::TurnFault;
use crate::gate::{Gate, Permit};
use crate::item::Item;
use crate::numbers::Numbers;
use crate::replies::TaskReply;
use crate::ring::Ring;
use link::{Inbox, Post};
use name_table::Names;
use node_core::NodeCore;
use node_log::{Log, NodeEnd, Record};
use std::alloc::{AllocError, Global};
use std::marker::Model;
use std::mem;
use term::{Node, NodeSet};
use tray::Tray;

/// What a node's thread works on: the node's core, the record of its steps, which is a log unless it says otherwise, the letters that it has
/// to send, those who wait, and the replies.
#[derive(Drop)]
pub struct NodeLoop<N: Names, L: Record = Log> {
    pub(crate) core: NodeCore<N>,
    pub(crate) world: NodeSet,
    pub(crate) log: L,
    pub(crate) tray: Tray<Item>,
    pub(crate) desk: Desk,
    pub(crate) courtesy: Courtesy,
    /// The stamp of the last step; before the first, the one above which they begin.
    pub(crate) stamp: u64,
    /// What its readers are still to be shown.
    pub(crate) owed: Owed,
    pub(crate) left: bool,
    pub(crate) worked: bool,
}

impl<N: Names, L: Record> Model for NodeLoop<N, L> {
    ghost use Rattle.node_loop.specs.Held.{Looping, written};

    ghost Value = { Looping };

    ghost view = { λ l. record {
      core = l.core;
      world = l.world;
      log = written (L.logged l.log);
      tray = l.tray;
      desk = l.desk;
      wait = l.courtesy;
      stamp = l.stamp;
      owed = l.owed;
      left = l.left;
      worked = l.worked;
    } };
}

impl<N: Names<Memory = Global>, L: Record> NodeLoop<N, L> {
    /// The loop of a node that hasn't taken a step in it: nothing is logged, nothing is to be sent, nobody waits. The stamps of its steps
    /// are above this one.
    pub fn new(alloc: Global, core: NodeCore<N>, stamp: u64) -> Result<Self, AllocError>
        ensures new { IfOk result (λ new. new ≡ record {
          core = core;
          world = core.world;
          log = record { node = core.name; entries = [] };
          tray = map none_for core.world;
          desk = empty_desk;
          wait = 0;
          stamp = stamp;
          owed = nothing_owed;
          left = false;
          worked = false;
        }) }
        ensures sound { IfOk result (BeginsSound core) }
        ensures sound_from { IfOk result (BeginsSoundFrom core stamp) }
    {
        let tray = Tray::new(alloc, core.world())?;
        Ok(NodeLoop::with_tray(alloc, core, stamp, tray))
    }

    /// The loop of a node that hasn't taken a step in it, with a tray of its world in which nothing waits.
    fn with_tray(alloc: Global, core: NodeCore<N>, stamp: u64, tray: Tray<Item>) -> Self
        requires { tray ≡ map none_for core.world }
        ensures begun { result ≡ begun stamp core }
        ensures sound { BeginsSound core result }
        ensures sound_from { BeginsSoundFrom core stamp result }
    {
        let world = core.world().copy();
        let log = L::new(alloc, core.node().copy(), &world);
        let own = world.position(core.node()).unwrap_or(0);
        let courtesy = Courtesy::new(Ring::new(world.len(), own));
        NodeLoop {
            core,
            world,
            log,
            tray,
            desk: Desk::new(alloc),
            courtesy,
            stamp,
            owed: Owed {
                note: Note::Nothing,
                length: 0,
            },
            left: false,
            worked: false,
        }
    }

    /// One turn: it asks the gate, sends what waits, takes one item from the inbox, and makes its step; where that is no letter, or it finds
    /// none, the node tries its refused rounds again, unless it gives way to rivals still. A leave that waits is tried behind that.
    /// It fails where the thread is to end: no stamp is left, or memory was refused as often as it is asked for. Then the log still has
    /// the steps that were made, and no other, and each reply is as it is to be. A step that isn't made leaves the node as it was. Of
    /// one that is made the last letters and replies may be missing then: so the loop isn't to be used any more, but for its replies and
    /// its end.
    ///
    /// A loop whose log, core and links tell of the same steps stays so; where the thread ends its log and its core still do, and what
    /// it sent is a beginning of what they send. What it owes its readers is noted, whatever it comes to.
    pub fn turn<E: Post<Item> + Inbox<Item>, G: Gate>(
        &mut self,
        end: &mut E,
        gate: &G,
    ) -> Result<(), TurnFault>
        ensures turned { Turned E.posts E.refuses E.takes E.misses (G.held gate.now) self.old (E.state end.old) result self.new (E.state end.new) }
        ensures sound { KeepsSound E.posts E.takes self.old (E.state end.old) result self.new (E.state end.new) }
        ensures sound_from { KeepsSoundFrom E.posts E.takes self.old (E.state end.old) result self.new (E.state end.new) }
        ensures owing { KeepsOwing self.old self.new }
    {
        let permit = Permit::ask(gate, self.core.node().copy());
        self.go(end, permit)
    }

    /// The rest of a turn, which a gate let go on.
    fn go<E: Post<Item> + Inbox<Item>, G: Gate>(
        &mut self,
        end: &mut E,
        permit: Permit<'_, G>,
    ) -> Result<(), TurnFault>
        requires { permit.node ≡ self.old.core.name }
        ensures turned { Turned E.posts E.refuses E.takes E.misses (λ n. ∥ G.held permit.entry.gate.now n ∥₁) self.old (E.state end.old) result self.new (E.state end.new) }
        ensures sound { KeepsSound E.posts E.takes self.old (E.state end.old) result self.new (E.state end.new) }
        ensures sound_from { KeepsSoundFrom E.posts E.takes self.old (E.state end.old) result self.new (E.state end.new) }
    {
        self.tray.drain(end);
        let Ok(found) = end.take() else {
            return self.idle();
        };
        let Some((from, item)) = found else {
            return self.idle();
        };
        self.work(from, item)
    }

    /// The nodes of its world at present, as far as its node knows.
    pub fn world(&self) -> &NodeSet
        ensures { result.now ≡ self.now.core.world }
    {
        self.core.world()
    }

    /// Whether a node is at present one of its world, which has no younger one of its name then.
    pub fn is_present(&self, node: &Node) -> bool
        ensures present { result ≡ set_of self.now.core.world node.now }
        ensures last { result ≡ true → (next : ℕ) → IsNext node.now next → with_older self.now.core.world next ≡ false }
    {
        self.core.world().contains(node)
    }

    /// Whether its node was told that this one has left, or a younger one of that name. It isn't told so of itself.
    pub fn was_told(&self, node: &Node) -> bool
        ensures told { result ≡ with_older self.now.core.told node.now }
        ensures another { result ≡ true → node.now ≡ self.now.core.name → ⊥ }
    {
        self.core.told().reaches(node)
    }

    /// The next node of a name has started: it takes the place of the one before it, of which its node was told that it has left. Letters that
    /// waited for that one are dropped. It is no step of the node.
    pub fn replace(&mut self, older: &Node, next: &Node)
        requires { MayStart older.now next.now self.old }
        ensures { self.new ≡ with_next older.now next.now self.old }
    {
        self.core.replace(older, next);
        self.world = self.core.world().copy();
        self.tray.renew(older, next);
    }

    /// Its node.
    pub fn node(&self) -> &Node
        ensures { result.now ≡ self.now.log.node }
    {
        self.log.node()
    }

    /// How it stands, in numbers.
    pub fn numbers(&self) -> Numbers
        ensures names { result.names ≡ length self.now.core.table }
        ensures locks { result.locks ≡ length self.now.core.locks }
        ensures calls { result.calls ≡ self.now.core.last_call }
        ensures serials { result.serials ≡ self.now.core.watch.watch.last_serial }
        ensures spans { result.spans ≡ spans_of self.now.core }
        ensures steps { result.steps ≡ length self.now.log.entries }
    {
        Numbers {
            names: self.core.names(),
            locks: self.core.grants(),
            calls: self.core.last_call(),
            serials: self.core.last_serial(),
            spans: self.core.spans(),
            steps: self.log.count(),
        }
    }

    /// The members of its node, that node among them.
    pub fn members(&self) -> &NodeSet
        ensures { result.now ≡ self.now.core.members }
    {
        self.core.members()
    }

    /// Whether its node is joined with the cluster.
    pub fn is_joined(&self) -> bool
        ensures { result ≡ self.now.core.joined }
    {
        self.core.is_joined()
    }

    /// The oldest reply, which is taken off the list.
    pub fn next_reply(&mut self) -> Option<TaskReply>
        ensures rest { self.new ≡ record self.old { desk = record self.old.desk { replies = self.new.desk.replies } } }
        ensures oldest { MatchOption result ((self.old.desk.replies ≡ []) × (self.new.desk.replies ≡ [])) (λ reply. self.old.desk.replies ≡ told_by reply ∷ self.new.desk.replies) }
    {
        self.desk.next_reply()
    }

    /// How long its log was behind the last step that changed what it shows its readers: its table, and whether it has left.
    pub fn shown_length(&self) -> u64
        ensures { result ≡ self.now.owed.length }
    {
        self.owed.length
    }

    /// By this readers are shown all that is owed to them, which isn't any more then; or nothing is owed. It takes memory where the
    /// whole table is owed; where that is refused nothing changes.
    pub fn next_update(&mut self, alloc: Global) -> Result<Option<Update>, AllocError>
        ensures ok { IfOk result (λ update. TakesUpdate update self.old self.new) }
        ensures err { OnErr result (self.new ≡ self.old) }
    {
        let edit = match mem::replace(&mut self.owed.note, Note::Nothing) {
            Note::Nothing => return Ok(None),
            Note::One(edit) => edit,
            Note::Whole => match self.core.table().pairs(alloc) {
                Ok(pairs) => Edit::Whole(pairs, self.left),
                Err(fault) => {
                    self.owed.note = Note::Whole;
                    return Err(fault);
                }
            },
        };
        let length = self.owed.length;
        Ok(Some(Update { length, edit }))
    }

    /// What readers were to be shown can't be: the whole table is owed to them.
    pub fn owe_whole(&mut self)
        ensures { self.new ≡ record self.old { owed = record self.old.owed { note = Whole } } }
    {
        self.owed.note = Note::Whole;
    }

    /// Whether the last turn took an item or tried a step.
    pub fn worked(&self) -> bool
        ensures { result ≡ self.now.worked }
    {
        self.worked
    }

    /// Whether a letter waits to be sent, or a refused round or a leave waits to be tried: such a node naps shortly.
    pub fn owes(&self) -> bool
        ensures { result ≡ owes self.now }
    {
        !self.tray.is_empty() || self.has_retry() || self.has_leave()
    }

    /// Whether the node has left.
    pub fn has_left(&self) -> bool
        ensures { result ≡ self.now.left }
    {
        self.left
    }

    /// What the node's thread gives back, and whether its last turn failed, and the node hadn't left.
    pub fn into_end(self, ended_alone: bool) -> NodeEnd<N, L>
        ensures log { written (L.logged result.log) ≡ self.log }
        ensures table { N.contents result.table ≡ self.core.table }
        ensures ended_alone { result.ended_alone ≡ ended_alone }
        ensures sound { LeavesSound self (written (L.logged result.log)) (N.contents result.table) }
        ensures sound_from { LeavesSoundFrom self (written (L.logged result.log)) (N.contents result.table) }
    {
        let NodeLoop { core, log, .. } = self;
        NodeEnd {
            log,
            table: core.into_table(),
            ended_alone,
        }
    }
}
