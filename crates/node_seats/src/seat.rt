//! Seats: from each, one caller calls one node.
ghost use Rattle.std.specs.Prelude.{◌≡◌, [], true, false, OnOk, IfOk, IfErr, Err};
ghost use Rattle.std.specs.Option.{ForSome};
ghost use Rattle.shared_table.specs.Events.{knows_contact as knows};
ghost use Rattle.shared_table.specs.declared.LocalEvent.TheVariants.{Exit, Leave, Call as Calls};
ghost use Rattle.shared_table.specs.declared.WorldEvent.TheVariants.{At};
ghost use Rattle.shared_table.specs.declared.Effect.TheVariants.{Made, Left};
ghost use Rattle.node_seats.specs.Seats.{sitting, Answered, Unanswered, Done, LooksUp};
ghost use Rattle.node_seats.specs.Replies.{HasLeft};
ghost use Rattle.node_seats.specs.declared.fault.SeatFault.TheVariants.{NoSuchNode};
ghost use Rattle.node_seats.specs.Callers.{name_of, nodes_of, IsEnd};
ghost use Rattle.node_seats.specs.Faults.{IsAskRefused, IsUnmade};
ghost use Rattle.node_seats.specs.Fences.{HasGranted, fence_of};
ghost use Rattle.node_seats.specs.Knowing.{known_at, with_known};

use crate::asking::Given;
use crate::caller::Caller;
use crate::calls::copied_call;
use crate::fault::SeatFault;
use crate::fences::{fence_of, granted_after, sets_lock};
use crate::knowledge::Knowledge;
use crate::notes::{KeptNotes, Notes};
use crate::told::NodeStatus;
use shared_table::{Call, LocalEvent, Reply, SeatEntry, Token, Transcript, WorldEvent};
use std::alloc::{AllocError, Global};
use std::marker::Model;
use std::sync::Wait;
use std::time::Clock;
use term::{Name, Node, Pid};

/// One caller's place at a node, with the transcript of what it was answered. It may go to another thread. Contracts see its
/// number and its slot, its node and the inbox of that, the nodes of its cluster, the events that it has asked the node for, the
/// moments of the node that it knows, by which step it was granted a lock last, and its transcript, whether that is kept or not.
#[derive(Drop)]
pub struct Seat<T: Notes = KeptNotes> {
    caller: Caller,
    notes: T,
    /// The stamp of the step that granted it a lock last.
    granted: Option<u64>,
    ghost logged: { ForSome granted (λ stamp. HasGranted (name_of caller) stamp) },
}

impl<T: Notes> Model for Seat<T> {
    ghost use Rattle.node_seats.specs.Seats.{Sitting, sitting};

    ghost Value = { Sitting };

    ghost view = { λ s. record (sitting s.caller (T.noted s.notes)) { granted = s.granted } };
}

/// The copy of a call, and room for its entry in these notes.
fn copied<T: Notes>(notes: &mut T, call: &Call) -> Result<Call, AllocError>
    ensures copy { IfOk result (λ copy. copy ≡ call.now) }
    ensures same { T.noted notes.new ≡ T.noted notes.old }
    ensures room { OnOk result (T.has_room notes.new ≡ true) }
{
    notes.reserve()?;
    copied_call(call)
}

/// The copy of a call that a seat's transcript is to have, and room for it there. Where there is no memory for these, what the seat's
/// caller has against the call comes first.
fn prepared<T: Notes>(notes: &mut T, caller: &Caller, call: &Call) -> Result<Call, SeatFault>
    ensures copy { IfOk result (λ copy. copy ≡ call.now) }
    ensures same { T.noted notes.new ≡ T.noted notes.old }
    ensures room { OnOk result (T.has_room notes.new ≡ true) }
    ensures unmade { IfErr result (λ fault. IsUnmade fault (knows (nodes_of caller.now) (Calls call.now))) }
{
    match copied(notes, call) {
        Ok(copy) => Ok(copy),
        Err(_) => Err(caller.unmade_call(call)),
    }
}

/// Makes room for the entry of an exit or of a leave. Where there is no memory for it, what the seat's caller has against it comes first.
fn make_room<T: Notes>(notes: &mut T, caller: &Caller) -> Result<(), SeatFault>
    ensures same { T.noted notes.new ≡ T.noted notes.old }
    ensures room { OnOk result (T.has_room notes.new ≡ true) }
    ensures unmade { IfErr result (λ fault. IsUnmade fault true) }
{
    match notes.reserve() {
        Ok(()) => Ok(()),
        Err(_) => Err(caller.unmade()),
    }
}

impl<T: Notes> Seat<T> {
    /// The seat of a caller, with an empty transcript.
    pub fn new(alloc: Global, caller: Caller) -> Self
        ensures { result ≡ sitting caller [] }
    {
        Seat {
            caller,
            notes: T::new(alloc),
            granted: None,
        }
    }

    /// Its number. Seats are numbered from 0 on as they are made.
    pub fn number(&self) -> u32
        ensures { result ≡ self.now.seat }
    {
        self.caller.place().seat
    }

    /// The slot of its replies, which no other seat has until this one is given back.
    pub fn slot(&self) -> u32
        ensures { result ≡ self.now.slot }
    {
        self.caller.place().slot
    }

    /// Its node.
    pub fn node(&self) -> &Node
        ensures { result.now ≡ self.now.node }
    {
        self.caller.node()
    }

    /// What is known here of its node, and by which step it was granted a lock last, so that another seat of the node may know it, too.
    pub fn knowledge(&self) -> Knowledge
        ensures { result ≡ known_at self.now }
    {
        Knowledge::of(self.caller.node().copy(), self.caller.told(), self.granted)
    }

    /// It is lent to who knows this of its node, from another of its seats: it looks names up in no older table, and was granted a lock last by
    /// the step that he was, or none.
    pub fn learn(&mut self, known: &Knowledge)
        requires { known.now.node ≡ self.old.node }
        ensures { self.new ≡ with_known known.now self.old }
    {
        self.caller.learn(known);
        self.granted = known.granted();
    }

    /// Calls the node, once, and waits for the reply, which the node's loop told this seat. The call and its answer then stand last in
    /// the transcript, which nothing else changes. `Memory`: nothing was asked, and the seat has nothing else against the call; or it was
    /// asked, and the reply is a list of names or notices. `NodeLeft`: the node has left. `NoSuchNode`: the contact of a join isn't of the
    /// cluster. `Step`: the node refuses the call. `Closed`: the node's thread ended without a leave, or the cluster was closed; whether the
    /// call was made then isn't known.
    pub fn call<R: Wait + Clock>(&mut self, rt: &R, call: Call) -> Result<Reply, SeatFault>
        ensures ok { IfOk result (λ reply. Answered call reply self.old self.new) }
        ensures err { IfErr result (λ fault. Unanswered fault (Calls call) self.old self.new) }
        ensures stranger { knows self.old.nodes (Calls call) ≡ false → result ≡ Err NoSuchNode }
        ensures known { IfErr result (λ fault. IsAskRefused fault (knows self.old.nodes (Calls call))) }
    {
        let sets = sets_lock(&call);
        let noted = prepared(&mut self.notes, &self.caller, &call)?;
        let event = self.event(LocalEvent::Call(noted));
        let given = self.caller.call(rt, call)?;
        let reply = given.answer.reply.copy()?;
        self.granted = granted_after(sets, &given, self.granted);
        let Given { answer, .. } = given;
        let answer = Some(answer);
        self.notes.put(SeatEntry { event, answer });
        Ok(reply)
    }

    /// Looks a name up in the node's table, beside the node: it asks it for nothing, waits for no lock and no thread, and stands in no
    /// transcript. The table is the node's after some of its steps: after all whose replies this seat was given, and after no fewer than
    /// any that it read before. `NodeLeft`: the node has left. `Closed`: the cluster was closed. Where the node's thread ended for another
    /// cause, its last table is read still.
    pub fn whereis(&mut self, name: &Name) -> Result<Option<Pid>, SeatFault>
        ensures { LooksUp name.now result self.old self.new }
    {
        self.caller.look_up(name)
    }

    /// The moments of its node that it knows, of the node's book: up to the last that it read in, or that a reply was told at. There are none
    /// before its first look-up and its first reply. It has no bytes. Where the cluster is over, the past of the node's book covers it
    /// (`Past::covers`).
    pub fn token(&self) -> Token
        ensures book { result.book ≡ self.now.seen.known.book }
        ensures log { result.log ≡ self.now.seen.known.log }
    {
        self.caller.token()
    }

    /// How its node stands, as the node's thread told last: behind every step whose reply this seat was given, or a later one. It asks the
    /// node for nothing, and stands in no transcript. `NodeLeft`: the node has left. `Closed`: its thread has ended, or the cluster was
    /// closed.
    pub fn status(&self) -> Result<NodeStatus, SeatFault>
        ensures node { IfOk result (λ status. status.node ≡ self.now.node) }
        ensures ended { IfErr result IsEnd }
    {
        self.caller.status()
    }

    /// A process of the node dies. It waits until that is so, and the exit then stands last in the transcript. It is refused as
    /// `call` is.
    pub fn exit<R: Wait + Clock>(&mut self, rt: &R, process: &Pid) -> Result<(), SeatFault>
        ensures ok { OnOk result (Done (Exit process.now) Made self.old self.new) }
        ensures err { IfErr result (λ fault. Unanswered fault (Exit process.now) self.old self.new) }
    {
        make_room(&mut self.notes, &self.caller)?;
        self.caller.exit(rt, process)?;
        let event = self.event(LocalEvent::Exit(process.copy()));
        let answer = None;
        self.notes.put(SeatEntry { event, answer });
        Ok(())
    }

    /// The seat's own node leaves. It waits until that is so, and the node's log says it, behind the hold of the global lock where the
    /// node holds it; the leave then stands last in the transcript. It is refused as `call` is.
    pub fn leave<R: Wait + Clock>(&mut self, rt: &R) -> Result<(), SeatFault>
        ensures ok { OnOk result (Done Leave Left self.old self.new) }
        ensures left { OnOk result (HasLeft self.old.node) }
        ensures err { IfErr result (λ fault. Unanswered fault Leave self.old self.new) }
    {
        make_room(&mut self.notes, &self.caller)?;
        self.caller.leave(rt)?;
        let event = self.event(LocalEvent::Leave);
        let answer = None;
        self.notes.put(SeatEntry { event, answer });
        Ok(())
    }

    /// The number of the step that granted it a lock last: by `true` to a `set_lock`, as the node's log says. It is the stamp of the step
    /// times eight, and the place of the node among the cluster's. `None`: it was granted none.
    pub fn fence(&self) -> Option<u128>
        ensures number { result ≡ fence_of self.now.nodes self.now.node self.now.granted }
        ensures logged { ForSome self.now.granted (λ stamp. HasGranted self.now.node stamp) }
    {
        fence_of(self.caller.nodes(), self.caller.node(), self.granted)
    }

    /// Why an event without a contact isn't asked for that there was no memory to make.
    pub(crate) fn unmade(&self) -> SeatFault
        ensures { IsUnmade result true }
    {
        self.caller.unmade()
    }

    /// An event of the seat's node.
    fn event(&self, event: LocalEvent) -> WorldEvent
        ensures { result ≡ At self.now.node event }
    {
        WorldEvent::At(self.caller.node().copy(), event)
    }
}

impl Seat {
    /// The transcript so far, the oldest entry first.
    pub fn entries(&self) -> &[SeatEntry]
        ensures { result.now ≡ self.now.entries }
    {
        self.notes.entries.as_slice()
    }

    /// The transcript, where the seat isn't used any more.
    pub fn into_transcript(self) -> Transcript
        ensures seat { result.seat ≡ self.seat }
        ensures node { result.node ≡ self.node }
        ensures entries { result.entries.items ≡ self.entries }
    {
        let Seat { caller, notes, .. } = self;
        Transcript {
            seat: caller.place().seat,
            node: caller.node().copy(),
            entries: notes.entries,
        }
    }
}
