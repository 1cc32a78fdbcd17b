//! The steps of a node's loop.
ghost use Rattle.std.specs.Prelude.{◌≡◌, ◌-◌, true, None, OnOk, OnErr, IfOk};
ghost use Rattle.std.specs.Option.{option_map};
ghost use Rattle.node_core.specs.Causes.{event_by};
ghost use Rattle.node_core.specs.Steps.{Steps, IsAsBefore, refusal_of};
ghost use Rattle.node_log.specs.Events.{knows_contact};
ghost use Rattle.node_loop.specs.Held.{written, can_step, has_retry, is_due, has_leave, is_free_to_leave};
ghost use Rattle.node_loop.specs.Steps.{Concludes, Tries};
ghost use Rattle.node_loop.specs.Items.{Refuses, Reads, Accepts, Handles, Hears, Waits, Idles, Works};

use crate::edit::note_of;
use crate::fault::TurnFault;
use crate::item::{Item, Stamped, Task, Ticket};
use crate::node_loop::NodeLoop;
use crate::outgoing::{next_stamp, put_all};
use crate::replies::TaskFault;
use crate::tries::TRIES;
use crate::waiting::Course;
use name_table::Names;
use node_core::NodeCore;
use node_log::{Cause, LocalEvent, Record, StepFault, Turn, WorldEvent};
use std::alloc::{AllocError, Global};
use term::Node;

/// What came of trying a step.
#[derive(Debug, Drop)]
pub(crate) enum Tried {
    /// It was made.
    Made,
    /// The core refuses its event, and nothing changed.
    Refused(StepFault),
    /// The thread ends for this cause.
    Ended(TurnFault),
}

/// The seat of a ticket.
fn seat_of(own: Option<Ticket>) -> Option<u32>
    ensures { result ≡ option_map (λ t. t.seat) own }
{
    match own {
        Some(ticket) => Some(ticket.seat),
        None => None,
    }
}

/// Tries a step that the core doesn't refuse. There is room for it in the log before it is made, so that it can be logged. Where
/// memory is refused the core is as before, as the protocol sees it.
fn try_step<N: Names<Memory = Global>, L: Record>(
    core: &mut NodeCore<N>,
    log: &mut L,
    cause: Cause<'_>,
) -> Result<Turn, AllocError>
    requires { refusal_of (event_by cause) core.old ≡ None }
    ensures made { IfOk result (λ turn. Steps (event_by cause.entry) core.old core.new turn) }
    ensures as_before { OnErr result (IsAsBefore core.old core.new) }
    ensures log { written (L.logged log.new) ≡ written (L.logged log.old) }
    ensures room { OnOk result ((L.logged log.new).has_room ≡ true) }
{
    log.reserve()?;
    let spare = core.new_turn();
    core.accept(cause, spare)
}

/// The same, as often as a step is tried.
fn step<N: Names<Memory = Global>, L: Record>(
    core: &mut NodeCore<N>,
    log: &mut L,
    cause: Cause<'_>,
) -> Result<Turn, AllocError>
    requires { refusal_of (event_by cause) core.old ≡ None }
    ensures made { IfOk result (λ turn. Steps (event_by cause.entry) core.old core.new turn) }
    ensures as_before { OnErr result (IsAsBefore core.old core.new) }
    ensures log { written (L.logged log.new) ≡ written (L.logged log.old) }
    ensures room { OnOk result ((L.logged log.new).has_room ≡ true) }
{
    for _ in 0..TRIES {
        if let Ok(turn) = try_step(core, log, cause) {
            return Ok(turn);
        }
    }
    Err(AllocError)
}

impl<N: Names<Memory = Global>, L: Record> NodeLoop<N, L> {
    /// Whether a refused round waits to be tried again.
    pub(crate) fn has_retry(&self) -> bool
        ensures { result ≡ has_retry self.now }
    {
        !self.left && self.core.can_retry()
    }

    /// Whether one waits that gives way to rivals no longer.
    fn is_due(&self) -> bool
        ensures { result ≡ is_due self.now }
    {
        self.has_retry() && self.courtesy.is_over()
    }

    /// Whether a leave waits.
    pub(crate) fn has_leave(&self) -> bool
        ensures { result ≡ has_leave self.now }
    {
        !self.left && self.desk.first_leave().is_some()
    }

    /// Whether a leave waits that can be accepted now.
    pub(crate) fn is_free_to_leave(&self) -> bool
        ensures { result ≡ is_free_to_leave self.now }
    {
        self.has_leave() && !self.core.holds_global()
    }

    /// A step of the core was made and logged: its answers are told and logged, and its letters are put into the tray.
    fn conclude(
        &mut self,
        stamp: u64,
        own: Option<Ticket>,
        course: Course,
        turn: Turn,
    ) -> Result<(), AllocError>
        ensures { Concludes stamp own course turn self.old result self.new }
    {
        let Turn {
            letters,
            answers,
            ..
        } = turn;
        self.stamp = stamp;
        let told = self
            .desk
            .settle(stamp, own, course, &self.core, answers.as_slice());
        self.log.answer(answers);
        told?;
        put_all(&mut self.tray, stamp, letters)
    }

    /// Tries the step of an event, of this ticket or of nobody. The contact of a join is of the world.
    pub(crate) fn attempt(&mut self, own: Option<Ticket>, event: LocalEvent) -> Tried
        requires { knows_contact self.old.world event ≡ true }
        ensures { Tries own event self.old result self.new }
    {
        let Some(stamp) = next_stamp(self.stamp, 0) else {
            return Tried::Ended(TurnFault::StampsSpent);
        };
        let course = Course::of(&event);
        let cause = event.cause();
        if let Some(fault) = self.core.refusal(cause) {
            return Tried::Refused(fault);
        }
        let Ok(turn) = step(&mut self.core, &mut self.log, cause) else {
            return Tried::Ended(TurnFault::Memory);
        };
        let event = WorldEvent::At(self.core.node().copy(), event);
        self.log.put(stamp, seat_of(own), event);
        match self.conclude(stamp, own, course, turn) {
            Ok(()) => Tried::Made,
            Err(_) => Tried::Ended(TurnFault::Memory),
        }
    }

    /// A letter is read. A node that has left drops it.
    fn read(&mut self, from: Node, stamped: Stamped) -> Result<(), TurnFault>
        ensures { Reads from stamped self.old result self.new }
    {
        if self.left {
            return Ok(());
        }
        let Stamped {
            stamp: sent,
            letter,
        } = stamped;
        let Some(stamp) = next_stamp(self.stamp, sent) else {
            return Err(TurnFault::StampsSpent);
        };
        let note = note_of(&self.core, &from, &letter);
        let cause = Cause::FromPeer(&from, &letter);
        let Ok(turn) = step(&mut self.core, &mut self.log, cause) else {
            return Err(TurnFault::Memory);
        };
        self.log.put_delivery(stamp, &from);
        self.owed.add(note, self.log.count());
        self.conclude(stamp, None, Course::AtOnce, turn)?;
        Ok(())
    }

    /// A task is refused, and the ticket is told so.
    fn refuse(&mut self, ticket: Option<Ticket>, fault: TaskFault) -> Result<(), TurnFault>
        ensures { Refuses ticket fault self.old result self.new }
    {
        self.desk.refuse(ticket, fault)?;
        Ok(())
    }

    /// A task is taken: it is refused, or it waits, or its step is made.
    fn accept(&mut self, task: Task) -> Result<(), TurnFault>
        ensures { Accepts task.ticket task.event self.old result self.new }
    {
        let Task { ticket, event } = task;
        if !event.knows_contact(&self.world) {
            return self.refuse(ticket, TaskFault::NoSuchNode);
        }
        if self.left {
            return self.refuse(ticket, TaskFault::NodeLeft);
        }
        if event.is_leave() {
            self.desk.wait_to_leave(ticket)?;
            return Ok(());
        }
        match self.attempt(ticket, event) {
            Tried::Made => Ok(()),
            Tried::Refused(fault) => self.refuse(ticket, TaskFault::Step(fault)),
            Tried::Ended(fault) => Err(fault),
        }
    }

    /// An item is handled.
    fn handle(&mut self, from: Node, item: Item) -> Result<(), TurnFault>
        ensures { Handles from item self.old result self.new }
    {
        match item {
            Item::Letter(stamped) => self.read(from, stamped),
            Item::Task(task) => self.accept(task),
        }
    }

    /// A letter may tell how long a refused round has to wait.
    fn hear(&mut self, from: &Node, item: &Item)
        ensures { Hears item.now self.old self.new }
    {
        if let Item::Letter(stamped) = item {
            self.courtesy.hear(&self.world, from, &stamped.letter);
        }
    }

    /// An item was taken: it is handled. Where it is a task the turn is one of the wait of a refused round, and else a leave that waits
    /// is tried.
    pub(crate) fn work(&mut self, from: Node, item: Item) -> Result<(), TurnFault>
        ensures { Works from item self.old result self.new }
    {
        self.worked = true;
        self.hear(&from, &item);
        let is_task = item.is_task();
        self.handle(from, item)?;
        if is_task {
            self.pass_turn()
        } else {
            self.leave_if_free()
        }
    }

    /// Whether it has a step to try, if it takes none.
    fn can_step(&self) -> bool
        ensures { result ≡ can_step self.now }
    {
        self.is_due() || self.is_free_to_leave()
    }

    /// A turn of the wait is over.
    fn miss(&mut self)
        ensures { self.new ≡ record self.old { wait = self.old.wait - 1 } }
    {
        self.courtesy.pass_turn();
    }

    /// A turn of the wait is over: a refused round is tried again, unless it gives way to rivals still, and then a leave that waits.
    fn pass_turn(&mut self) -> Result<(), TurnFault>
        ensures { Waits self.old result self.new }
    {
        let is_due = self.is_due();
        self.miss();
        if !is_due {
            return self.leave_if_free();
        }
        match self.attempt(None, LocalEvent::Retry) {
            Tried::Ended(fault) => Err(fault),
            Tried::Made => self.leave_if_free(),
            Tried::Refused(_) => Ok(()),
        }
    }

    /// None was taken.
    pub(crate) fn idle(&mut self) -> Result<(), TurnFault>
        ensures { Idles self.old result self.new }
    {
        self.worked = self.can_step();
        self.pass_turn()
    }
}
