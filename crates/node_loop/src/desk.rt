//! Who waits at a node, and the replies.
ghost use Rattle.std.specs.Prelude.{◌≡◌, [], ◌∷◌, ◌++◌, Ok, Err, map, flat_map, OnOk, OnErr, IfOk, MatchOption};
ghost use Rattle.node_log.specs.NodeEventsSeen.{answer_of, reply_of};
ghost use Rattle.node_loop.specs.Told.{tell, told_by};
ghost use Rattle.node_loop.specs.Desks.{empty_desk, Begins, answered, all_answered, awaiting, drop_told, swept, settled, leave_refused, call_refused, leaves_told, left_by, first_leave};

use crate::item::Ticket;
use crate::replies::{Effect, Replies, TaskFault, TaskReply};
use crate::tries::{TRIES, room_in_list};
use crate::waiting::{Caller, Course, forget, forget_dropped, is_dropped, ticket_under, wait_for};
use name_table::Names;
use node_core::NodeCore;
use node_log::{Answer, Reply, StepFault};
use std::alloc::{AllocError, Global};
use std::marker::Model;

/// The calls that wait at a node for their answers, the leaves that wait for it to be free, and the replies.
#[derive(Drop)]
pub(crate) struct Desk {
    calls: Vec<Caller>,
    leaves: Vec<Option<Ticket>>,
    replies: Replies,
}

impl Model for Desk {
    ghost use Rattle.node_loop.specs.Desks.{Kept};

    ghost Value = { Kept };

    ghost view = { λ d. record { calls = d.calls.items; leaves = d.leaves.items; replies = d.replies } };
}

/// The same reply, if there is memory, which only a list of names or notices takes.
fn copied_reply(reply: &Reply) -> Result<Reply, AllocError>
    ensures { IfOk result (λ copy. reply_of copy ≡ reply_of reply.now) }
{
    for _ in 0..TRIES {
        if let Ok(copy) = reply.copy() {
            return Ok(copy);
        }
    }
    Err(AllocError)
}

/// The same answer. Only a list of names or notices takes memory.
fn copied(answer: &Answer) -> Result<Answer, AllocError>
    ensures { IfOk result (λ copy. answer_of copy ≡ answer_of answer.now) }
{
    let reply = copied_reply(&answer.reply)?;
    Ok(Answer {
        node: answer.node.copy(),
        call: answer.call,
        reply,
    })
}

/// The owner of each lock call that the node has dropped is told that its process is dead.
fn tell_dead<N: Names<Memory = Global>>(
    replies: &mut Replies,
    calls: &[Caller],
    core: &NodeCore<N>,
) -> Result<(), AllocError>
    ensures ok { OnOk result (replies.new ≡ replies.old ++ flat_map (drop_told core.now) calls.now) }
    ensures begun { OnErr result (Begins replies.new (replies.old ++ flat_map (drop_told core.now) calls.now)) }
{
    for call in calls {
        if let Some(holder) = &call.holder
            && is_dropped(core, call)
        {
            let fault = TaskFault::Step(StepFault::NotLive(holder.copy()));
            replies.tell(Some(call.ticket), Err(fault))?;
        }
    }
    Ok(())
}

/// Those whose leaves wait are told that the node has left.
fn refuse_leaves(replies: &mut Replies, leaves: &[Option<Ticket>]) -> Result<(), AllocError>
    ensures ok { OnOk result (replies.new ≡ replies.old ++ flat_map leave_refused leaves.now) }
    ensures begun { OnErr result (Begins replies.new (replies.old ++ flat_map leave_refused leaves.now)) }
{
    for leave in leaves {
        replies.tell(*leave, Err(TaskFault::NodeLeft))?;
    }
    Ok(())
}

/// The first leave is accepted, and no other.
fn tell_leaves(replies: &mut Replies, leaves: &[Option<Ticket>]) -> Result<(), AllocError>
    ensures ok { OnOk result (replies.new ≡ replies.old ++ leaves_told leaves.now) }
    ensures begun { OnErr result (Begins replies.new (replies.old ++ leaves_told leaves.now)) }
{
    let Some((first, others)) = leaves.split_first() else {
        return Ok(());
    };
    replies.tell(*first, Ok(Effect::Left))?;
    refuse_leaves(replies, others)
}

/// Those whose calls wait are told that the node has left.
fn tell_callers(replies: &mut Replies, calls: &[Caller]) -> Result<(), AllocError>
    ensures ok { OnOk result (replies.new ≡ replies.old ++ flat_map call_refused calls.now) }
    ensures begun { OnErr result (Begins replies.new (replies.old ++ flat_map call_refused calls.now)) }
{
    for call in calls {
        replies.tell(Some(call.ticket), Err(TaskFault::NodeLeft))?;
    }
    Ok(())
}

impl Desk {
    /// Nobody waits. It takes no memory.
    pub(crate) fn new(alloc: Global) -> Self
        ensures { result ≡ empty_desk }
    {
        Desk {
            calls: Vec::new(alloc),
            leaves: Vec::new(alloc),
            replies: Replies::new(alloc),
        }
    }

    /// The oldest reply, which is taken off.
    pub(crate) fn next_reply(&mut self) -> Option<TaskReply>
        ensures rest { self.new ≡ record self.old { replies = self.new.replies } }
        ensures oldest { MatchOption result ((self.old.replies ≡ []) × (self.new.replies ≡ [])) (λ reply. self.old.replies ≡ told_by reply ∷ self.new.replies) }
    {
        self.replies.next()
    }

    /// A task is refused.
    pub(crate) fn refuse(
        &mut self,
        ticket: Option<Ticket>,
        fault: TaskFault,
    ) -> Result<(), AllocError>
        ensures ok { OnOk result (self.new ≡ record self.old { replies = self.old.replies ++ tell ticket (Err fault) }) }
        ensures unchanged { OnErr result (self.new ≡ self.old) }
    {
        self.replies.tell(ticket, Err(fault))
    }

    /// A leave waits, behind the others.
    pub(crate) fn wait_to_leave(&mut self, ticket: Option<Ticket>) -> Result<(), AllocError>
        ensures ok { OnOk result (self.new ≡ record self.old { leaves = self.old.leaves ++ ticket ∷ [] }) }
        ensures unchanged { OnErr result (self.new ≡ self.old) }
    {
        room_in_list(&mut self.leaves)?;
        self.leaves.push_reserved(ticket);
        Ok(())
    }

    /// The first leave that waits: whose it is.
    pub(crate) fn first_leave(&self) -> Option<Option<Ticket>>
        ensures { result ≡ first_leave self.now.leaves }
    {
        self.leaves.as_slice().first().copied()
    }

    /// An event that has no answer is accepted, and a numbered call waits for its own.
    fn await_answer(
        &mut self,
        own: Option<Ticket>,
        course: Course,
        number: u32,
    ) -> Result<(), AllocError>
        ensures ok { OnOk result (self.new ≡ awaiting course number own self.old) }
        ensures unchanged { OnErr result (self.new.replies ≡ self.old.replies) }
    {
        match course {
            Course::Accepted => self.replies.tell(own, Ok(Effect::Made)),
            other => wait_for(&mut self.calls, other, number, own),
        }
    }

    /// An answer, of the step of this stamp, goes to whom it is for.
    fn answer(&mut self, stamp: u64, own: Option<Ticket>, answer: &Answer) -> Result<(), AllocError>
        ensures ok { OnOk result (self.new ≡ answered stamp own (answer_of answer.now) self.old) }
        ensures unchanged { OnErr result (self.new.replies ≡ self.old.replies) }
    {
        let ticket = match answer.call {
            0 => own,
            number => ticket_under(self.calls.as_slice(), number),
        };
        let copy = copied(answer)?;
        forget(&mut self.calls, answer.call);
        self.replies.tell(ticket, Ok(Effect::Answered(stamp, copy)))
    }

    /// Each answer does.
    fn answer_all(
        &mut self,
        stamp: u64,
        own: Option<Ticket>,
        answers: &[Answer],
    ) -> Result<(), AllocError>
        ensures ok { OnOk result (self.new ≡ all_answered stamp own (map answer_of answers.now) self.old) }
        ensures begun { OnErr result (Begins self.new.replies (all_answered stamp own (map answer_of answers.now) self.old).replies) }
    {
        for answer in answers {
            self.answer(stamp, own, answer)?;
        }
        Ok(())
    }

    /// Who made a lock call that was dropped is told that the process is dead.
    fn sweep<N: Names<Memory = Global>>(&mut self, core: &NodeCore<N>) -> Result<(), AllocError>
        ensures ok { OnOk result (self.new ≡ swept core.now self.old) }
        ensures begun { OnErr result (Begins self.new.replies (swept core.now self.old).replies) }
    {
        tell_dead(&mut self.replies, self.calls.as_slice(), core)?;
        forget_dropped(&mut self.calls, core);
        Ok(())
    }

    /// A step of the core with this stamp was made for this ticket, or for nobody: its answers are told. A numbered call waits for its
    /// own, if that isn't among them.
    pub(crate) fn settle<N: Names<Memory = Global>>(
        &mut self,
        stamp: u64,
        own: Option<Ticket>,
        course: Course,
        core: &NodeCore<N>,
        answers: &[Answer],
    ) -> Result<(), AllocError>
        ensures ok { OnOk result (self.new ≡ settled stamp course own core.now answers.now self.old) }
        ensures begun { OnErr result (Begins self.new.replies (settled stamp course own core.now answers.now self.old).replies) }
    {
        self.await_answer(own, course, core.last_call())?;
        self.answer_all(stamp, own, answers)?;
        self.sweep(core)
    }

    /// The node has left: the first leave is accepted, and all else that waits is refused.
    pub(crate) fn leave(&mut self) -> Result<(), AllocError>
        ensures ok { OnOk result (self.new ≡ left_by self.old) }
        ensures begun { OnErr result (Begins self.new.replies (left_by self.old).replies) }
    {
        tell_leaves(&mut self.replies, self.leaves.as_slice())?;
        tell_callers(&mut self.replies, self.calls.as_slice())?;
        self.leaves.clear();
        self.calls.clear();
        Ok(())
    }
}
