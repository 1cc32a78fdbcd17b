//! Calls whose answers come in a later step.
ghost use Rattle.std.specs.Prelude.{◌≡◌, ◌++◌, not, filter, OnOk, OnErr};
ghost use Rattle.node_loop.specs.Waiting.{course_of, callers_of, ticket_under, is_dropped, without};

use crate::item::Ticket;
use crate::tries::room_in_list;
use name_table::Names;
use node_core::NodeCore;
use node_log::{Call, LocalEvent};
use std::alloc::{AllocError, Global};
use term::Pid;

/// How the answer to an event comes.
#[derive(Debug, Drop)]
pub(crate) enum Course {
    /// In its own step, under number 0. A leave has none, and is accepted by the loop.
    AtOnce,
    /// There is none: it's accepted.
    Accepted,
    /// Under the number of the call, of a name or of a join.
    Numbered,
    /// So too; it is a lock call of this process.
    OfHolder(Pid),
}

/// A call that isn't answered.
#[derive(Debug, Drop)]
pub(crate) struct Caller {
    /// Its number at the node.
    pub(crate) number: u32,
    /// The process, where it is a lock call.
    pub(crate) holder: Option<Pid>,
    /// Who is to be told.
    pub(crate) ticket: Ticket,
}

impl Course {
    /// How the answer to this event comes.
    pub(crate) fn of(event: &LocalEvent) -> Self
        ensures { result ≡ course_of event.now }
    {
        let call = match event {
            LocalEvent::Call(call) => call,
            LocalEvent::Leave => return Course::AtOnce,
            LocalEvent::Retry | LocalEvent::Exit(_) => return Course::Accepted,
        };
        match call {
            Call::Spawn | Call::Whereis(_) | Call::RegisteredNames | Call::Notices(_) => {
                Course::AtOnce
            }
            Call::SetLock(holder, ..) | Call::DelLock(holder, ..) => {
                Course::OfHolder(holder.copy())
            }
            Call::Register(..) | Call::ReRegister(..) | Call::Unregister(..) | Call::Join(..) => {
                Course::Numbered
            }
        }
    }
}

/// A numbered call of a ticket waits behind the others.
pub(crate) fn wait_for(
    calls: &mut Vec<Caller>,
    course: Course,
    number: u32,
    ticket: Option<Ticket>,
) -> Result<(), AllocError>
    ensures ok { OnOk result (calls.new.items ≡ calls.old.items ++ callers_of course number ticket) }
    ensures unchanged { OnErr result (calls.new.items ≡ calls.old.items) }
{
    let Some(ticket) = ticket else {
        return Ok(());
    };
    let holder = match course {
        Course::AtOnce | Course::Accepted => return Ok(()),
        Course::Numbered => None,
        Course::OfHolder(holder) => Some(holder),
    };
    room_in_list(calls)?;
    calls.push_reserved(Caller {
        number,
        holder,
        ticket,
    });
    Ok(())
}

/// Who waits under this number.
pub(crate) fn ticket_under(calls: &[Caller], number: u32) -> Option<Ticket>
    ensures { result ≡ ticket_under number calls.now }
{
    for call in calls {
        if call.number == number {
            return Some(call.ticket);
        }
    }
    None
}

/// Nobody waits under this number any more.
pub(crate) fn forget(calls: &mut Vec<Caller>, number: u32)
    ensures { calls.new.items ≡ without number calls.old.items }
{
    calls.retain(|call| call.number != number);
}

/// Whether it is a lock call that its node has dropped.
pub(crate) fn is_dropped<N: Names<Memory = Global>>(core: &NodeCore<N>, call: &Caller) -> bool
    ensures { result ≡ is_dropped core.now call.now }
{
    match &call.holder {
        Some(holder) => !core.has_lock_call(holder),
        None => false,
    }
}

/// Lock calls that the node has dropped wait no more.
pub(crate) fn forget_dropped<N: Names<Memory = Global>>(calls: &mut Vec<Caller>, core: &NodeCore<N>)
    ensures { calls.new.items ≡ filter (λ c. not (is_dropped core.now c)) calls.old.items }
{
    calls.retain(|call| !is_dropped(core, call));
}
