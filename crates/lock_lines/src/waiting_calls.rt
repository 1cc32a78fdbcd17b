//! The lines of all resources, in one list.
ghost use Rattle.std.specs.Prelude.{◌≡◌, ◌+◌, ◌==◌, ◌++◌, ◌∷◌, not, [], map, filter, IfOk, OnOk, OnErr};
ghost use Rattle.std.specs.List.{list_any};
ghost use Rattle.lock_lines.specs.Lines.{goes_before as before, has_turn, holder_passes, let_pass_with, may_go};

use crate::bell::Bell;
use crate::request::Request;
use std::alloc::{AllocError, Global};
use std::sync::Arc;
use term::{NodeSet, Pid, Resource};

/// A lock call that stands in the line of its resource.
#[derive(Drop)]
pub(crate) struct LineCall {
    /// The numbers of calls rise in the order in which they came.
    pub(crate) number: u64,
    pub(crate) request: Request,
    /// Whether it goes whoever came before it.
    pub(crate) passes: bool,
    /// Wakes who waits for its turn, or for the lock.
    pub(crate) bell: Arc<Bell, Global>,
}

/// The lock calls that wait at a server, over all its nodes: those that may go and aren't answered yet, and those whose turn hasn't come.
/// Each resource has a line of its own: who stands before whom is a matter of calls for one resource at a common node.
#[derive(Drop)]
pub struct WaitingCalls {
    next: u64,
    calls: Vec<LineCall>,
}

impl LineCall {
    /// Whether it came before another that it keeps waiting.
    fn goes_before(&self, other: &LineCall) -> bool
        ensures { result ≡ before self.now other.now }
    {
        self.number < other.number && self.request.is_rival_of(&other.request)
    }

    /// It passes all others where it is for more of what is asked for.
    fn let_pass(&mut self, request: &Request)
        ensures { self.new ≡ let_pass_with request.now self.old }
    {
        if self.request.is_for_more_of(request) {
            self.passes = true;
        }
    }

    /// It passes all others where it is this process's.
    fn let_holder_pass(&mut self, holder: &Pid)
        ensures { self.new ≡ holder_passes holder.now self.old }
    {
        if self.request.holder == *holder {
            self.passes = true;
        }
    }
}

impl WaitingCalls {
    /// Nobody waits. It takes no memory yet.
    pub fn new(alloc: Global) -> Self
        ensures { result.calls.items ≡ [] }
    {
        WaitingCalls {
            next: 0,
            calls: Vec::new(alloc),
        }
    }

    /// A call comes, behind all that wait, and gets its number. `AllocError`: there is no memory, or no number is left after 2^64 - 1
    /// calls, and nothing changes.
    pub fn enter(
        &mut self,
        request: Request,
        passes: bool,
        bell: Arc<Bell, Global>,
    ) -> Result<u64, AllocError>
        ensures number { IfOk result (λ number. number ≡ self.old.next) }
        ensures next { OnOk result (self.new.next ≡ self.old.next + 1) }
        ensures entered { OnOk result (self.new.calls.items ≡ self.old.calls.items
            ++ record { number = self.old.next; request = request; passes = passes; bell = bell } ∷ []) }
        ensures refused { OnErr result ((self.new.next ≡ self.old.next) × (self.new.calls.items ≡ self.old.calls.items)) }
    {
        let number = self.next;
        let Some(next) = number.checked_add(1) else {
            return Err(AllocError);
        };
        self.calls.push(LineCall {
            number,
            request,
            passes,
            bell,
        })?;
        self.next = next;
        Ok(number)
    }

    /// Whether a call that came before keeps this one waiting.
    fn keeps_waiting(&self, call: &LineCall) -> bool
        ensures { result ≡ list_any (λ other. before other call.now) self.now.calls.items }
    {
        self.calls.iter().any(|other| other.goes_before(call))
    }

    /// Whether a call may go: it passes all others, or none that came before it keeps it waiting.
    fn has_turn(&self, call: &LineCall) -> bool
        ensures { result ≡ has_turn self.now.calls.items call.now }
    {
        call.passes || !self.keeps_waiting(call)
    }

    /// Whether the call with this number may be put to its node. So may one that has left the line.
    pub fn may_go(&self, number: u64) -> bool
        ensures { result ≡ may_go self.now.calls.items number }
    {
        match self.calls.iter().find(|call| call.number == number) {
            Some(call) => self.has_turn(call),
            None => true,
        }
    }

    /// The call with this number leaves the line: it was answered, or nobody waits for it any more.
    pub fn leave(&mut self, number: u64)
        ensures next { self.new.next ≡ self.old.next }
        ensures calls { self.new.calls.items ≡ filter (λ call. not (call.number == number)) self.old.calls.items }
    {
        self.calls.retain(|call| call.number != number);
    }

    /// The calls for more of what is asked for pass all others from now on: its requester has it or is the next to have it, and
    /// mustn't wait for itself.
    pub fn let_pass(&mut self, request: &Request)
        ensures next { self.new.next ≡ self.old.next }
        ensures calls { self.new.calls.items ≡ map (let_pass_with request.now) self.old.calls.items }
    {
        for call in self.calls.iter_mut() {
            call.let_pass(request);
        }
    }

    /// The calls of a process pass all others from now on: it is dead, and they will be refused.
    pub fn let_holder_pass(&mut self, holder: &Pid)
        ensures next { self.new.next ≡ self.old.next }
        ensures calls { self.new.calls.items ≡ map (holder_passes holder.now) self.old.calls.items }
    {
        for call in self.calls.iter_mut() {
            call.let_holder_pass(holder);
        }
    }

    /// Tells who may go that a resource was given back at these nodes, where they ask for it at one of them.
    pub fn tell_free(&self, resource: &Resource, nodes: &NodeSet) {
        for call in &self.calls {
            if call.request.asks_for(resource, nodes) {
                call.bell.tell_free();
            }
        }
    }

    /// Has the calls of a process be tried again, as it is dead.
    pub fn tell_holder(&self, holder: &Pid) {
        for call in &self.calls {
            if call.request.holder == *holder {
                call.bell.tell_free();
            }
        }
    }

    /// Tells all who may go that any lock may be free.
    pub fn tell_all(&self) {
        for call in &self.calls {
            call.bell.tell_free();
        }
    }

    /// Wakes all whose turn has come.
    pub fn ring(&self) {
        for call in &self.calls {
            if self.has_turn(call) {
                call.bell.ring();
            }
        }
    }
}
