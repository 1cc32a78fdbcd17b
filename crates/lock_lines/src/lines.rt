//! The lines of a server, which all its consoles share.
use crate::bell::Bell;
use crate::grants::{Grant, Grants};
use crate::request::Request;
use crate::waiting_calls::WaitingCalls;
use std::alloc::{AllocError, Global};
use std::sync::{Arc, Mutex, Wait};
use term::{Node, NodeSet, Pid};

/// How long who waits for a turn sleeps at most, in milliseconds. A bell ends a sleep; this is how often it is looked whether anybody
/// waits for the call still.
const LONGEST_SLEEP: u64 = 100;

/// What lies under the lock of the lines.
#[derive(Drop)]
struct State {
    line: WaitingCalls,
    grants: Grants,
}

/// The lines in which lock calls wait at a server, one for each resource, over all its nodes.
///
/// A call that waits for as long as it has to enters, is put to its node once its turn has come, and leaves when it is answered or given
/// up: its turn has come when no call that came before it, under another requester, waits for the resource at a node of its own. Whoever
/// puts a call to its node says so before and behind that: so a call passes all others whose requester has the lock already, or is the
/// next to have it, at a node of its own.
#[derive(Drop)]
pub struct LockLines {
    alloc: Global,
    state: Mutex<State>,
}

/// The place of a call in its line.
#[derive(Drop)]
pub struct LinePlace {
    number: u64,
    bell: Arc<Bell, Global>,
}

impl LinePlace {
    /// Sleeps until the turn may have come, and for a tenth of a second at most.
    pub fn rest<R: Wait>(&self, rt: &R) {
        self.bell.sleep(rt, LONGEST_SLEEP);
    }

    /// Sleeps until the lock may be free, and for so many milliseconds at most.
    pub fn rest_for<R: Wait>(&self, rt: &R, millis: u64) {
        self.bell.sleep(rt, millis);
    }

    /// Whether the lock may have become free since this was asked last, as the house has seen it.
    pub fn was_freed(&self) -> bool {
        self.bell.was_freed()
    }
}

/// The grant that is asked for at a node.
fn grant_at(request: &Request, node: &Node) -> Grant {
    Grant {
        holder: request.holder.copy(),
        resource: request.id.resource.copy(),
        requester: request.id.requester.copy(),
        node: node.copy(),
    }
}

/// What is asked for counts at each of these nodes, or at none where there is no memory for that.
fn note_all(grants: &mut Grants, request: &Request, nodes: &[Node]) -> Result<(), AllocError> {
    for (place, node) in nodes.iter().enumerate() {
        if let Err(refused) = grants.note(grant_at(request, node)) {
            take_all(grants, request, &nodes[..place]);
            return Err(refused);
        }
    }
    Ok(())
}

/// What was asked for counts once less at each of these nodes.
fn take_all(grants: &mut Grants, request: &Request, nodes: &[Node]) {
    for node in nodes {
        grants.take(&grant_at(request, node));
    }
}

/// Tells who waits for what a process has, as it is dead.
fn tell_freed_by(grants: &Grants, line: &WaitingCalls, process: &Pid) {
    for grant in grants.times.keys() {
        if grant.holder == *process {
            line.tell_free(&grant.resource, &NodeSet::one(grant.node.copy()));
        }
    }
}

impl LockLines {
    /// Nobody waits, and nobody has a lock. It takes no memory yet.
    pub fn new(alloc: Global) -> Self {
        LockLines {
            alloc,
            state: Mutex::new(State {
                line: WaitingCalls::new(alloc),
                grants: Grants::new(alloc),
            }),
        }
    }

    /// A call enters, behind all that wait.
    pub fn enter<R: Wait>(&self, rt: &R, request: &Request) -> Result<LinePlace, AllocError> {
        let bell = Arc::new(self.alloc, Bell::new())?;
        let waiter = Arc::try_clone(&bell)?;
        let mut state = self.state.lock(rt);
        let passes = state.grants.holds(&request.id, &request.nodes);
        let number = state.line.enter(request.copy(), passes, bell)?;
        Ok(LinePlace {
            number,
            bell: waiter,
        })
    }

    /// Whether the turn of a call has come. From then on it is told where its lock may be free.
    pub fn has_come<R: Wait>(&self, rt: &R, turn: &LinePlace) -> bool {
        let has_come = self.state.lock(rt).line.may_go(turn.number);
        if has_come {
            turn.bell.call();
        }
        has_come
    }

    /// A call leaves, and whose turn has come by that is woken.
    pub fn leave<R: Wait>(&self, rt: &R, turn: LinePlace) {
        let mut state = self.state.lock(rt);
        state.line.leave(turn.number);
        state.line.ring();
    }

    /// A call is to be put to its node: what it asks for counts as granted from now on.
    pub fn ask<R: Wait>(&self, rt: &R, request: &Request) -> Result<(), AllocError> {
        let mut state = self.state.lock(rt);
        note_all(&mut state.grants, request, request.nodes.as_slice())
    }

    /// Whoever waits for more of this lock passes all others from now on, and is woken: its requester has it, or is the next to have it.
    pub fn let_pass<R: Wait>(&self, rt: &R, request: &Request) {
        let mut state = self.state.lock(rt);
        state.line.let_pass(request);
        state.line.ring();
    }

    /// A lock was refused.
    pub fn take_back<R: Wait>(&self, rt: &R, request: &Request) {
        let mut state = self.state.lock(rt);
        take_all(&mut state.grants, request, request.nodes.as_slice());
    }

    /// A lock was given back: who may have it next is woken.
    pub fn give_back<R: Wait>(&self, rt: &R, request: &Request) {
        let mut state = self.state.lock(rt);
        take_all(&mut state.grants, request, request.nodes.as_slice());
        state.line.tell_free(&request.id.resource, &request.nodes);
    }

    /// A process is dead: it has no locks, which are free now, and its calls needn't wait to be refused.
    pub fn bury<R: Wait>(&self, rt: &R, process: &Pid) {
        let mut state = self.state.lock(rt);
        tell_freed_by(&state.grants, &state.line, process);
        state.grants.drop_holder(process);
        state.line.let_holder_pass(process);
        state.line.tell_holder(process);
        state.line.ring();
    }

    /// A node has left: nobody has a lock there, and its processes have none.
    pub fn forget<R: Wait>(&self, rt: &R, node: &Node) {
        let mut state = self.state.lock(rt);
        state.grants.drop_node(node);
        state.line.tell_all();
    }

    /// Processes may have died of which nobody was told, as those that a join has exit: whoever waits for a lock is to try it again.
    pub fn look_again<R: Wait>(&self, rt: &R) {
        self.state.lock(rt).line.tell_all();
    }
}
