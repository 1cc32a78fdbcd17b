//! What may happen at a node, what it says to other nodes, and what it answers.
ghost use Rattle.std.specs.Prelude.{◌≡◌, true, Some, IfOk, OnErr};

use crate::name_list::NameList;
use crate::notice_list::NoticeList;
use exchange::{Admission, Welcome};
use exit_watch::WatchFault;
use name_table::{Change, Pair, copied_pairs};
use std::alloc::{AllocError, Global};
use std::fmt;
use term::{LockId, Name, Node, Pid};
use thiserror::Error;
use transaction::{NameCall, Nodes, Retries};

/// What one node says to another, or to itself.
#[derive(Debug, PartialEq, Eq, Drop)]
pub enum Letter {
    /// Asks for one grant of a lock.
    SetLock(LockId, Pid),
    /// Answers that: whether it is granted.
    LockAnswer(LockId, Pid, bool),
    /// Takes one grant of a lock back, and asks for a `GivenBack` where the flag is set.
    GiveBack(LockId, Pid, bool),
    /// Answers that.
    GivenBack(Pid),
    /// Takes all grants of a process back, which is dead.
    ReleaseOf(Pid),
    /// Write this.
    Apply(Change),
    /// It was written, or the admission or welcome was carried out.
    Applied,
    /// A lone node asks to join, with its names.
    JoinAsk(Vec<Pair>),
    /// Answers that: the node that was asked isn't joined itself.
    JoinRefused,
    /// A node joins, and is to be admitted.
    Admit(Admission),
    /// The receiver has joined. What it says is large and rare, and lies in memory of its own, so that other letters are small.
    Welcome(Box<Welcome>),
    /// The sender has left.
    Down,
}

impl Letter {
    ghost use Rattle.node_events.specs.Letters.{letter_of, has_lists};

    /// The same letter. Only those of joins that carry lists take memory.
    pub fn copy(&self) -> Result<Self, AllocError>
        ensures copy { IfOk result (λ copy. letter_of copy ≡ letter_of self.now) }
        ensures refused { OnErr result (has_lists self.now ≡ true) }
    {
        Ok(match self {
            Letter::SetLock(id, holder) => Letter::SetLock(id.copy(), holder.copy()),
            Letter::LockAnswer(id, holder, granted) => {
                Letter::LockAnswer(id.copy(), holder.copy(), *granted)
            }
            Letter::GiveBack(id, holder, ack) => Letter::GiveBack(id.copy(), holder.copy(), *ack),
            Letter::GivenBack(holder) => Letter::GivenBack(holder.copy()),
            Letter::ReleaseOf(holder) => Letter::ReleaseOf(holder.copy()),
            Letter::Apply(change) => Letter::Apply(change.copy()),
            Letter::Applied => Letter::Applied,
            Letter::JoinAsk(pairs) => Letter::JoinAsk(copied_pairs(pairs)?),
            Letter::JoinRefused => Letter::JoinRefused,
            Letter::Admit(admission) => Letter::Admit(admission.copy()?),
            Letter::Welcome(welcome) => {
                let alloc: Global = *welcome.pairs.allocator();
                Letter::Welcome(Box::new(alloc, welcome.copy()?)?)
            }
            Letter::Down => Letter::Down,
        })
    }
}

/// A look-up at one node.
#[derive(Debug, PartialEq, Eq, Drop)]
pub enum Look {
    /// Who owns this name?
    Whereis(Name),
    /// Which names are there?
    RegisteredNames,
    /// What was this process sent?
    Notices(Pid),
}

/// What a client may call at a node.
#[derive(Debug, PartialEq, Eq, Drop)]
pub enum Call {
    /// A new process of the node, with the next serial: answered at once by `Pid`.
    Spawn,
    /// The owner of a name, by the node's own table: answered at once by `Pid` or `Undefined`.
    Whereis(Name),
    /// All names, by the node's own table: answered at once by `Names`.
    RegisteredNames,
    /// What a process of the node was sent, by the node's own list: answered at once by `Notices`. It must have been spawned, and may
    /// have died.
    Notices(Pid),
    /// The process is to own the name, under this rule. The call is numbered at its node, from 1 on, and answered by `Yes` when it was written
    /// at every member, or by `No` or `UnknownNode` when it was decided.
    Register(Pair),
    /// The process is to own the name, under this rule, whoever owns it now. Numbered as `Register` is, and answered by `Yes` or
    /// `UnknownNode`.
    ReRegister(Pair),
    /// Nobody is to own the name. Numbered as `Register` is, and answered by `Ok`, whether it was owned or not.
    Unregister(Name),
    /// The process asks for a lock, or for one grant more of it, of these nodes, and may be refused so often. Numbered as
    /// `Register` is, and answered by `True` when all of them have granted it, or by `False` when no retry is left.
    SetLock(Pid, LockId, Nodes, Retries),
    /// The process gives one grant of a lock back at these nodes. Numbered as `Register` is, and answered by `True` when
    /// all have said so, whether it had the lock or not.
    DelLock(Pid, LockId, Nodes),
    /// The node, which is lone, joins the cluster of this node. Numbered as `Register` is, and answered by `Joined`, or by
    /// `NotMember` or `ContactLeft` where that node isn't joined itself or has left.
    Join(Node),
}

/// What may happen at a node.
#[derive(Debug, PartialEq, Eq, Drop)]
pub enum Event {
    /// A client calls.
    Call(Call),
    /// A letter from a node is read.
    FromPeer(Node, Letter),
    /// The operation whose round was refused asks again, and so does each lock call whose round was.
    Retry,
    /// A process of the node dies: its locks are released at once, and its names are struck under the global lock.
    Exit(Pid),
    /// The node leaves: this is its last step.
    Leave,
}

/// What a call is answered.
#[derive(Debug, PartialEq, Eq, Drop)]
pub enum Reply {
    /// The name stands on all nodes.
    Yes,
    /// The name is in use, or the process has a name already.
    No,
    /// Nobody owns the name any more.
    Ok,
    /// The owner's node is no member.
    UnknownNode,
    /// The lock is granted, or given back.
    True,
    /// The lock is refused, and no retry is left.
    False,
    /// The node is joined.
    Joined,
    /// The contact isn't joined itself.
    NotMember,
    /// The contact has left.
    ContactLeft,
    /// A process: the one that was spawned, or the owner of a name.
    Pid(Pid),
    /// Nobody owns the name.
    Undefined,
    /// All names.
    Names(NameList),
    /// What a process was sent, in the order in which it came.
    Notices(NoticeList),
}

impl Reply {
    ghost use Rattle.std.specs.Prelude.{true, IfOk, OnErr};
    ghost use Rattle.node_events.specs.Seen.{reply_of, is_list};

    /// The same reply. Only a list takes memory.
    pub fn copy(&self) -> Result<Self, AllocError>
        ensures copy { IfOk result (λ copy. reply_of copy ≡ reply_of self.now) }
        ensures refused { OnErr result (is_list self.now ≡ true) }
    {
        Ok(match self {
            Reply::Yes => Reply::Yes,
            Reply::No => Reply::No,
            Reply::Ok => Reply::Ok,
            Reply::UnknownNode => Reply::UnknownNode,
            Reply::True => Reply::True,
            Reply::False => Reply::False,
            Reply::Joined => Reply::Joined,
            Reply::NotMember => Reply::NotMember,
            Reply::ContactLeft => Reply::ContactLeft,
            Reply::Pid(process) => Reply::Pid(process.copy()),
            Reply::Undefined => Reply::Undefined,
            Reply::Names(names) => Reply::Names(names.copy()?),
            Reply::Notices(notices) => Reply::Notices(notices.copy()?),
        })
    }
}

/// An answer to a call.
#[derive(Debug, PartialEq, Eq, Drop)]
pub struct Answer {
    /// The node that answers.
    pub node: Node,
    /// The number of the call at that node: from 1 on, and 0 for `Spawn` and look-ups.
    pub call: u32,
    /// The reply.
    pub reply: Reply,
}

/// An entry of the history, in the order in which operations took effect.
#[derive(Debug, PartialEq, Eq, Drop)]
pub enum Entry {
    /// A name call was decided: its node, its number there, the call and the reply.
    Name(Node, u32, NameCall, Reply),
    /// A dead process was granted the strike of its names.
    Strike(Pid),
    /// A process died.
    Exit(Pid),
    /// The operation of the node that was written is done.
    Done(Node),
    /// A look-up was answered.
    Read(Node, Look, Reply),
    /// A node left.
    Left(Node),
    /// A node was told that another has left: itself, and the other.
    Told(Node, Node),
    /// A node was let in: the joiner, and the node that it joined by. Neither this entry nor the next has the number of the
    /// joiner's call, which only the joiner knows.
    Joined(Node, Node),
    /// A node wasn't let in: it, and the node that it asked, which isn't joined itself.
    NotMember(Node, Node),
    /// The contact of a join has left: the node that was to join, the number of its call, and the contact.
    ContactLeft(Node, u32, Node),
}

/// Why a node doesn't take a step.
#[derive(Clone, Debug, PartialEq, Eq, Error, Drop)]
pub enum StepFault {
    /// The holder of a lock call is no live process of this node.
    NotLive(Pid),
    /// The process has a lock call that isn't answered.
    Busy(Pid),
    /// The resource `global` is the registry's own.
    Reserved,
    /// A named node is no member.
    UnknownNode,
    /// The node is joined, or has a join that isn't answered.
    AlreadyJoined,
    /// The process is another node's, or its serial wasn't given.
    NoSuchProcess,
    /// The process is dead already.
    AlreadyExited,
    /// The node has given its last serial, 4,294,967,295.
    SerialsSpent,
    /// No refused round waits.
    NothingToRetry,
    /// The node holds the global lock.
    HoldsLock,
    /// The node has given its last number of a call, 4,294,967,295.
    CallsSpent,
    /// Memory was refused. The node is as before, as the protocol sees it, and the step may be taken again.
    Memory,
}

impl StepFault {
    ghost use Rattle.node_events.specs.Words.{step_word};

    /// The word for it: lines tell of a refusal by it, and its own text is no other.
    pub fn word(&self) -> &'static str
        ensures { result.now ≡ step_word self.now }
    {
        match self {
            StepFault::NotLive(_) => "not_live",
            StepFault::Busy(_) => "busy",
            StepFault::Reserved => "reserved",
            StepFault::UnknownNode => "unknown_node",
            StepFault::AlreadyJoined => "already_joined",
            StepFault::NoSuchProcess => "no_such_process",
            StepFault::AlreadyExited => "already_exited",
            StepFault::SerialsSpent => "serials_spent",
            StepFault::NothingToRetry => "nothing_to_retry",
            StepFault::HoldsLock => "holds_lock",
            StepFault::CallsSpent => "calls_spent",
            StepFault::Memory => "memory",
        }
    }
}

impl fmt::Display for StepFault {
    ghost use Rattle.node_events.specs.Words.{step_word};

    ghost output = { λ f. Some (step_word f) };

    fn fmt<W: fmt::Write>(&self, f: &mut fmt::Formatter<W>) -> fmt::Result {
        f.write_str(self.word())
    }
}

impl From<AllocError> for StepFault {
    ghost use Rattle.node_events.specs.declared.events.StepFault.{StepFault};

    ghost from_gives = { λ _ fault. fault ≡ StepFault.Memory };

    fn from(_: AllocError) -> StepFault {
        StepFault::Memory
    }
}

impl From<WatchFault> for StepFault {
    ghost use Rattle.node_events.specs.Seen.{step_fault_of};

    ghost from_gives = { λ cause fault. fault ≡ step_fault_of cause };

    fn from(fault: WatchFault) -> StepFault {
        match fault {
            WatchFault::SerialsSpent => StepFault::SerialsSpent,
            WatchFault::NoSuchProcess => StepFault::NoSuchProcess,
            WatchFault::AlreadyExited => StepFault::AlreadyExited,
            WatchFault::Memory => StepFault::Memory,
        }
    }
}
