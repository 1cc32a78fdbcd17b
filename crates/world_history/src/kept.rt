//! What a world keeps of its history: entries in little memory.
ghost use Rattle.std.specs.Prelude.{◌≡◌, ℕ, true, List, IfOk, OnErr};
ghost use Rattle.node_events.specs.Seen.{reply_of, is_list};
ghost use Rattle.world_history.specs.Histories.{made_by, has_list};
ghost use Rattle.world_history.specs.Kept.{reply_in, call_in, entry_in};

use crate::entered::Entered;
use crate::entry::HistoryEntry;
use crate::kept_name::KeptName;
use crate::kept_names::KeptNames;
use name_table::Pair;
use node_events::{Look, NoticeList, Reply};
use std::alloc::AllocError;
use std::marker::Model;
use std::mem::size_of;
use std::rc::Rc;
use term::{Node, Pid, Rule};
use transaction::NameCall;

/// A process, whose node is shared with other entries.
#[derive(Drop)]
pub(crate) struct KeptPid {
    pub(crate) node: Rc<Node>,
    pub(crate) serial: u32,
}

impl Model for KeptPid {
    ghost use Rattle.registry_model.specs.Process.{Process};

    ghost Value = { Process };

    ghost view = { λ p. record { node = p.node.value; serial = p.serial } };
}

impl KeptPid {
    /// The process.
    fn process(&self) -> Pid
        ensures { result ≡ self.now }
    {
        Pid {
            node: self.node.copy(),
            serial: self.serial,
        }
    }
}

/// A name, its owner and its rule.
#[derive(Drop)]
pub(crate) struct KeptPair {
    pub(crate) name: KeptName,
    pub(crate) owner: KeptPid,
    pub(crate) rule: Rule,
}

impl Model for KeptPair {
    ghost use Rattle.registry_model.specs.Table.{Pair as Owned};
    ghost use Rattle.term.specs.Rules.{rule_of};

    ghost Value = { Owned };

    ghost view = { λ p. record { name = p.name; owner = p.owner; rule = rule_of p.rule } };
}

impl KeptPair {
    /// The pair.
    fn pair(&self) -> Pair
        ensures { result ≡ self.now }
    {
        Pair {
            name: self.name.name(),
            owner: self.owner.process(),
            rule: self.rule,
        }
    }
}

/// A name call.
#[derive(Drop)]
pub(crate) enum KeptCall {
    Register(KeptPair),
    ReRegister(KeptPair),
    Unregister(KeptName),
}

impl KeptCall {
    /// The call.
    fn call(&self) -> NameCall
        ensures { result ≡ call_in self.now }
    {
        match self {
            KeptCall::Register(pair) => NameCall::Register(pair.pair()),
            KeptCall::ReRegister(pair) => NameCall::ReRegister(pair.pair()),
            KeptCall::Unregister(name) => NameCall::Unregister(name.name()),
        }
    }
}

/// A reply. Notices are rare: so a list of them is kept as it came.
#[derive(Drop)]
pub(crate) enum KeptReply {
    Yes,
    No,
    Ok,
    UnknownNode,
    True,
    False,
    Joined,
    NotMember,
    ContactLeft,
    Pid(KeptPid),
    Undefined,
    Names(Box<KeptNames>),
    Notices(Box<NoticeList>),
}

impl KeptReply {
    /// The reply. Only a list takes memory.
    fn reply(&self) -> Result<Reply, AllocError>
        ensures reply { IfOk result (λ reply. reply_of reply ≡ reply_of (reply_in self.now)) }
        ensures refused { OnErr result (is_list (reply_in self.now) ≡ true) }
    {
        Ok(match self {
            KeptReply::Yes => Reply::Yes,
            KeptReply::No => Reply::No,
            KeptReply::Ok => Reply::Ok,
            KeptReply::UnknownNode => Reply::UnknownNode,
            KeptReply::True => Reply::True,
            KeptReply::False => Reply::False,
            KeptReply::Joined => Reply::Joined,
            KeptReply::NotMember => Reply::NotMember,
            KeptReply::ContactLeft => Reply::ContactLeft,
            KeptReply::Pid(process) => Reply::Pid(process.process()),
            KeptReply::Undefined => Reply::Undefined,
            KeptReply::Names(names) => Reply::Names(names.names()?),
            KeptReply::Notices(notices) => Reply::Notices(notices.copy()?),
        })
    }
}

/// A name call that was decided: its node, its number there, the call and the reply.
#[derive(Drop)]
pub(crate) struct Decision {
    pub(crate) node: Rc<Node>,
    pub(crate) number: u32,
    pub(crate) call: KeptCall,
    pub(crate) reply: KeptReply,
}

/// What is kept of an entry. Each of its kinds is that of a `HistoryEntry`, but look-ups for one name, for all names and for
/// notices are three.
/// A decided name call lies in memory of its own, since it is larger than the others, and so does an entry that is kept whole,
/// since there was no memory to make it small.
#[derive(Drop)]
pub(crate) enum Kept {
    Name(Box<Decision>),
    Strike(KeptPid),
    Join(Rc<Node>, u32, Rc<Node>, KeptReply),
    Done(Rc<Node>),
    Exit(KeptPid),
    Left(Rc<Node>),
    Told(Rc<Node>, Rc<Node>),
    Whereis(Rc<Node>, KeptName, KeptReply),
    RegisteredNames(Rc<Node>, KeptReply),
    Notices(Rc<Node>, KeptPid, KeptReply),
    Restart(Rc<Node>),
    Whole(Box<Entered>),
}

/// An entry as a world keeps it: 72 bytes, and memory of its own for a decided name call, a list of names or notices, a name of more
/// than 16 bytes and the name of a node outside the world. One that came where memory was refused is kept as its node made it.
/// Contracts see the entry that is kept.
#[derive(Drop)]
pub struct KeptEntry {
    kept: Kept,
}

impl Model for KeptEntry {
    ghost use Rattle.world_history.specs.declared.entry.HistoryEntry.{HistoryEntry};
    ghost use Rattle.world_history.specs.Kept.{entry_in};

    ghost Value = { HistoryEntry };

    ghost view = { λ e. entry_in e.kept };
}

// Look-ups come in any number, and change nothing else in a world: so an entry is small.
const _: () = prove!(size_of::<KeptEntry>() == 72);

impl KeptEntry {
    /// Keeps what is kept of an entry.
    pub(crate) fn new(kept: Kept) -> Self
        ensures { result ≡ entry_in kept }
    {
        KeptEntry { kept }
    }

    /// The entry, made again. Only a list takes memory.
    pub fn entry(&self) -> Result<HistoryEntry, AllocError>
        ensures entry { IfOk result (λ entry. (left : List ℕ) → made_by entry left ≡ made_by self.now left) }
        ensures refused { OnErr result (has_list self.now ≡ true) }
    {
        Ok(match &self.kept {
            Kept::Name(decision) => HistoryEntry::Name(
                decision.node.copy(),
                decision.number,
                decision.call.call(),
                decision.reply.reply()?,
            ),
            Kept::Strike(process) => HistoryEntry::Strike(process.process()),
            Kept::Join(joiner, number, contact, reply) => {
                HistoryEntry::Join(joiner.copy(), *number, contact.copy(), reply.reply()?)
            }
            Kept::Done(node) => HistoryEntry::Done(node.copy()),
            Kept::Exit(process) => HistoryEntry::Exit(process.process()),
            Kept::Left(node) => HistoryEntry::Left(node.copy()),
            Kept::Told(node, gone) => HistoryEntry::Told(node.copy(), gone.copy()),
            Kept::Whereis(node, name, reply) => {
                HistoryEntry::Read(node.copy(), Look::Whereis(name.name()), reply.reply()?)
            }
            Kept::RegisteredNames(node, reply) => {
                HistoryEntry::Read(node.copy(), Look::RegisteredNames, reply.reply()?)
            }
            Kept::Notices(node, process, reply) => {
                let look = Look::Notices(process.process());
                HistoryEntry::Read(node.copy(), look, reply.reply()?)
            }
            Kept::Restart(node) => HistoryEntry::Restart(node.copy()),
            Kept::Whole(entered) => entered.entry()?,
        })
    }
}
