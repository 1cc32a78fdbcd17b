//! What makes entries small.
ghost use Rattle.std.specs.Prelude.{◌≡◌, ℕ, List, [], ◌∷◌, map, IfOk};
ghost use Rattle.registry_model.specs.History.{Entry as AnyEntry};
ghost use Rattle.transaction.specs.Ops.{name_call_of};
ghost use Rattle.node_events.specs.Seen.{reply_of, entry_by};
ghost use Rattle.world_history.specs.declared.entry.HistoryEntry.{HistoryEntry};
ghost use Rattle.world_history.specs.Histories.{made_by};
ghost use Rattle.world_history.specs.Kept.{reply_in, call_in, entry_in, replaced};

use crate::kept::{Decision, Kept, KeptCall, KeptEntry, KeptPair, KeptPid, KeptReply};
use crate::kept_name::KeptName;
use crate::kept_names::KeptNames;
use name_table::Pair;
use node_events::{Entry, Look, NameList, NoticeList, Reply};
use std::alloc::{AllocError, Global};
use std::rc::Rc;
use term::{Name, Node, NodeSet, Pid};
use transaction::NameCall;

/// Makes what is kept of entries. They share these nodes.
#[derive(Drop)]
pub(crate) struct Keeper {
    nodes: Vec<Rc<Node>>,
}

impl Keeper {
    /// What shares these nodes.
    pub(crate) fn new(alloc: Global, nodes: &NodeSet) -> Result<Self, AllocError>
        ensures { IfOk result (λ keeper. map (λ n. n.value) keeper.nodes.items ≡ nodes.now) }
    {
        let mut shared = Vec::new(alloc);
        for node in nodes.as_slice() {
            shared.push(Rc::new(alloc, node.copy())?)?;
        }
        Ok(Keeper { nodes: shared })
    }

    /// The memory that it takes.
    fn alloc(&self) -> Global {
        *self.nodes.allocator()
    }

    /// Keeps a node. Only one outside the world takes memory.
    pub(crate) fn node(&self, node: &Node) -> Result<Rc<Node>, AllocError>
        ensures { IfOk result (λ kept. kept.value ≡ node.now) }
    {
        for shared in &self.nodes {
            if shared.as_ref() == node {
                return shared.clone();
            }
        }
        Ok(Rc::new(self.alloc(), node.copy())?)
    }

    /// Shares this node from now on in place of an older one, where it has that.
    pub(crate) fn replace(&mut self, older: &Node, next: Rc<Node>)
        ensures { map (λ n. n.value) self.new.nodes.items
            ≡ replaced older.now next.value (map (λ n. n.value) self.old.nodes.items) }
    {
        for place in 0..self.nodes.len() {
            if self.nodes[place].as_ref() == older {
                self.nodes[place] = next;
                return;
            }
        }
    }

    /// Keeps a name.
    fn name(&self, name: &Name) -> Result<KeptName, AllocError>
        ensures { IfOk result (λ kept. kept ≡ name.now) }
    {
        KeptName::keep(self.alloc(), name)
    }

    /// Keeps a process.
    fn process(&self, process: &Pid) -> Result<KeptPid, AllocError>
        ensures { IfOk result (λ kept. kept ≡ process.now) }
    {
        Ok(KeptPid {
            node: self.node(&process.node)?,
            serial: process.serial,
        })
    }

    /// Keeps a pair.
    fn pair(&self, pair: &Pair) -> Result<KeptPair, AllocError>
        ensures { IfOk result (λ kept. kept ≡ pair.now) }
    {
        Ok(KeptPair {
            name: self.name(&pair.name)?,
            owner: self.process(&pair.owner)?,
            rule: pair.rule,
        })
    }

    /// Keeps a name call.
    fn call(&self, call: &NameCall) -> Result<KeptCall, AllocError>
        ensures { IfOk result (λ kept. call_in kept ≡ call.now) }
    {
        Ok(match call {
            NameCall::Register(pair) => KeptCall::Register(self.pair(pair)?),
            NameCall::ReRegister(pair) => KeptCall::ReRegister(self.pair(pair)?),
            NameCall::Unregister(name) => KeptCall::Unregister(self.name(name)?),
        })
    }

    /// Keeps a list of names.
    fn names(&self, names: &NameList) -> Result<Box<KeptNames>, AllocError>
        ensures { IfOk result (λ kept. kept.value.names.items ≡ names.now.names.items) }
    {
        Ok(Box::new(self.alloc(), KeptNames::keep(self.alloc(), names)?)?)
    }

    /// Keeps a list of notices.
    fn notices(&self, notices: &NoticeList) -> Result<Box<NoticeList>, AllocError>
        ensures { IfOk result (λ kept. kept.value.notices.items ≡ notices.now.notices.items) }
    {
        Ok(Box::new(self.alloc(), notices.copy()?)?)
    }

    /// Keeps a reply.
    fn reply(&self, reply: &Reply) -> Result<KeptReply, AllocError>
        ensures { IfOk result (λ kept. reply_of (reply_in kept) ≡ reply_of reply.now) }
    {
        Ok(match reply {
            Reply::Yes => KeptReply::Yes,
            Reply::No => KeptReply::No,
            Reply::Ok => KeptReply::Ok,
            Reply::UnknownNode => KeptReply::UnknownNode,
            Reply::True => KeptReply::True,
            Reply::False => KeptReply::False,
            Reply::Joined => KeptReply::Joined,
            Reply::NotMember => KeptReply::NotMember,
            Reply::ContactLeft => KeptReply::ContactLeft,
            Reply::Pid(process) => KeptReply::Pid(self.process(process)?),
            Reply::Undefined => KeptReply::Undefined,
            Reply::Names(names) => KeptReply::Names(self.names(names)?),
            Reply::Notices(notices) => KeptReply::Notices(self.notices(notices)?),
        })
    }

    /// Keeps a name call that was decided: its node, its number there, the call and the reply.
    fn decision(
        &self,
        node: &Node,
        number: u32,
        call: &NameCall,
        reply: &Reply,
    ) -> Result<Kept, AllocError>
        ensures { IfOk result (λ kept. (left : List ℕ) → made_by (entry_in kept) left
            ≡ AnyEntry.Name node.now number (name_call_of call.now) (reply_of reply.now) ∷ []) }
    {
        let decision = Decision {
            node: self.node(node)?,
            number,
            call: self.call(call)?,
            reply: self.reply(reply)?,
        };
        Ok(Kept::Name(Box::new(self.alloc(), decision)?))
    }

    /// Keeps a join that was decided: the joiner, the number of its call there, its contact and the reply.
    fn join(
        &self,
        joiner: &Node,
        number: u32,
        contact: &Node,
        reply: KeptReply,
    ) -> Result<Kept, AllocError>
        ensures { IfOk result (λ kept. entry_in kept ≡ HistoryEntry.Join joiner.now number contact.now (reply_in reply)) }
    {
        let (joiner, contact) = (self.node(joiner)?, self.node(contact)?);
        Ok(Kept::Join(joiner, number, contact, reply))
    }

    /// Keeps an entry of a node. Where that decided a join of another node, `number` is that of its call there.
    pub(crate) fn entry(&self, entry: &Entry, number: u32) -> Result<KeptEntry, AllocError>
        ensures { IfOk result (λ kept. (left : List ℕ) → made_by kept left ≡ entry_by (λ _. number) entry.now ∷ []) }
    {
        let kept = match entry {
            Entry::Name(node, number, call, reply) => self.decision(node, *number, call, reply)?,
            Entry::Strike(process) => Kept::Strike(self.process(process)?),
            Entry::Exit(process) => Kept::Exit(self.process(process)?),
            Entry::Done(node) => Kept::Done(self.node(node)?),
            Entry::Left(node) => Kept::Left(self.node(node)?),
            Entry::Told(node, gone) => Kept::Told(self.node(node)?, self.node(gone)?),
            Entry::Read(node, Look::Whereis(name), reply) => {
                Kept::Whereis(self.node(node)?, self.name(name)?, self.reply(reply)?)
            }
            Entry::Read(node, Look::RegisteredNames, reply) => {
                Kept::RegisteredNames(self.node(node)?, self.reply(reply)?)
            }
            Entry::Read(node, Look::Notices(process), reply) => {
                Kept::Notices(self.node(node)?, self.process(process)?, self.reply(reply)?)
            }
            Entry::Joined(joiner, contact) => {
                self.join(joiner, number, contact, KeptReply::Joined)?
            }
            Entry::NotMember(joiner, contact) => {
                self.join(joiner, number, contact, KeptReply::NotMember)?
            }
            Entry::ContactLeft(joiner, number, contact) => {
                self.join(joiner, *number, contact, KeptReply::ContactLeft)?
            }
        };
        Ok(KeptEntry::new(kept))
    }
}
