//! Entries as their nodes made them.
ghost use Rattle.std.specs.Prelude.{◌≡◌, ℕ, true, List, IfOk, OnErr};
ghost use Rattle.node_events.specs.Seen.{is_list};
ghost use Rattle.world_history.specs.Histories.{made_by, has_list};
ghost use Rattle.world_history.specs.Kept.{entered_in};

use crate::entry::HistoryEntry;
use node_events::{Entry, Look, Reply};
use std::alloc::AllocError;
use term::Node;

/// An entry as its node made it. Where that decided a join of another node, `number` is that of its call there.
#[derive(Drop)]
pub(crate) struct Entered {
    pub(crate) entry: Entry,
    pub(crate) number: u32,
}

/// A look-up of the node, and what it was answered. Only a list takes memory.
fn read(node: &Node, look: &Look, reply: &Reply) -> Result<HistoryEntry, AllocError>
    ensures entry { IfOk result (λ entry. (left : List ℕ)
        → made_by entry left ≡ made_by (HistoryEntry.Read node.now look.now reply.now) left) }
    ensures refused { OnErr result (is_list reply.now ≡ true) }
{
    let look = match look {
        Look::Whereis(name) => Look::Whereis(name.copy()),
        Look::RegisteredNames => Look::RegisteredNames,
        Look::Notices(process) => Look::Notices(process.copy()),
    };
    Ok(HistoryEntry::Read(node.copy(), look, reply.copy()?))
}

impl Entered {
    /// The entry as a history says it. Only a list takes memory.
    pub(crate) fn entry(&self) -> Result<HistoryEntry, AllocError>
        ensures entry { IfOk result (λ entry. (left : List ℕ) → made_by entry left ≡ made_by (entered_in self.now) left) }
        ensures refused { OnErr result (has_list (entered_in self.now) ≡ true) }
    {
        Ok(match &self.entry {
            Entry::Name(node, number, call, reply) => {
                HistoryEntry::Name(node.copy(), *number, call.copy(), reply.copy()?)
            }
            Entry::Strike(process) => HistoryEntry::Strike(process.copy()),
            Entry::Exit(process) => HistoryEntry::Exit(process.copy()),
            Entry::Done(node) => HistoryEntry::Done(node.copy()),
            Entry::Left(node) => HistoryEntry::Left(node.copy()),
            Entry::Told(node, gone) => HistoryEntry::Told(node.copy(), gone.copy()),
            Entry::Read(node, look, reply) => read(node, look, reply)?,
            Entry::Joined(joiner, contact) => self.join(joiner, contact, Reply::Joined),
            Entry::NotMember(joiner, contact) => self.join(joiner, contact, Reply::NotMember),
            Entry::ContactLeft(joiner, number, contact) => HistoryEntry::Join(
                joiner.copy(),
                *number,
                contact.copy(),
                Reply::ContactLeft,
            ),
        })
    }

    /// A join under the number that it has here: the joiner, its contact and the reply. It takes no memory.
    fn join(&self, joiner: &Node, contact: &Node, reply: Reply) -> HistoryEntry
        ensures { result ≡ HistoryEntry.Join joiner.now self.now.number contact.now reply }
    {
        HistoryEntry::Join(joiner.copy(), self.number, contact.copy(), reply)
    }
}
