//! Notices by the serials of the processes that were sent them.
ghost use Rattle.std.specs.Prelude.{◌≡◌, [], ◌∷◌, ◌++◌, ℕ, IfOk, OnOk};
ghost use Rattle.registry_model.specs.Registry.{process_of};
ghost use Rattle.registry_model.specs.Settlement.{notices_to};
ghost use Rattle.exchange.specs.Lists.{list_under, with_notice};

use crate::notices::{Noted, Notice, copied_notices};
use indexmap::IndexMap;
use std::alloc::{AllocError, Global};
use std::hash::{BuildHasherDefault, FoldHasher};
use std::marker::Model;
use term::Node;

/// What one process was sent, in the order in which it came.
#[derive(Drop)]
struct Sent {
    notices: Vec<Notice>,
}

impl Model for Sent {
    ghost use Rattle.std.specs.Prelude.{List};
    ghost use Rattle.registry_model.specs.Settlement.{Notice as Told};

    ghost Value = { List Told };

    ghost view = { λ s. s.notices.items };
}

impl Sent {
    /// A first notice.
    fn one(alloc: Global, notice: &Notice) -> Result<Self, AllocError>
        ensures { IfOk result (λ sent. sent ≡ notice.now ∷ []) }
    {
        let mut notices = Vec::new(alloc);
        notices.push(notice.copy())?;
        Ok(Sent { notices })
    }

    /// One notice more.
    fn push(&mut self, notice: &Notice) -> Result<(), AllocError>
        ensures { OnOk result (self.new ≡ self.old ++ notice.now ∷ []) }
    {
        self.notices.push(notice.copy())?;
        Ok(())
    }

    /// The notices, in memory of their own.
    fn list(&self) -> Result<Vec<Notice>, AllocError>
        ensures { IfOk result (λ list. list.items ≡ self.now) }
    {
        copied_notices(&self.notices)
    }
}

impl Clone for Sent {
    ghost is_clone = { λ s t. t ≡ s };

    fn clone(&self) -> Result<Self, AllocError> {
        Ok(Sent {
            notices: copied_notices(&self.notices)?,
        })
    }
}

/// What each process was sent that was sent anything, by its serial.
type Lists = IndexMap<u32, Sent, BuildHasherDefault<FoldHasher>>;

/// The notices that processes of one node were sent, in the order in which they came: a process may have died, or may not be spawned
/// yet. Contracts see the lists with their serials, in any order. What a look at one list costs doesn't grow with the others.
#[derive(Drop)]
pub struct NoticeLists {
    lists: Lists,
}

impl Model for NoticeLists {
    ghost use Rattle.std.specs.Prelude.{ℕ, List};
    ghost use Rattle.registry_model.specs.Settlement.{Notice as Told};

    ghost Value = { List (ℕ × List Told) };

    ghost view = { λ n. n.lists.entries };
}

impl NoticeLists {
    /// Nobody was sent anything. It takes no memory.
    pub fn new(alloc: Global) -> Self
        ensures { result ≡ [] }
    {
        NoticeLists {
            lists: IndexMap::new(alloc),
        }
    }

    /// What the process of this serial was sent.
    pub fn of(&self, serial: u32) -> Result<Vec<Notice>, AllocError>
        ensures { IfOk result (λ list. list.items ≡ list_under serial self.now) }
    {
        match self.lists.get(&serial) {
            Some(sent) => sent.list(),
            None => Ok(Vec::new(*self.lists.allocator())),
        }
    }

    /// Of these notices, those to processes of this node come behind what they were sent. Where memory is refused, some of them have.
    pub fn add(&mut self, node: &Node, notices: &[Noted]) -> Result<(), AllocError>
        ensures { OnOk result ((serial : ℕ) → list_under serial self.new
            ≡ list_under serial self.old ++ notices_to (process_of node.now serial) notices.now) }
    {
        for noted in notices {
            if noted.process.node == *node {
                self.push(noted.process.serial, &noted.notice)?;
            }
        }
        Ok(())
    }

    /// The notice comes behind what the process of this serial was sent.
    fn push(&mut self, serial: u32, notice: &Notice) -> Result<(), AllocError>
        ensures { OnOk result ((each : ℕ) → list_under each self.new
            ≡ with_notice serial notice.now each (list_under each self.old)) }
    {
        if let Some(sent) = self.lists.get_mut(&serial) {
            return sent.push(notice);
        }
        let sent = Sent::one(*self.lists.allocator(), notice)?;
        self.lists.insert(serial, sent)?;
        Ok(())
    }

    /// The same notices, in memory of their own.
    pub fn copy(&self) -> Result<Self, AllocError>
        ensures { IfOk result (λ copy. copy ≡ self.now) }
    {
        let lists = self.lists.clone()?;
        Ok(NoticeLists { lists })
    }
}
