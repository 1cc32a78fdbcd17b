//! The descriptions of a server's processes.
ghost use Rattle.std.specs.Prelude.{◌≡◌, ◌≤◌, [], false, filter, not, MatchResult, OnErr, OnOk, ◌==◌};
ghost use Rattle.std.specs.BTreeMap.{btree_map_len, get, insert_entry, is_at};
ghost use Rattle.std.specs.Map.{remove_entry};
ghost use Rattle.descriptions.specs.Tables.{RefusesMore, lacks_place, process_cmp};
ghost use Rattle.term.specs.declared.limits.TheConstants.{MOST_DESCRIPTIONS};

use crate::description::Description;
use std::alloc::Global;
use std::collections::BTreeMap;
use term::{MOST_DESCRIPTIONS, Node, Pid};

/// Why a process isn't described.
#[derive(Clone, Copy, Debug, PartialEq, Eq)]
pub enum DescriptionFault {
    /// As many others are as may be.
    TooMany,
    /// Memory was refused.
    Memory,
}

/// What was last said of each process of which anything was said, and that isn't known to be dead. There are 65,536 at most.
#[derive(Drop)]
pub struct Descriptions {
    texts: BTreeMap<Pid, Description>,
    ghost few: { btree_map_len texts ≤ MOST_DESCRIPTIONS },
}

impl Descriptions {
    /// Nothing was said of anybody. It takes no memory yet.
    pub fn new(alloc: Global) -> Self
        ensures { result.texts.entries ≡ [] }
    {
        Descriptions {
            texts: BTreeMap::new(alloc),
        }
    }

    /// Whether there is no place for a description of this process.
    fn is_full(&self, process: &Pid) -> bool
        ensures { result ≡ lacks_place process.now self.now.texts }
    {
        self.texts.len() >= MOST_DESCRIPTIONS && !self.texts.contains_key(process)
    }

    /// This is said of a process, in place of what was said before. `TooMany`: nothing was said of it, and as much of others as there is
    /// place for. `Memory`: there is none. Then nothing changes.
    pub fn set(&mut self, process: Pid, text: Description) -> Result<(), DescriptionFault>
        ensures said { OnOk result (self.new.texts.entries ≡ insert_entry process_cmp self.old.texts.entries process text) }
        ensures same { OnErr result (self.new.texts.entries ≡ self.old.texts.entries) }
        ensures place { MatchResult result (λ _. lacks_place process self.old.texts ≡ false)
            (λ fault. RefusesMore fault (lacks_place process self.old.texts)) }
    {
        if self.is_full(&process) {
            return Err(DescriptionFault::TooMany);
        }
        match self.texts.insert(process, text) {
            Ok(_) => Ok(()),
            Err(_) => Err(DescriptionFault::Memory),
        }
    }

    /// What was said of a process.
    pub fn get(&self, process: &Pid) -> Option<Description>
        ensures { result ≡ get process_cmp self.now.texts process.now }
    {
        match self.texts.get(process) {
            Some(text) => Some(text.copy()),
            None => None,
        }
    }

    /// A process is dead: nothing is said of it.
    pub fn drop_process(&mut self, process: &Pid)
        ensures { self.new.texts.entries ≡ remove_entry (is_at (process_cmp process.now)) self.old.texts.entries }
    {
        self.texts.remove(process);
    }

    /// A node has left: nothing is said of its processes.
    pub fn drop_node(&mut self, node: &Node)
        ensures { self.new.texts.entries ≡ filter (λ entry. not (entry.0.node == node.now)) self.old.texts.entries }
    {
        self.texts.retain(|process, _text| process.node != *node);
    }
}
