//! The descriptions of a server's processes, which all its consoles share.
use crate::description::Description;
use crate::descriptions::{DescriptionFault, Descriptions};
use std::alloc::Global;
use std::sync::{Mutex, Wait};
use term::{Node, Pid};

/// What is said of the processes of a server, over all its nodes.
///
/// Other threads may change it between two calls, so no clause here tells what was said and found: each call is one of `Descriptions`, which
/// has the clauses, under the lock. What is so of each table whenever the lock is taken its type says: there are 65,536 descriptions at most.
#[derive(Drop)]
pub struct SharedDescriptions {
    table: Mutex<Descriptions>,
}

impl SharedDescriptions {
    /// Nothing was said of anybody. It takes no memory yet.
    pub fn new(alloc: Global) -> Self {
        SharedDescriptions {
            table: Mutex::new(Descriptions::new(alloc)),
        }
    }

    /// This is said of a process, as `Descriptions::set` has it.
    pub fn set<R: Wait>(
        &self,
        rt: &R,
        process: Pid,
        text: Description,
    ) -> Result<(), DescriptionFault> {
        self.table.lock(rt).set(process, text)
    }

    /// What was said of a process.
    pub fn get<R: Wait>(&self, rt: &R, process: &Pid) -> Option<Description> {
        self.table.lock(rt).get(process)
    }

    /// A process is dead: nothing is said of it.
    pub fn bury<R: Wait>(&self, rt: &R, process: &Pid) {
        self.table.lock(rt).drop_process(process);
    }

    /// A node has left: nothing is said of its processes.
    pub fn forget<R: Wait>(&self, rt: &R, node: &Node) {
        self.table.lock(rt).drop_node(node);
    }
}
