//! How a node leaves.
ghost use Rattle.node_loop.specs.Items.{Leaves};

use crate::edit::{Edit, Note};
use crate::fault::TurnFault;
use crate::node_loop::NodeLoop;
use crate::stepping::Tried;
use name_table::Names;
use node_log::{LocalEvent, Record};
use std::alloc::Global;

impl<N: Names<Memory = Global>, L: Record> NodeLoop<N, L> {
    /// The first leave that waits is accepted, where one does and the node doesn't hold the global lock. All others who wait
    /// are told that the node has left.
    pub(crate) fn leave_if_free(&mut self) -> Result<(), TurnFault>
        ensures { Leaves self.old result self.new }
    {
        if !self.is_free_to_leave() {
            return Ok(());
        }
        let ticket = self.desk.first_leave().flatten();
        match self.attempt(ticket, LocalEvent::Leave) {
            Tried::Made => {
                self.left = true;
                self.owed.add(Note::One(Edit::Leave), self.log.count());
                self.desk.leave()?;
                Ok(())
            }
            Tried::Refused(_) => Ok(()),
            Tried::Ended(fault) => Err(fault),
        }
    }
}
