//! Who answers what lines ask.
ghost use Rattle.std.specs.Prelude.{Bool, Result};
ghost use Rattle.command_lines.specs.declared.Reply.{Reply as AnyReply};
ghost use Rattle.node_seats.specs.declared.fault.SeatFault.{SeatFault as AnyFault};
ghost use Rattle.console.specs.declared.orders.Order.{Order as AnyOrder};
ghost use Rattle.console.specs.Describing.{Fact, Said, Says, Stand};

use crate::describing::DescribeFault;
use crate::orders::Order;
use crate::status::Status;
use command_lines::Reply;
use descriptions::Description;
use node_seats::SeatFault;
use term::{Node, Pid};

/// Who answers what lines ask: a seat, or whatever stands for one. It is given what it waits with, of the type `H`.
pub trait Attendant<H> {
    /// What contracts see of it.
    type State;

    ghost state: { Self → Self.State };

    /// An order, which is linked or isn't, may be answered so, and leave such a state.
    ghost answers: { Self.State → AnyOrder → Bool → Result AnyReply AnyFault → Self.State → Type 0 };

    /// So things may stand at the node and the server.
    ghost stands: { Self.State → Fact → Type 0 };

    /// The node that it speaks for.
    fn node(&self) -> &Node;

    /// Has an order carried out, and gives the reply, or why it is refused. Where the order is `linked` it is the call of a process that
    /// exits with the console, or keeps one from that: once the console's input has ended, it needn't be waited for.
    fn ask(&mut self, rt: &H, order: Order, linked: bool) -> Result<Reply, SeatFault>
        ensures { answers (Self.state self.old) order linked result (Self.state self.new) };

    /// How the node stands, and the server that it is of, and by which step a lock was granted last; or why nobody can tell. It is asked
    /// in consoles of servers that stay alone.
    fn status(&self, rt: &H) -> Result<Status, SeatFault>
        ensures { stands (Self.state self.now) (Stand result) };

    /// This is said of a process from now on, or why it isn't. It is asked in consoles of servers that stay alone, as all below.
    fn describe(&self, rt: &H, process: &Pid, text: &Description) -> Result<(), DescribeFault>
        ensures { stands (Self.state self.now) (Says process.now text.now result) };

    /// What was said of a process.
    fn description(&self, rt: &H, process: &Pid) -> Option<Description>
        ensures { stands (Self.state self.now) (Said process.now result) };
}
