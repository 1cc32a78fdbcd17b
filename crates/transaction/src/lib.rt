//! The operations of one node: a queue of them, and the one that is current, with the nodes that it still awaits. And work
//! under a client's lock: the seat of a lock's holder, and `trans`, which works between one grant and one deletion.
#![tactic(auto)]

mod nodes;
mod op;
mod queue;
mod registrar;
mod reply;
mod seat;
mod seat_laws;
mod transact;

pub use nodes::{NamedNodes, Nodes, Retries};
pub use op::{NameCall, Op};
pub use registrar::Registrar;
pub use reply::LockReply;
pub use seat::LockSeat;
pub use seat_laws::{a_deletion_undoes_one_grant, deletions_are_counted, grants_are_counted};
pub use transact::{Outcome, TransFault, trans};
