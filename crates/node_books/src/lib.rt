//! The book of a node: the moments of its loop, written down by its thread, and known to whoever was told of them.
//!
//! A `Scribe` writes down how a node's loop stands, moment after moment, and seals the book at the loop's end. A `Token` says that the node
//! came to some of these moments, wherever it goes; the sealed book, a `Past`, covers each token of it. All of this exists in proofs, but for
//! the number of the moments.
#![tactic(auto)]

mod fault;
mod laws;
mod moment;
mod node_past;
mod rule;
mod scribe;

pub use fault::ScribeFault;
pub use laws::{lengths_tell_what_is_shown, logs_only_grow, what_is_owed_is_more};
pub use moment::Moment;
pub use node_loop::{
    Answer, Call, Edit, Edition, Effect, Item, LocalEvent, NameList, NodeEnd, NodeLoop, Nodes,
    Notice, NoticeList, Numbers, Record, Reply, Retries, SeatEntry, StepFault, Task, TaskFault,
    TaskReply, Ticket, Transcript, Update, WorldEvent,
};
pub use node_past::Past;
pub use rule::Token;
pub use scribe::Scribe;
