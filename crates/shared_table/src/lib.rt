//! A node's table beside its node: one thread publishes it, edition after edition, and others look names up in it without a lock.
//!
//! A `Publisher` notes what each step of the node does to its table, and publishes what it noted all at once. A `TableReader` reads the
//! edition that was published last; it never waits, neither for the publisher nor for other readers.
#![tactic(auto)]

mod chute;
mod idle;
mod kept;
mod publisher;
mod reader;
mod rule;
mod shown;

pub use chute::{Booked, Chute};
pub use idle::{Idle, IdleReaders};
pub use kept::KeptPublisher;
pub use node_books::{
    Answer, Call, Edit, Edition, Effect, Item, LocalEvent, Moment, NameList, NodeEnd, NodeLoop,
    Nodes, Notice, NoticeList, Numbers, Past, Record, Reply, Retries, ScribeFault, SeatEntry,
    StepFault, Task, TaskFault, TaskReply, Ticket, Token, Transcript, Update, WorldEvent,
};
pub use publisher::{LastTable, Publisher};
pub use reader::{Lookup, TableReader};
pub use shown::{Front, Shown, Stamp};
