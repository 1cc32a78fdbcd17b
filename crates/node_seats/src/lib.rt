//! Seats: from where other threads call a node, and what the node's thread answers them by.
//!
//! Whoever starts the thread of a node opens it first: its seats are made by the caller that comes with that, and its thread gets
//! the host. Each seat asks the thread by a line into the node's inbox, and finds its replies in a slot of the node.
#![tactic(auto)]

mod address;
mod asking;
mod bell;
mod caller;
mod calls;
mod fault;
mod fences;
mod free_seat;
mod holder;
mod host;
mod hub;
mod inbox_line;
mod knowledge;
mod laid;
mod laws;
mod notes;
mod opened;
mod parcel;
mod place;
mod seat;
mod slots;
mod standing;
mod told;

pub use address::Address;
pub use caller::Caller;
pub use fault::SeatFault;
pub use free_seat::FreeSeat;
pub use holder::HolderSeat;
pub use host::{Host, Stop};
pub use hub::Hub;
pub use inbox_line::InboxLine;
pub use knowledge::Knowledge;
pub use laws::what_is_told_lasts;
pub use notes::{ForgottenNotes, KeptNotes, Notes};
pub use opened::{Opened, open_node};
pub use parcel::Parcel;
pub use place::Place;
pub use seat::Seat;
pub use shared_table::{
    Call, Effect, IdleReaders, KeptPublisher, LastTable, Moment, NameList, Nodes, Notice,
    NoticeList, Numbers, Past, Publisher, Reply, Retries, ScribeFault, StepFault, Token,
    Transcript,
};
pub use told::NodeStatus;
