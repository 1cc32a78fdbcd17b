//! Nodes as threads: a cluster that owns them, and seats from which other threads call them.
//!
//! Three nodes: a process of the first gets a name, and the last finds it. What the seats were told is handed to `close`, which
//! replays the run.
//!
//! ```rust
//! type Three = Cluster<OpenGate, IndexTable<Global>>;
//!
//! fn play<R: Wait + Clock>(rt: &R, three: &mut Three, nodes: &[NodeName; 3], name: &Name) -> Result<[Transcript; 2], SeatFault> {
//!     let mut first = three.seat(&nodes[0])?;
//!     let mut last = three.seat(&nodes[2])?;
//!     if let Reply::Pid(process) = first.call(rt, Call::Spawn)? {
//!         let pair = Pair { name: name.copy(), owner: process, rule: Rule::Exit };
//!         first.call(rt, Call::Register(pair))?;
//!     }
//!     last.whereis(name)?;
//!     Ok([first.into_transcript(), last.into_transcript()])
//! }
//!
//! let mut three = Three::start(&rt, rt.alloc(), &nodes, &[], OpenGate, 500, 0)?;
//! let closed = match play(&rt, &mut three, &nodes, &name) {
//!     Ok(transcripts) => three.close(&rt, &transcripts),
//!     Err(_) => three.close(&rt, &[]),
//! };
//! ```
#![tactic(auto)]

mod berth;
mod berths;
mod cluster;
mod crew;
mod ending;
mod fairness;
mod intake;
mod ruled_end;
mod running;
mod seating;
mod shared;

pub use cluster::Cluster;
pub use ending::{EndFault, EndedCluster};
pub use fairness::nobody_starves;
pub use node_loop::{ForgottenLog, Gate, Log, OpenGate, Record, StartFault};
pub use node_seats::{
    Call, ForgottenNotes, FreeSeat, HolderSeat, InboxLine, KeptNotes, NameList, NodeStatus, Nodes,
    Notes, Notice, NoticeList, Numbers, Parcel, Past, Reply, Retries, Seat, SeatFault, StepFault,
    Token, Transcript, what_is_told_lasts,
};
pub use replay::{CloseFault, Closed, HistoryEntry, KeptEntry};
pub use ruled_end::{RuledEnd, Traffic};
