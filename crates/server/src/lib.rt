//! Clusters of threads that are served to consoles over TCP, or over a socket of the file system.
#![tactic(auto)]

mod attending;
mod covering;
mod ending;
mod faults;
mod listener;
mod served;
mod serving;
mod staying;
mod taking;

pub use console::Cookie;
pub use faults::{ServeFault, StayFault};
pub use listener::Listener;
pub use node_threads::{
    Call, Cluster, NodeStatus, Numbers, OpenGate, Reply, Seat, SeatFault, StartFault, StepFault,
    Transcript,
};
pub use serving::run_serve;
pub use staying::{Lookout, Spent, StayOptions, run_stay};
