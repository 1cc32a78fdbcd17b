//! Consoles: each line that is read asks something of a node, and is answered at once.
#![tactic(auto)]

mod answering;
mod attendant;
mod chosen;
mod client;
mod commands;
mod cookie;
mod counting;
mod describing;
mod ends;
mod faults;
mod fence;
mod greeting;
mod help;
mod inquiries;
mod lending;
mod links;
mod locking;
mod orders;
mod outcomes;
mod serving;
mod status;
mod staying;
mod trying;

pub use answering::answer_lines;
pub use attendant::Attendant;
pub use client::{Client, Peer};
pub use cookie::Cookie;
pub use describing::DescribeFault;
pub use ends::ConsoleEnd;
pub use faults::GreetFault;
pub use greeting::{answer_first, greet, read_first, refuse_seat};
pub use orders::{Awaited, Order};
pub use serving::{serve, serve_from};
pub use status::{House, Load, Status};
pub use staying::serve_staying;
pub use text_lines::StreamFault as ConsoleFault;
