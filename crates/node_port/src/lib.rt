//! One node as a program over the standard streams: lines come in, its steps are made, and lines go out.
#![tactic(auto)]

mod commands;
mod numbers;
mod output;
mod port;
mod printing;
mod running;

pub use running::run_node;
pub use text_lines::StreamFault as PortFault;
