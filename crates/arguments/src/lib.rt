//! What the words ask the program for.
#![tactic(auto)]

mod command_line;
mod faults;
mod mode;
mod nodes;
mod reading;

pub use faults::{ArgFault, OptionFault};
pub use mode::{Mode, NodeOptions, ServeOptions};
pub use reading::read_args;
