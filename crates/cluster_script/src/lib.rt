//! Scripts: lines that are played on a world one after the other, and what is printed for them.
#![tactic(auto)]

mod header;
mod laws;
mod looking;
mod reading;
mod refusing;
mod script;

pub use laws::one_end;
pub use script::run_script;
pub use text_lines::StreamFault as ScriptFault;
