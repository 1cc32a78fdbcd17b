//! The texts of letters, both ways: the parts of a letter, the line of each, and letters that are gathered of parts.
#![tactic(auto)]

mod faults;
mod gathering;
mod grammar;
mod laws;
mod part;
mod parts;
mod printing;
mod processes;

pub use exchange::Noted;
pub use faults::LetterFault;
pub use gathering::Gathering;
pub use grammar::read_part;
pub use laws::{letters_are_read_again, parts_are_exact};
pub use node_events::Letter;
pub use part::Part;
pub use parts::parts_of;
pub use printing::print_part;
pub use processes::{parse_process, print_process};
