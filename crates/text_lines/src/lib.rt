//! The lines of a reader, their words, and texts that are written: bytes, whatever they say.
#![tactic(auto)]

mod faults;
mod lines;
mod words;
mod writing;

pub use faults::{StreamFault, WriteFault};
pub use lines::{Line, is_blank, read_line};
pub use words::{first_words, words_of};
pub use writing::{hand_on, tell, write_line, write_text};
