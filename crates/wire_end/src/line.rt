//! Lines of links.
use letter_lines::Part;

/// A line of the link between two nodes, as it is read.
#[derive(Debug, PartialEq, Eq, Drop)]
pub struct LinkLine {
    /// Its number on that link, from 1 on.
    pub number: u64,
    /// The stamp of the step that sent it.
    pub stamp: u64,
    /// What it says.
    pub part: Part,
}
