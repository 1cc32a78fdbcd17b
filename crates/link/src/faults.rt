//! Why a letter isn't sent or taken.
use thiserror::Error;

/// Why a link is refused, in the order in which the causes are looked for.
#[derive(Clone, Copy, Debug, PartialEq, Eq, Error)]
pub enum LinkFault {
    /// An end of the link is no node of the mesh.
    #[error("no_such_node")]
    NoSuchNode,
    /// Nothing is on the link.
    #[error("empty_link")]
    EmptyLink,
    /// The inbox has no room, or its thread has ended. Inboxes between threads alone answer it: a mesh has always room.
    #[error("full")]
    Full,
    /// Memory was refused.
    #[error("memory")]
    Memory,
}

/// A letter that wasn't sent.
#[derive(Debug, Drop)]
pub struct Unsent<L> {
    /// Why it wasn't.
    pub fault: LinkFault,
    /// The letter, as it was given.
    pub letter: L,
}
