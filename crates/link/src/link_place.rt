//! Which link of a mesh.
ghost use Rattle.std.specs.Prelude.{◌≡◌, ◌<◌, ◌+◌, ◌*◌};

use term::MOST_NODES;

/// A link of a mesh, by the places of its ends among the nodes.
#[derive(Clone, Copy, Debug, PartialEq, Eq)]
pub struct LinkPlace {
    /// The place of the node that sends over it.
    pub sender: usize,
    /// The place of the node that reads from it.
    pub receiver: usize,
}

impl LinkPlace {
    /// Its place among all links.
    pub(crate) fn index(self) -> usize
        requires sender { self.sender < MOST_NODES }
        requires receiver { self.receiver < MOST_NODES }
        ensures { result ≡ self.sender * MOST_NODES + self.receiver }
    {
        self.sender * MOST_NODES + self.receiver
    }
}
