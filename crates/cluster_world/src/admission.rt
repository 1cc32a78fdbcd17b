//! Events that are admitted, with what was found of each, so that nothing of it is looked up again.
ghost use Rattle.std.specs.Prelude.{◌≡◌};
ghost use Rattle.cluster_world.specs.Admissions.{place_by};

use link::LinkPlace;
use term::Node;
use world_events::LocalEvent;

/// The delivery of the oldest letter on a link.
#[derive(Drop)]
pub(crate) struct Delivery {
    /// The link, by the places of its names among the nodes at present.
    pub(crate) link: LinkPlace,
    /// The node that has sent the letter.
    pub(crate) sender: Node,
    /// The node at present that reads it.
    pub(crate) receiver: Node,
}

/// The restart of a name.
#[derive(Drop)]
pub(crate) struct Comeback {
    /// The place of the name.
    pub(crate) place: usize,
    /// The node there, which has left.
    pub(crate) older: Node,
    /// The node that starts there.
    pub(crate) next: Node,
}

/// An event that the world accepts.
#[derive(Drop)]
pub(crate) enum Admission<'a> {
    /// An event of the node at this place.
    Own(usize, &'a Node, &'a LocalEvent),
    /// A delivery.
    Deliver(Delivery),
    /// A restart.
    Restart(Comeback),
}

impl<'a> Admission<'a> {
    /// The place of the node that it is played at.
    pub(crate) fn place(&self) -> usize
        ensures { result ≡ place_by self.now }
    {
        match self {
            Admission::Own(place, _, _) => *place,
            Admission::Deliver(delivery) => delivery.link.receiver,
            Admission::Restart(comeback) => comeback.place,
        }
    }
}
