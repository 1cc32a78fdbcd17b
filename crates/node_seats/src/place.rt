//! Which seat of a cluster one is.
ghost use Rattle.std.specs.Prelude.{◌≡◌, ◌<◌};
ghost use Rattle.node_seats.specs.Callers.{own_place};

use term::{MOST_NODES, MOST_SEATS, SEAT_NUMBERS};

/// A seat among those of its cluster: by a number, which no other has, and by the slot of its replies, which others have before it and
/// behind it.
#[derive(Clone, Copy, Debug, PartialEq, Eq)]
pub struct Place {
    /// The number of the seat. Seats are numbered from 0 on as they are made.
    pub seat: u32,
    /// The number of the slot: below `MOST_SEATS` that of a seat, and from there on one for each of the cluster's own callers.
    pub slot: u32,
}

impl Place {
    /// That of a cluster's own caller at the node with this index, which is never given back.
    pub(crate) fn own(index: u32) -> Self
        requires { index < MOST_NODES }
        ensures { result ≡ own_place index }
    {
        Place {
            seat: SEAT_NUMBERS + index,
            slot: MOST_SEATS + index,
        }
    }
}
