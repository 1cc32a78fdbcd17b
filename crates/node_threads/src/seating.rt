//! Which seats a cluster has.
ghost use Rattle.std.specs.Prelude.{◌≡◌, true, false, not, MatchOption};
ghost use Rattle.std.specs.List.{position};
ghost use Rattle.node_threads.specs.Seating.{no_seats, next_place, are_spent, with_seat, without_slot};

use node_seats::Place;
use term::{MOST_SEATS, SEAT_NUMBERS};

/// Which slots have a seat, and how many seats were made, of which the next one has the number.
#[derive(Drop)]
pub(crate) struct Seating {
    taken: [bool; MOST_SEATS as usize],
    made: u32,
}

impl Seating {
    /// No seat was made yet.
    pub(crate) fn new() -> Self
        ensures { result ≡ no_seats }
    {
        Seating {
            taken: [false; MOST_SEATS as usize],
            made: 0,
        }
    }

    /// The first free slot.
    fn free_slot(&self) -> Option<usize>
        ensures { result ≡ position not self.now.taken }
    {
        self.taken.iter().position(|taken| !*taken)
    }

    /// The place of the next seat: the first free slot, and the next number. There is none where no slot is free, or no number is left.
    pub(crate) fn next(&self) -> Option<Place>
        ensures { MatchOption result (are_spent self.now ≡ true) (λ place. (are_spent self.now ≡ false) × (place ≡ next_place self.now)) }
    {
        let Some(slot) = self.free_slot() else {
            return None;
        };
        if self.made >= SEAT_NUMBERS {
            return None;
        }
        Some(Place {
            seat: self.made,
            slot: slot as u32,
        })
    }

    /// The next seat is made.
    pub(crate) fn take(&mut self, place: Place)
        requires free { are_spent self.old ≡ false }
        requires next { place ≡ next_place self.old }
        ensures { self.new ≡ with_seat self.old }
    {
        self.taken[place.slot as usize] = true;
        self.made += 1;
    }

    /// A slot is free again. The number of its seat isn't used again.
    pub(crate) fn free(&mut self, slot: u32)
        ensures { self.new ≡ without_slot slot self.old }
    {
        let index = slot as usize;
        if index < self.taken.len() {
            self.taken[index] = false;
        }
    }
}
