//! What a seat notes of what it asked and was answered.
ghost use Rattle.std.specs.Prelude.{◌≡◌, Bool, List, [], ◌∷◌, ◌++◌, true, OnOk};
ghost use Rattle.shared_table.specs.declared.SeatEntry.{SeatEntry as AnyEntry};

use past::Trace as History;
use shared_table::SeatEntry;
use std::alloc::{AllocError, Global};

/// What a seat notes of what it asked and was answered: all of it, or nothing. Contracts see all entries, whether they are kept or not.
pub trait Notes: Sized + Drop {
    /// The entries, the oldest first.
    ghost noted: { Self → List AnyEntry };

    /// Whether there is room for one more.
    ghost has_room: { Self → Bool };

    /// Without an entry. It takes no memory.
    fn new(alloc: Global) -> Self
        ensures { noted result ≡ [] };

    /// Makes room for an entry more. Where it can't nothing changes.
    fn reserve(&mut self) -> Result<(), AllocError>
        ensures same { noted self.new ≡ noted self.old }
        ensures room { OnOk result (has_room self.new ≡ true) };

    /// Puts an entry at the end. It takes no memory.
    fn put(&mut self, entry: SeatEntry)
        requires { has_room self.old ≡ true }
        ensures { noted self.new ≡ noted self.old ++ entry ∷ [] };
}

/// All that a seat asked and was answered: its transcript.
#[derive(Drop)]
pub struct KeptNotes {
    pub(crate) entries: Vec<SeatEntry>,
}

impl Notes for KeptNotes {
    ghost use Rattle.std.specs.Prelude.{nat_lt};
    ghost use Rattle.std.specs.Vec.{vec_len, vec_capacity};

    ghost noted = { λ n. n.entries.items };

    ghost has_room = { λ n. nat_lt (vec_len n.entries) (vec_capacity n.entries) };

    fn new(alloc: Global) -> Self {
        KeptNotes {
            entries: Vec::new(alloc),
        }
    }

    fn reserve(&mut self) -> Result<(), AllocError> {
        self.entries.reserve(1)?;
        Ok(())
    }

    fn put(&mut self, entry: SeatEntry) {
        self.entries.push_reserved(entry);
    }
}

/// Nothing of it: so a seat takes no more memory the longer it is asked.
#[derive(Drop)]
pub struct ForgottenNotes {
    past: History<SeatEntry, ()>,
}

impl Notes for ForgottenNotes {
    ghost use Rattle.std.specs.Prelude.{map, true};

    ghost noted = { λ n. map (λ p. p.0) n.past.items };

    ghost has_room = { λ n. true };

    fn new(_alloc: Global) -> Self {
        ForgottenNotes {
            past: History::new(),
        }
    }

    fn reserve(&mut self) -> Result<(), AllocError> {
        Ok(())
    }

    #[tactic(auto, using(crate::proofs::Noting::noted_more))]
    fn put(&mut self, entry: SeatEntry) {
        self.past = self.past.and(&entry, &());
    }
}
