//! The ring of rivals.
use term::MOST_NODES;

/// So often a rival may be passed over until it is thought to ask no more.
const MOST_PASSES: u8 = 8;

/// The nodes of a world as a ring, each at its place in the rising order, and which of them are known to ask for the global lock.
#[derive(Drop)]
pub(crate) struct Ring {
    /// How many nodes there are.
    len: usize,
    /// The place of the node itself.
    own: usize,
    /// How often each may yet be passed over.
    passes: [u8; MOST_NODES],
    /// Who held the lock last.
    last: usize,
}

impl Ring {
    /// A ring of so many nodes, seen from the one at this place. No rival is known.
    pub(crate) fn new(len: usize, own: usize) -> Self {
        Ring {
            len,
            own,
            passes: [0; MOST_NODES],
            last: own,
        }
    }

    /// How many nodes there are.
    pub(crate) fn len(&self) -> usize {
        self.len
    }

    /// The place of the node itself.
    pub(crate) fn own(&self) -> usize {
        self.own
    }

    /// The place behind this one.
    fn behind(&self, place: usize) -> usize {
        let next = place.saturating_add(1);
        if next < self.len { next } else { 0 }
    }

    /// Whether the node at this place is known to ask for the lock.
    fn is_rival(&self, place: usize) -> bool {
        self.passes.get(place).is_some_and(|passes| *passes > 0)
    }

    /// How many rivals stand behind this place and before the node itself.
    pub(crate) fn rivals_behind(&self, place: usize) -> u32 {
        let mut at = place;
        let mut rivals = 0u32;
        for _ in 0..self.len {
            at = self.behind(at);
            if at == self.own {
                break;
            }
            if self.is_rival(at) {
                rivals = rivals.saturating_add(1);
            }
        }
        rivals
    }

    /// The node at this place has had the lock: it is a rival, and those before it were passed over.
    pub(crate) fn pass_to(&mut self, place: usize) {
        let mut at = self.last;
        for _ in 0..self.len {
            at = self.behind(at);
            if at == place {
                break;
            }
            if let Some(passes) = self.passes.get_mut(at) {
                *passes = passes.saturating_sub(1);
            }
        }
        if let Some(passes) = self.passes.get_mut(place) {
            *passes = MOST_PASSES;
        }
        self.last = place;
    }
}
