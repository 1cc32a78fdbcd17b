//! Laws of ordered links, the contracts of functions that do nothing.
ghost use Rattle.std.specs.Prelude.{ℕ};
ghost use Rattle.link.specs.Moves.{PrefixesAreDelivered, StampedPrefixesAreDelivered};

/// What is taken in order is what ordered links deliver: where of each pair of nodes a beginning of what was put was taken, from the start
/// and anew from each reopening of a receiver that was closed out, and nothing by a node between its closing and its reopening, then in any
/// one list of all that, in which at no point more of a pair was taken than put since then, each letter that is taken is the oldest on its
/// link.
pub fn prefixes_are_delivered<L>()
    ensures { PrefixesAreDelivered L }
{}

/// And so it is where all that is listed by the stamps of its steps: a letter has the stamp of the step that puts it, and the step that
/// takes it has a greater one.
pub fn stamped_prefixes_are_delivered<L>()
    ensures { (sent_at : L → ℕ) → StampedPrefixesAreDelivered sent_at }
{}
