//! Ends of node threads that are consistent play to their end: where each node, played alone by its log and by the letters that the
//! others' logs send it, does what its log says, the world does so, too, once all logs are merged by their stamps. And they can be merged.
//! Each law is the contract of a function with an empty body.
#![tactic(auto)]

ghost use Rattle.std.specs.Prelude.{ℕ};
ghost use Rattle.protocol_model.specs.Letter.{Letter};
ghost use Rattle.closings.specs.Guarded.{GuardedEndsAreConsistent, VouchedEndsAreConsistent};
ghost use Rattle.closings.specs.Laws.{ConsistentEndsGoOn, ConsistentEndsHaveARun, ConsistentEndsPlay, LogsMerge};

/// Consistent ends, merged by stamp and then by node, are played by the world to their end, with the answers that they tell of, and
/// its tables are then theirs.
pub fn consistent_ends_play()
    ensures { ConsistentEndsPlay }
{}

/// Behind any beginning of that merged run the next entry's stamp is above that of the entry before it in its log, and the world
/// takes it.
pub fn consistent_ends_go_on()
    ensures { ConsistentEndsGoOn }
{}

/// What a node relies on of a letter from one node to another.
pub trait Relied {
    ghost fits: { ℕ → ℕ → Letter → Type 0 };
}

/// What each node can say of its own steps alone makes them consistent: that they are its steps where each letter that it reads is
/// such as it relies on, and that its own letters are such then. For a letter is sent by a step that read letters of lesser stamps.
pub fn guarded_ends_are_consistent<T: Relied>()
    ensures { GuardedEndsAreConsistent T.fits }
{}

/// So does what each node says when it ends, of what it took and of what it put, where what it took of another node begins what that
/// put for it.
pub fn vouched_ends_are_consistent<T: Relied>()
    ensures { VouchedEndsAreConsistent T.fits }
{}

/// Logs in which stamps rise, of which only nodes below some bound have entries, are merged into one run, which has as many steps as
/// they have entries.
pub fn logs_merge()
    ensures { LogsMerge }
{}

/// Consistent ends have a run: their logs are merged into it, the world plays it to its end, with the answers that they tell of, and
/// its tables are then theirs.
pub fn consistent_ends_have_a_run()
    ensures { ConsistentEndsHaveARun }
{}
