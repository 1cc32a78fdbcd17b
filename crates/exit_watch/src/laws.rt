//! What the suspects are for, as the contract of a function that does nothing.
ghost use Rattle.std.specs.Prelude.{◌≡◌, false};
ghost use Rattle.registry_model.specs.Process.{Nodes};
ghost use Rattle.registry_model.specs.Table.{Table, Change, changed, without};
ghost use Rattle.name_table.specs.Changes.{is_put};
ghost use Rattle.exit_watch.specs.WatchState.{WatchState, AreSuspected};

/// A change of the table that is no put makes no suspect, nor does the loss of a node's names. So a watch is told of
/// puts alone.
pub fn only_puts_are_noted()
    ensures changed { (h : WatchState) (t : Table) (c : Change) → is_put c ≡ false → AreSuspected h t
        → AreSuspected h (changed c t) }
    ensures without { (h : WatchState) (t : Table) (gone : Nodes) → AreSuspected h t → AreSuspected h (without gone t) }
{}
