//! A law of rounds, the contract of a function that does nothing.
ghost use Rattle.std.specs.Prelude.{ℕ, List};
ghost use Rattle.registry_model.specs.Process.{Nodes};
ghost use Rattle.locker.specs.Laws.{Move, HeldIsGranted};

/// Behind a round that ends held each member was asked, and granted or went down; and nobody refused.
pub fn held_is_granted()
    ensures { (n : ℕ) (asked members : Nodes) (moves : List Move) → HeldIsGranted n asked members moves }
{}
