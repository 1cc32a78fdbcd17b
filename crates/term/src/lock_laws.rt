//! Laws of the ids of locks, each the contract of a function that does nothing.
ghost use Rattle.std.specs.Prelude.{◌≡◌, ◌==◌, ◌&&◌, ℕ, List, [], ◌∷◌};
ghost use Rattle.std.specs.Ordering.{nat_cmp};
ghost use Rattle.term.specs.LockIds.{global_text};
ghost use Rattle.term.specs.Spelling.{SpellsText};
ghost use Rattle.term.specs.declared.lock_id.LockId.{LockId};

use crate::lock_id::LockId;
use crate::requester::Requester;
use crate::resource::Resource;

/// Resources and requesters are compared by their numbers, and ids are one where both are.
pub fn lock_ids_are_compared_by_number()
    ensures same_resource { (v w : ℕ) → ⟦<Resource as PartialEq>⟧.eq v w ≡ (v == w) }
    ensures same_requester { (v w : ℕ) → ⟦<Requester as PartialEq>⟧.eq v w ≡ (v == w) }
    ensures resources { (v w : ℕ) → ⟦<Resource as Ord>⟧.cmp v w ≡ nat_cmp v w }
    ensures requesters { (v w : ℕ) → ⟦<Requester as Ord>⟧.cmp v w ≡ nat_cmp v w }
    ensures same_id { (i j : LockId) → ⟦<LockId as PartialEq>⟧.eq i j
        ≡ ((i.resource == j.resource) && (i.requester == j.requester)) }
{}

/// The resource `global` is spelled by the letters g, l, o, b, a and l.
pub fn global_is_spelled_so()
    ensures { SpellsText (103 ∷ 108 ∷ 111 ∷ 98 ∷ 97 ∷ 108 ∷ []) global_text }
{}
