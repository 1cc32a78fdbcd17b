//! What the replies to a holder's calls say of its counts, as the contracts of functions that do nothing.
ghost use Rattle.std.specs.Prelude.{◌≡◌, ◌+◌, ◌-◌, true, false, Bool, Result};
ghost use Rattle.term.specs.declared.lock_id.LockId.{LockId};
ghost use Rattle.transaction.specs.declared.nodes.Nodes.{Nodes};
ghost use Rattle.transaction.specs.declared.nodes.Retries.{Retries};
ghost use Rattle.transaction.specs.Counts.{is_lock, count_of};

use crate::seat::LockSeat;

/// A grant is one count more, a refusal or a fault none, and other locks keep their count.
pub fn grants_are_counted<S: LockSeat>()
    ensures granted { (s t : S) (id : LockId) (nodes : Nodes) (retries : Retries) → S.sets s id nodes retries (Ok true) t
        → count_of id (S.replies t) ≡ count_of id (S.replies s) + 1 }
    ensures refused { (s t : S) (id : LockId) (nodes : Nodes) (retries : Retries) → S.sets s id nodes retries (Ok false) t
        → count_of id (S.replies t) ≡ count_of id (S.replies s) }
    ensures others { (s t : S) (id : LockId) (nodes : Nodes) (retries : Retries) (answer : Result Bool S.Fault)
        → S.sets s id nodes retries answer t → (other : LockId) → is_lock id other ≡ false
        → count_of other (S.replies t) ≡ count_of other (S.replies s) }
    ensures faults { (s t : S) (id : LockId) (nodes : Nodes) (retries : Retries) (fault : S.Fault)
        → S.sets s id nodes retries (Err fault) t → count_of id (S.replies t) ≡ count_of id (S.replies s) }
{}

/// A deletion is one count less, or still 0, a fault changes none, and other locks keep their count.
pub fn deletions_are_counted<S: LockSeat>()
    ensures deleted { (s t : S) (id : LockId) (nodes : Nodes) → S.deletes s id nodes (Ok tt) t
        → count_of id (S.replies t) ≡ count_of id (S.replies s) - 1 }
    ensures others { (s t : S) (id : LockId) (nodes : Nodes) (answer : Result Unit S.Fault) → S.deletes s id nodes answer t
        → (other : LockId) → is_lock id other ≡ false → count_of other (S.replies t) ≡ count_of other (S.replies s) }
    ensures faults { (s t : S) (id : LockId) (nodes : Nodes) (fault : S.Fault) → S.deletes s id nodes (Err fault) t
        → count_of id (S.replies t) ≡ count_of id (S.replies s) }
{}

/// Locks are counted: who had a lock, was granted it once more and deleted it once, has it as before, where what was done in
/// between left the count. So after an inner transaction the outer one still has its lock.
pub fn a_deletion_undoes_one_grant<S: LockSeat>()
    ensures { (s held left end : S) (id : LockId) (nodes named : Nodes) (retries : Retries)
        → S.sets s id nodes retries (Ok true) held → S.deletes left id named (Ok tt) end
        → count_of id (S.replies left) ≡ count_of id (S.replies held)
        → count_of id (S.replies end) ≡ count_of id (S.replies s) }
{}
