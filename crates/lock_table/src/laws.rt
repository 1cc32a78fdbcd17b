//! What a lock table means, as the contract of a function that does nothing.
ghost use Rattle.std.specs.Prelude.{◌≡◌, ◌<◌, true, Contains};
ghost use Rattle.protocol_model.specs.Letter.{is_resource};
ghost use Rattle.protocol_model.specs.LockTable.{Grant, Locks, count};
ghost use Rattle.lock_table.specs.Ids.{requester_of};
ghost use Rattle.lock_table.specs.Sound.{IsSound};

/// Two grants of one resource are one requester's, and whoever has a grant is counted, by that grant's count.
pub fn sound_tables_tell_who_holds()
    ensures one_requester { (t : Locks) (g h : Grant) → IsSound t → Contains t g → Contains t h
        → is_resource g.id h.id ≡ true → requester_of g.id ≡ requester_of h.id }
    ensures positive { (t : Locks) (g : Grant) → IsSound t → Contains t g → 0 < count g.id g.holder t }
    ensures counted { (t : Locks) (g : Grant) → IsSound t → Contains t g → count g.id g.holder t ≡ g.count }
{}
