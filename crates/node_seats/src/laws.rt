//! Laws of what callers are told. Each is the contract of a function with an empty body.
ghost use Rattle.node_seats.specs.Lasting.{AnswersLast, LeavesLast};

/// What a caller was answered stands in the log of the loop whose end the node's thread gives back, and so does the leave that it was told of:
/// where the past of the node's book covers the moments that the caller knew then, or later (`Past::covers`).
pub fn what_is_told_lasts()
    ensures answers { AnswersLast }
    ensures leaves { LeavesLast }
{}
