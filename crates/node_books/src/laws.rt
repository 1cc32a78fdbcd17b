//! Laws of the moments of a node. Each is the contract of a function with an empty body.
ghost use Rattle.node_books.specs.Onward.{LogsOnlyGrow, OwedIsMore, TakenIsMore};
ghost use Rattle.node_books.specs.Moments.{LengthsTell};

/// The log of whatever a loop comes to begins with the loop's own, also behind a turn that failed.
pub fn logs_only_grow()
    ensures { LogsOnlyGrow }
{}

/// Of the moments of a node, an earlier one shows just what the last does where it shows no shorter a log.
pub fn lengths_tell_what_is_shown()
    ensures { LengthsTell }
{}

/// A loop that owes its readers what leads from what they are shown shows the same, or more; so it does once that was taken.
pub fn what_is_owed_is_more()
    ensures owed { OwedIsMore }
    ensures taken { TakenIsMore }
{}
