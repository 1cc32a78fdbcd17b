//! Whoever retries, someone gets through, and who asks for the global lock alone does; so all registrars get free. Each law is the
//! contract of a function with an empty body.
#![tactic(auto)]

ghost use Rattle.getting_through.specs.GettingThrough.{SomeoneGetsThrough, RetriesAloneEnd, NameCallsAloneAnswered};
ghost use Rattle.no_dead_end.specs.NamedNoDeadEnd.{AlwaysNamed};
ghost use Rattle.getting_through.specs.NamedFinishing.{NamedRetriesLower, FinishingEnds};
ghost use Rattle.getting_through.specs.GettingFree.{PendingStays, RegistrarsGetFree, StormsAreFew, FewRetriesFree};
ghost use Rattle.no_dead_end.specs.Worlds.{OfNodes};
ghost use Rattle.no_dead_end.specs.Clauses.{Always};
ghost use Rattle.no_dead_end.specs.WorldsOfNames.{OfNames};

/// Whoever retries, someone gets through: from a quiet world letters are delivered and nodes are retried, in any order, a refused
/// registrar among them, until no letter waits. Then some registrar that was refused has ended its operation, and less is pending.
pub fn someone_gets_through()
    ensures { OfNodes SomeoneGetsThrough }
{}

/// A registrar that was refused is retried in a quiet world, and letters are delivered until none waits: its operation is over.
pub fn retries_alone_end()
    ensures { OfNodes RetriesAloneEnd }
{}

/// A name call is made where nothing waits, and letters are delivered until none waits: it is answered, by what the table and the
/// members of its node were when it was made.
pub fn name_calls_alone_are_answered()
    ensures { OfNodes NameCallsAloneAnswered }
{}

/// What is pending, as what may still have to be retried is called, no delivery and no retry raises.
pub fn pending_never_rises()
    ensures { OfNodes PendingStays }
{}

/// All registrars get free: from every world that events can reach deliveries and retries, no more retries than are pending, lead
/// on to a settled one, where each registrar is free with nothing queued and each name call and each join has been answered.
pub fn registrars_get_free()
    ensures { Always FewRetriesFree }
{}

/// And whichever of the refused are retried, one after the other and each until no letter waits again: that is done no more often
/// than is pending, so in the end none is refused.
pub fn storms_are_few()
    ensures { OfNodes StormsAreFew }
{}

/// Registrars of worlds of names get free, too, whoever has left and come back: deliveries by names and retries lead on to a
/// settled world, where each running registrar is free and each name call and each join has been answered.
pub fn names_get_free()
    ensures { OfNames RegistrarsGetFree }
{}

/// Whoever retries, someone gets through in worlds of names, too, by any deliveries and retries: some registrar that was refused has
/// ended its operation, and less is pending.
pub fn named_someone_gets_through()
    ensures { OfNames SomeoneGetsThrough }
{}

/// Nor does it matter there who is retried: that is done no more often than is pending, each time until no letter waits again.
pub fn named_storms_are_few()
    ensures { OfNames StormsAreFew }
{}

/// Nor is more pending in a world of names behind any deliveries and retries.
pub fn named_pending_never_rises()
    ensures { OfNames PendingStays }
{}

/// Where a refused registrar of a quiet world of names is retried, and letters are delivered until none waits, less is pending.
pub fn named_retries_lower()
    ensures { AlwaysNamed NamedRetriesLower }
{}

/// So a world of names is finished, but for lock calls, by retries of its first refused node, each behind deliveries until no letter
/// waits: after no more of them than was pending no letter waits, no registrar is refused, and each name call and each join has been
/// answered.
pub fn finishing_ends()
    ensures { AlwaysNamed FinishingEnds }
{}
