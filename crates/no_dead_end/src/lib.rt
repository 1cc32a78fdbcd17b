//! No dead end: deliveries end, and where no letter waits any more nothing is waited for that doesn't come, and calls are answered.
//! Each law is the contract of a function with an empty body.
#![tactic(auto)]

ghost use Rattle.no_dead_end.specs.Deliveries.{DeliveriesLower, SettlesInTime};
ghost use Rattle.no_dead_end.specs.Payments.{EventsPay};
ghost use Rattle.no_dead_end.specs.Units.{WorkIsBounded};
ghost use Rattle.no_dead_end.specs.QuietWorlds.{QuietWorldsRest};
ghost use Rattle.no_dead_end.specs.Answering.{QuietWorldsAnswer, SettledWorldsAnswer};
ghost use Rattle.no_dead_end.specs.NamedNoDeadEnd.{AlwaysNamed, NamedDeliveriesLower, NamedWorkIsBounded, LimitsAreWork};
ghost use Rattle.no_dead_end.specs.NamedPayments.{NamedEventsPay};
ghost use Rattle.named_events.specs.Worlds.{OfNodes};
ghost use Rattle.named_events.specs.Clauses.{Always};
ghost use Rattle.named_events.specs.WorldsOfNames.{OfNames};

/// Each delivery lowers the work that a world has still to do.
pub fn deliveries_lower()
    ensures { Always DeliveriesLower }
{}

/// So a `settle` of as many deliveries as there is work leaves a world in which no letter waits.
pub fn settles_in_time()
    ensures { Always SettlesInTime }
{}

/// No event raises the work by more than it pays: so all deliveries of a run are at most what its other events pay.
pub fn events_pay()
    ensures { Always EventsPay }
{}

/// There is no more work than sixteen letters for each node and for each letter, operation, lock call and name that the world has.
pub fn work_is_bounded()
    ensures { Always WorkIsBounded }
{}

/// Where no letter waits each running registrar is free with nothing to do, or was refused and waits for a retry, or waits for a
/// contact that does, with its admission; each lock call waits for a retry; no leave is refused.
pub fn quiet_worlds_rest()
    ensures { OfNodes QuietWorldsRest }
{}

/// And each `del_lock` that a running node accepted is answered there, unless its process is dead.
pub fn quiet_worlds_answer()
    ensures { OfNodes QuietWorldsAnswer }
{}

/// Where no operation waits for a retry either, so is each name call and each join.
pub fn settled_worlds_answer()
    ensures { OfNodes SettledWorldsAnswer }
{}

/// Of worlds of names, whose nodes leave and come back: each delivery lowers a work in which at most one node of each name counts,
/// and a `settle` of as many deliveries leaves nothing to deliver.
pub fn deliveries_by_names_lower()
    ensures { AlwaysNamed NamedDeliveriesLower }
{}

/// There, too, is no more work than sixteen letters for each name of a node and for each letter, operation, lock call and name.
pub fn work_of_names_is_bounded()
    ensures { AlwaysNamed NamedWorkIsBounded }
{}

/// No event by names raises the work by more than it pays, and a restart not at all.
pub fn events_by_names_pay()
    ensures { AlwaysNamed NamedEventsPay }
{}

/// So a script's `settle` prints `settle_limit` only where there was more work than deliveries are allowed.
pub fn limits_are_work()
    ensures { AlwaysNamed LimitsAreWork }
{}

/// A quiet world of names rests as any does.
pub fn quiet_names_rest()
    ensures { OfNames QuietWorldsRest }
{}

/// It has answered each `del_lock` of a running node, unless its process is dead.
pub fn quiet_names_answer()
    ensures { OfNames QuietWorldsAnswer }
{}

/// And a settled one each name call and each join.
pub fn settled_names_answer()
    ensures { OfNames SettledWorldsAnswer }
{}
