//! Fences: a number for each `true` that a `set_lock` is answered, by which who holds a resource later has the greater one. The
//! laws are of a run of the nodes of one cluster; each is the contract of a function with an empty body.
#![tactic(auto)]

ghost use Rattle.fences.specs.Named.{RunsByNamesAreRuns};
ghost use Rattle.fences.specs.Sample.{TwoGrants};
ghost use Rattle.fences.specs.Laws.{FencesAreOrdered, MergedEndsAreRuns, FencesRise, OwnFencesRise, GrantsAreRequested, LaterGrantsAreGreater, GrantsAreInTurn};

/// A step's number is its stamp times eight and its node's place, so numbers are ordered by stamp, and those of one stamp by place.
pub fn fences_are_ordered()
    ensures { FencesAreOrdered }
{}

/// Consistent ends, merged by stamp and then by node, are such a run.
pub fn merged_ends_are_runs()
    ensures { MergedEndsAreRuns }
{}

/// And so are steps by names, which tell what events of named nodes are in the world: each creation of a name is a node of its own.
pub fn runs_by_names_are_runs()
    ensures { RunsByNamesAreRuns }
{}

/// Where places rise as nodes do, of any two steps of a run the later has the greater number.
pub fn fences_rise()
    ensures { FencesRise }
{}

/// And whatever the places, of two steps of one node the later has the greater number.
pub fn own_fences_rise()
    ensures { OwnFencesRise }
{}

/// Where a grant asked a node that runs when it is answered, that node took its request before, the last one of its holder for this
/// lock, and has had the lock for the holder since.
pub fn grants_are_requested()
    ensures { GrantsAreRequested }
{}

/// Of two grants of one resource under different requesters that asked a common node, which runs when the later is answered, the
/// later has the greater stamp, and so the greater number, whatever the places.
pub fn later_grants_are_greater()
    ensures { LaterGrantsAreGreater }
{}

/// And where that node runs when each is answered, they have the resource there in turn, first the one with the lesser number. When
/// it is answered its holder has the lock there and the other's hasn't; then the node takes the request of the other, and when that
/// is answered it is the other way round.
pub fn grants_are_in_turn()
    ensures { GrantsAreInTurn }
{}

/// Such grants exist: in a run of two nodes, which is computed, two processes hold a resource in turn.
pub fn two_grants()
    ensures { TwoGrants }
{}
