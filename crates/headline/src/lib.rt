//! The headline: all families of invariants hold together after every list of events, and what this comes to.
//! Each law is the contract of a function with an empty body.
#![tactic(auto)]

ghost use Rattle.headline.specs.Worlds.{OfNodes, Agrees, Excludes};
ghost use Rattle.headline.specs.Clauses.{HistoryGrows, HistoryIsLegal, HistoryFits, AnswersAreEntries, AnswersComeInTime, EntriesAreMadeAtHome, IsDecidedUnderLock, EachLookUpOnce, LookUpsReadTheTable, SpawnsGiveTheNext, ExitsKillAtOnce, CallsAreAnsweredOnce, JoinersAreAnswered, ShowsWhenFree, ShowsWhenHeld, YesIsWritten, JoinedIsWelcomed, LeaveWaits, RefusalsInWords, HolderHolds};
ghost use Rattle.headline.specs.Tie.{TestAsksTheHeadline, HeadlineWhereTestPasses};
ghost use Rattle.headline.specs.Laws.{OneHolder, OneOwnerAtEach, JoinedAgree, NoToTheTaken, YesToTheFreeOnly, YesStands, YesIsFound, RefusedChangesNothing, SpawnsGiveNew, FixedAgreement};

/// All answers to name calls and joins are those of one sequential registry that takes the granted operations in lock order,
/// and whenever the lock is free, the replicas are that registry's.
pub fn agreement()
    ensures { OfNodes Agrees }
{}

/// Clients' locks exclude each other: at a running node no resource is held under two requesters.
pub fn exclusion()
    ensures { OfNodes Excludes }
{}

/// The history of a world is what its events entered, each at its end.
pub fn history_grows()
    ensures { HistoryGrows }
{}

/// It is a history of one sequential registry.
pub fn history_is_legal()
    ensures { HistoryIsLegal }
{}

/// It fits the events.
pub fn history_fits()
    ensures { HistoryFits }
{}

/// At each node the answers to its name calls and joins are those of its entries, in their order, each once.
pub fn answers_are_entries()
    ensures { AnswersAreEntries }
{}

/// Name calls are answered when they are done, or refused at once, and `joined` comes while the admission holds.
pub fn answers_come_in_time()
    ensures { AnswersComeInTime }
{}

/// Each entry is made by the node of its step; what is decided, refused or done is so by a letter.
pub fn entries_are_made_at_home()
    ensures { EntriesAreMadeAtHome }
{}

/// Where a step decides an operation, every running node of the group has given the global lock to its node, and to no other.
pub fn decided_under_lock()
    ensures { IsDecidedUnderLock }
{}

/// A look-up is entered once and answered once, with the reply of its entry.
pub fn looks_up_once()
    ensures { EachLookUpOnce }
{}

/// A look-up is answered what its node shows.
pub fn look_ups_read_the_table()
    ensures { LookUpsReadTheTable }
{}

/// A `spawn` gives the least process of its node above all that were spawned there that isn't dead.
pub fn spawns_give_the_next()
    ensures { SpawnsGiveTheNext }
{}

/// Who was let exit is dead from that step on.
pub fn exits_kill_at_once()
    ensures { ExitsKillAtOnce }
{}

/// Each numbered call is answered at most once, at its node and by a reply that it may have.
pub fn calls_are_answered_once()
    ensures { CallsAreAnsweredOnce }
{}

/// Where a step ends an admission, its joiner was answered `joined` before, or has left.
pub fn joiners_are_answered()
    ensures { JoinersAreAnswered }
{}

/// While no operation of its group holds, a running node shows the registry.
pub fn shows_when_free()
    ensures { ShowsWhenFree }
{}

/// While one holds, with it or without it.
pub fn shows_when_held()
    ensures { ShowsWhenHeld }
{}

/// Where `yes` is answered every running node of the group shows the registry.
pub fn yes_is_written()
    ensures { YesIsWritten }
{}

/// Where `joined` is answered the joiner shows the registry.
pub fn joined_is_welcomed()
    ensures { JoinedIsWelcomed }
{}

/// A leave is refused exactly while an operation of its node holds.
pub fn leave_waits()
    ensures { LeaveWaits }
{}

/// Each refusal stands for its reason, as far as that is seen.
pub fn refusals_in_words()
    ensures { RefusalsInWords }
{}

/// The holder of the lock is the node of the operation that holds in the cluster.
pub fn holder_holds()
    ensures { HolderHolds }
{}

/// A refused event changes nothing.
pub fn refused_changes_nothing()
    ensures { RefusedChangesNothing }
{}

/// Of the running joined nodes at most one holds the global lock.
pub fn one_holder()
    ensures { OneHolder }
{}

/// At no running node a name has two owners.
pub fn one_owner_at_each()
    ensures { OneOwnerAtEach }
{}

/// While nobody holds the lock, running joined nodes that were told of the same departures show the same names.
pub fn joined_agree()
    ensures { JoinedAgree }
{}

/// A `no` is never given to a free name and a free process of a member.
pub fn no_to_the_taken()
    ensures { NoToTheTaken }
{}

/// A `yes` is given to a free name and a free process of a member only.
pub fn yes_to_the_free_only()
    ensures { YesToTheFreeOnly }
{}

/// After a `yes` to `register` every running node of the group finds the process whenever no operation of its group holds, until
/// an entry takes the name; but for nodes that were told that the process's node left.
pub fn yes_stands()
    ensures { YesStands }
{}

/// The headline where nobody joins or leaves: the cluster shows one table.
pub fn fixed_membership()
    ensures { FixedAgreement }
{}

/// When a call that gives a name is answered `yes`, every running node of the group finds the process at once, but for those
/// that were told that its node left.
pub fn yes_is_found()
    ensures { YesIsFound }
{}

/// No two spawns give one process.
pub fn spawns_give_new()
    ensures { SpawnsGiveNew }
{}

/// The test that rows are checked by asks the headline and no more: a list of events that fails it refutes the headline.
pub fn test_asks_the_headline()
    ensures { TestAsksTheHeadline }
{}

/// Where the test passes, the headline stands as far as the nodes below the bound tell, but for notices: so the test asks all of its
/// clauses but `exited`, `welcomed` and those of what a node would answer or refuse next, `reads`, `spawns` and `refusals`.
pub fn headline_where_test_passes()
    ensures { HeadlineWhereTestPasses }
{}
