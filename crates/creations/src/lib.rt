//! Node names that come back. A world of named nodes is a world in which each creation of a name is a node of its own, so that what
//! is proved of worlds holds of it; each law is the contract of a function with an empty body.
#![tactic(auto)]

ghost use Rattle.lock_answers.specs.Worlds.{Agrees, Excludes};
ghost use Rattle.lock_answers.specs.Leftovers.{NothingIsLeft};
ghost use Rattle.lock_answers.specs.ClientLocks.{ClientLocks};
ghost use Rattle.creations.specs.NodeNames.{NumbersAreExact, NumbersAreThoseOfTheProgram};
ghost use Rattle.creations.specs.NamedWorld.{NamedRunsAreRuns};
ghost use Rattle.creations.specs.Restarts.{NodesAlwaysStand, OlderLettersAreDropped, RestartIsItsNotices, RestartsSayWhy, RestartsStartAnew};
ghost use Rattle.creations.specs.JoinNumbers.{JoinNumbersSuffice};
ghost use Rattle.creations.specs.Inherited.{NothingIsInherited};
ghost use Rattle.creations.specs.NamedLinks.{LinksAreAlwaysByName};
ghost use Rattle.creations.specs.NamedRows.{NamedComputes, name_comes_back, restart_waits_for_all, older_node_is_another, retry_asks_the_new_node, name_without_a_member, older_letters_are_dropped};
ghost use Rattle.creations.specs.WorldsOfNames.{OfNames, OfTheirNodes};
ghost use Rattle.creations.specs.Lifted.{RestartsAreLegal, AcceptedEventsArePlayed, AnswersStayAtTheirNode};
ghost use Rattle.creations.specs.NamedCalls.{NamesAlwaysMeanMembers};
ghost use Rattle.creations.specs.NobodyBack.{NobodyCameBack};
ghost use Rattle.creations.specs.SomeStarted.{OfStarted};

/// A name and a creation are one number, and numbers rise by name, then creation.
pub fn numbers_are_exact()
    ensures { NumbersAreExact }
{}

/// With as many creations as the program is to have, a node is its name times 2^32 and its creation less 1.
pub fn numbers_of_the_program()
    ensures { NumbersAreThoseOfTheProgram }
{}

/// A run of named nodes is a run of a world.
pub fn named_runs_are_runs()
    ensures { NamedRunsAreRuns }
{}

/// A restart gives the new node's view and nothing else: it is lone, has nothing, and was told of exactly the nodes that have left; nothing
/// is sent or answered, nobody else changes, and the history has these notices, in rising order.
pub fn restarts_start_anew()
    ensures { RestartsStartAnew }
{}

/// A restart is refused where there is no such name, where its node runs, where a running node, the least, wasn't told that it left, and
/// where no creation is left, in this order; else it is accepted.
pub fn restarts_say_why()
    ensures { RestartsSayWhy }
{}

/// The registry's own restart of a node that was told of nobody, by which it is told of all that have left, is the notices of these to it.
pub fn restart_is_its_notices()
    ensures { RestartIsItsNotices }
{}

/// No name, notice, lock, count or death of one creation is another's: until a node starts no running node has a name or a lock of it, and
/// the registry has nothing of it. A call that waits may name a process of it.
pub fn nothing_is_inherited()
    ensures { NothingIsInherited }
{}

/// A node that was replaced has left, and each running node was told so. So of a running node's members no two have one name, and who
/// hasn't started stands as it opened.
pub fn nodes_always_stand()
    ensures { NodesAlwaysStand }
{}

/// Of the letters of a node that was replaced a running node reads none but that it has left.
pub fn older_letters_are_dropped()
    ensures { OlderLettersAreDropped }
{}

/// The history needs the number of no join by a node that was replaced: whatever numbers these joins are given, a running node makes the
/// same of a letter, its entries in the history too.
pub fn join_numbers_suffice()
    ensures { JoinNumbersSuffice }
{}

/// What the nodes of one name sent to the present node of another is one list, the letters of older nodes first: a delivery takes its
/// front and leaves the rest, behind which comes what a node sends itself; and a node that was replaced adds nothing to it. A delivery is
/// refused for an empty link only where this list is empty; and it is there, from a name of the world to one whose present node runs.
pub fn links_are_by_name()
    ensures { LinksAreAlwaysByName }
{}

/// Whatever an accepted event is in the world, a call or the notices of a restart, each of it is accepted there, in its turn.
pub fn accepted_events_are_played()
    ensures { AcceptedEventsArePlayed }
{}

/// The headline with joins, departures and restarts: all answers to name calls and joins are those of one sequential registry that takes
/// the granted operations in lock order, and whenever the lock is free, the replicas are that registry's. Each creation of a name is a node
/// of its own in it.
pub fn agreement()
    ensures { OfNames Agrees }
{}

/// Each answer there is given by the node of its event; a numbered one to a call of that node, and at most once.
pub fn answers_stay_at_their_node()
    ensures { AnswersStayAtTheirNode }
{}

/// Clients' locks exclude each other there, as in all worlds.
pub fn exclusion()
    ensures { OfNames Excludes }
{}

/// Lock calls are answered there as in all worlds, and so they are in the world of nodes that it is. In a quiet world a `set_lock` with no
/// retries is answered `true` where the lock is free, and else `false`, and has been answered once no letter waits again; and a process
/// that isn't dead waits for a retry, unless its last `set_lock` is answered. By names the `Down`s that wait for nodes that haven't started
/// are left out of account: in the world of nodes one waits for each of them once a node has left, and so that isn't quiet any more.
pub fn client_locks()
    ensures names { OfNames ClientLocks }
    ensures nodes { OfTheirNodes ClientLocks }
{}

/// A lock call by names asks, at a running node, exactly the members that have one of these names then, and misses a member exactly where
/// one of them is no member's.
pub fn names_mean_members()
    ensures { NamesAlwaysMeanMembers }
{}

/// Until a name comes back a world of named nodes is that of the first node of each name: its nodes stand the same, and an event of
/// first nodes is refused and answered the same.
pub fn nobody_came_back()
    ensures { NobodyCameBack }
{}

/// Nothing is left over there, as in all worlds: once no letter waits for a running node, nobody keeps a lock or a life, nor a name on a
/// node that has left; once no operation waits for a retry either, no dead process has a name.
pub fn nothing_is_left()
    ensures { OfNames NothingIsLeft }
{}

/// Where some nodes never start, which make no step then, what is said of all worlds is said of the others alone: the `Down`s that wait for
/// those that never start are left out of account. So the headline holds, locks exclude each other, lock calls are answered as they are to
/// be, and nothing is left over, once no letter waits for a node that starts.
pub fn laws_of_started()
    ensures agrees { OfStarted Agrees }
    ensures excludes { OfStarted Excludes }
    ensures locks { OfStarted ClientLocks }
    ensures nothing_is_left { OfStarted NothingIsLeft }
{}

/// Each restart is legal by the registry, too: the node before has left, and each running node was told so.
pub fn restarts_are_legal()
    ensures { RestartsAreLegal }
{}

/// Worked scripts, computed: a name comes back, a restart waits until all were told, an older node is another than the present one, a
/// lock call by names asks the present nodes, and an older node's letters are dropped.
pub fn names_come_back()
    ensures name_comes_back { NamedComputes name_comes_back }
    ensures restart_waits_for_all { NamedComputes restart_waits_for_all }
    ensures older_node_is_another { NamedComputes older_node_is_another }
    ensures retry_asks_the_new_node { NamedComputes retry_asks_the_new_node }
    ensures name_without_a_member { NamedComputes name_without_a_member }
    ensures older_letters_are_dropped { NamedComputes older_letters_are_dropped }
{}
