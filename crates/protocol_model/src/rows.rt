//! Rows: scripts that the definitions compute to what they have to print, with the headline behind each event.
//! Each is a law of these definitions, so a rule that is changed is refused by the rows that tell it apart.

ghost use Rattle.std.specs.Prelude.{◌≡◌, true, false, Some, None, ◌∷◌, List, []};
ghost use Rattle.protocol_model.specs.Letter.{Client};
ghost use Rattle.protocol_model.specs.Script.{numbers_behind, tried_behind, met_behind};
ghost use Rattle.protocol_model.specs.RowWords.{a, b, c, q, r, z, pid};
ghost use Rattle.protocol_model.specs.Check.{Computes};
ghost use Rattle.protocol_model.specs.NameRows.{registered_name_is_found, write_is_found_at_once, nothing_is_registered_yet, every_node_finds_the_name, process_has_one_name, nothing_to_unregister, owner_on_a_lone_node, who_gets_no_name, name_moves_and_goes, name_moves_to_members_alone, lone_node_refuses_in_a_round};
ghost use Rattle.protocol_model.specs.RoundRows.{boss_decides, failed_round_gives_all_back, nothing_to_retry, settle_has_a_limit, no_such_event};
ghost use Rattle.protocol_model.specs.ExitRows.{second_name_and_both_struck, owner_dies_while_its_call_waits, dead_owner_is_struck, strike_comes_before_waiting_calls, dead_caller_is_not_answered, lone_node_strikes_in_a_round, dead_at_once};
ghost use Rattle.protocol_model.specs.LockRows.{holders_are_counted, retries_and_a_dead_holder, one_lock_call_at_a_time, locks_at_named_nodes, retries_without_end, set_twice_deleted_twice, refused_lock_call_gives_all_back, two_requesters_at_once, all_members_are_asked, retry_asks_the_members_of_now, asked_behind_a_deletion};
ghost use Rattle.protocol_model.specs.DepartureRows.{boss_leaves_while_asked, owner_leaves_between_grant_and_write, no_leave_in_a_hold, departed_holder_keeps_nothing, one_notice_ends_many_rounds, no_node_left_to_ask, round_goes_on_without_a_departed_node, boss_leaves_after_its_grant, deletion_goes_on_without_a_departed_node};
ghost use Rattle.protocol_model.specs.JoinRows.{cluster_wins_the_clash, joiner_wins_the_clash, members_grow_during_a_round, refused_joins, owner_leaves_during_an_admission, member_joins_again, welcome_on_its_way, joiner_leaves_early, killed_holder_keeps_no_lock, killed_before_it_was_spawned, departure_learnt_by_a_welcome, contact_known_to_have_left, departed_node_is_not_read, one_join_at_a_time, admitted_joiner_has_left};
ghost use Rattle.protocol_model.specs.RuleRows.{loser_is_notified, both_are_notified, winner_keeps_its_rule, notices_of_who_isnt_there, name_goes_at_each_member};

/// What calls on names answer, and what look-ups see of them.
pub fn names_are_those_of_one_registry()
    ensures registered_name_is_found { Computes registered_name_is_found }
    ensures write_is_found_at_once { Computes write_is_found_at_once }
    ensures nothing_is_registered_yet { Computes nothing_is_registered_yet }
    ensures every_node_finds_the_name { Computes every_node_finds_the_name }
    ensures process_has_one_name { Computes process_has_one_name }
    ensures nothing_to_unregister { Computes nothing_to_unregister }
    ensures owner_on_a_lone_node { Computes owner_on_a_lone_node }
    ensures who_gets_no_name { Computes who_gets_no_name }
    ensures name_moves_and_goes { Computes name_moves_and_goes }
    ensures name_moves_to_members_alone { Computes name_moves_to_members_alone }
    ensures lone_node_refuses_in_a_round { Computes lone_node_refuses_in_a_round }
{}

/// Who gets the global lock first, what a refused round gives back, and where deliveries stop.
pub fn rounds_give_the_lock_to_one()
    ensures boss_decides { Computes boss_decides }
    ensures failed_round_gives_all_back { Computes failed_round_gives_all_back }
    ensures nothing_to_retry { Computes nothing_to_retry }
    ensures settle_has_a_limit { Computes settle_has_a_limit }
    ensures no_such_event { Computes no_such_event }
{}

/// What becomes of the names and the lock calls of a process that dies.
pub fn dead_owners_are_struck()
    ensures second_name_and_both_struck { Computes second_name_and_both_struck }
    ensures owner_dies_while_its_call_waits { Computes owner_dies_while_its_call_waits }
    ensures dead_owner_is_struck { Computes dead_owner_is_struck }
    ensures strike_comes_before_waiting_calls { Computes strike_comes_before_waiting_calls }
    ensures dead_caller_is_not_answered { Computes dead_caller_is_not_answered }
    ensures lone_node_strikes_in_a_round { Computes lone_node_strikes_in_a_round }
    ensures dead_at_once { Computes dead_at_once }
{}

/// What clients' lock calls answer.
pub fn client_locks_are_shared_by_requester()
    ensures holders_are_counted { Computes holders_are_counted }
    ensures retries_and_a_dead_holder { Computes retries_and_a_dead_holder }
    ensures one_lock_call_at_a_time { Computes one_lock_call_at_a_time }
    ensures locks_at_named_nodes { Computes locks_at_named_nodes }
    ensures retries_without_end { Computes retries_without_end }
    ensures set_twice_deleted_twice { Computes set_twice_deleted_twice }
    ensures refused_lock_call_gives_all_back { Computes refused_lock_call_gives_all_back }
    ensures two_requesters_at_once { Computes two_requesters_at_once }
    ensures all_members_are_asked { Computes all_members_are_asked }
    ensures retry_asks_the_members_of_now { Computes retry_asks_the_members_of_now }
    ensures asked_behind_a_deletion { Computes asked_behind_a_deletion }
{}

/// What a node that leaves does to rounds, writes and locks on their way.
pub fn departures_are_taken_in()
    ensures boss_leaves_while_asked { Computes boss_leaves_while_asked }
    ensures owner_leaves_between_grant_and_write { Computes owner_leaves_between_grant_and_write }
    ensures no_leave_in_a_hold { Computes no_leave_in_a_hold }
    ensures departed_holder_keeps_nothing { Computes departed_holder_keeps_nothing }
    ensures one_notice_ends_many_rounds { Computes one_notice_ends_many_rounds }
    ensures no_node_left_to_ask { Computes no_node_left_to_ask }
    ensures round_goes_on_without_a_departed_node { Computes round_goes_on_without_a_departed_node }
    ensures boss_leaves_after_its_grant { Computes boss_leaves_after_its_grant }
    ensures deletion_goes_on_without_a_departed_node { Computes deletion_goes_on_without_a_departed_node }
{}

/// What a lone node that joins brings, what it finds, and who dies of a clash.
pub fn lone_nodes_join()
    ensures cluster_wins_the_clash { Computes cluster_wins_the_clash }
    ensures joiner_wins_the_clash { Computes joiner_wins_the_clash }
    ensures members_grow_during_a_round { Computes members_grow_during_a_round }
    ensures refused_joins { Computes refused_joins }
    ensures owner_leaves_during_an_admission { Computes owner_leaves_during_an_admission }
    ensures member_joins_again { Computes member_joins_again }
    ensures welcome_on_its_way { Computes welcome_on_its_way }
    ensures joiner_leaves_early { Computes joiner_leaves_early }
    ensures killed_holder_keeps_no_lock { Computes killed_holder_keeps_no_lock }
    ensures killed_before_it_was_spawned { Computes killed_before_it_was_spawned }
    ensures departure_learnt_by_a_welcome { Computes departure_learnt_by_a_welcome }
    ensures contact_known_to_have_left { Computes contact_known_to_have_left }
    ensures departed_node_is_not_read { Computes departed_node_is_not_read }
    ensures one_join_at_a_time { Computes one_join_at_a_time }
    ensures admitted_joiner_has_left { Computes admitted_joiner_has_left }
{}

/// What becomes of a name that a joiner and the cluster have, by the rule of the cluster's entry.
pub fn rules_decide_clashes()
    ensures loser_is_notified { Computes loser_is_notified }
    ensures both_are_notified { Computes both_are_notified }
    ensures winner_keeps_its_rule { Computes winner_keeps_its_rule }
    ensures notices_of_who_isnt_there { Computes notices_of_who_isnt_there }
    ensures name_goes_at_each_member { Computes name_goes_at_each_member }
{}

/// How often each holder has its lock at a node, behind the lines of two rows.
pub fn locks_are_counted_for_each_holder()
    ensures first_holder { numbers_behind holders_are_counted (5 ∷ 7 ∷ 9 ∷ 11 ∷ 13 ∷ 15 ∷ []) (pid a 1) (Client r q) b
        ≡ 1 ∷ 2 ∷ 2 ∷ 1 ∷ 1 ∷ 0 ∷ [] }
    ensures second_holder { numbers_behind holders_are_counted (5 ∷ 7 ∷ 9 ∷ 17 ∷ 19 ∷ []) (pid a 2) (Client r q) b
        ≡ 0 ∷ 0 ∷ 1 ∷ 1 ∷ 0 ∷ [] }
    ensures other_requester { numbers_behind holders_are_counted (17 ∷ 19 ∷ 21 ∷ []) (pid b 1) (Client r z) a
        ≡ 0 ∷ 0 ∷ 1 ∷ [] }
    ensures departed_holder { numbers_behind departed_holder_keeps_nothing (4 ∷ 5 ∷ []) (pid b 1) (Client r q) a
        ≡ 1 ∷ 0 ∷ [] }
    ensures holder_after_it { numbers_behind departed_holder_keeps_nothing (9 ∷ []) (pid a 1) (Client r z) a
        ≡ 1 ∷ [] }
{}

/// Of two requesters of a resource one has it at a node, as soon as one is answered `true`.
pub fn one_requester_has_the_lock()
    ensures first_at_its_node { numbers_behind two_requesters_at_once (3 ∷ 4 ∷ 5 ∷ []) (pid a 1) (Client r q) a
        ≡ 0 ∷ 0 ∷ 1 ∷ [] }
    ensures second_at_its_node { numbers_behind two_requesters_at_once (3 ∷ 4 ∷ 5 ∷ []) (pid a 2) (Client r z) a
        ≡ 0 ∷ 0 ∷ 0 ∷ [] }
    ensures first_at_all { numbers_behind all_members_are_asked (3 ∷ 4 ∷ 5 ∷ []) (pid a 1) (Client r q) b
        ≡ 0 ∷ 0 ∷ 1 ∷ [] }
    ensures second_at_one { numbers_behind all_members_are_asked (3 ∷ 4 ∷ 5 ∷ []) (pid a 2) (Client r z) b
        ≡ 0 ∷ 0 ∷ 0 ∷ [] }
{}

/// A lock that is got by a retry is one at the nodes that the retry asks.
pub fn last_try_counts()
    ensures refused_before { numbers_behind retry_asks_the_members_of_now (6 ∷ 10 ∷ 12 ∷ []) (pid b 1) (Client r z) a
        ≡ 0 ∷ 0 ∷ 1 ∷ [] }
    ensures joined_since { numbers_behind retry_asks_the_members_of_now (6 ∷ 10 ∷ 12 ∷ []) (pid b 1) (Client r z) c
        ≡ 0 ∷ 0 ∷ 1 ∷ [] }
    ensures joined_too_late { numbers_behind retry_asks_the_members_of_now (4 ∷ 8 ∷ 10 ∷ []) (pid a 1) (Client r q) c
        ≡ 0 ∷ 0 ∷ 0 ∷ [] }
{}

/// How often a process's last `set_lock` was tried, and whether its last try met what it may fail for.
pub fn tries_are_told()
    ensures before_any { tried_behind retries_and_a_dead_holder (2 ∷ []) (pid a 2) ≡ None ∷ [] }
    ensures tried { tried_behind retries_and_a_dead_holder (5 ∷ 6 ∷ 7 ∷ 8 ∷ 11 ∷ 12 ∷ []) (pid a 2)
        ≡ Some 1 ∷ Some 1 ∷ Some 2 ∷ Some 2 ∷ Some 1 ∷ Some 1 ∷ [] }
    ensures met { met_behind retries_and_a_dead_holder (5 ∷ 6 ∷ 7 ∷ 8 ∷ 11 ∷ 12 ∷ []) (pid a 2)
        ≡ Some false ∷ Some true ∷ Some false ∷ Some true ∷ Some false ∷ Some false ∷ [] }
    ensures met_by_its_request_alone { met_behind asked_behind_a_deletion (6 ∷ 7 ∷ []) (pid a 2)
        ≡ Some false ∷ Some false ∷ [] }
    ensures met_by_a_departure { met_behind departed_holder_keeps_nothing (6 ∷ 7 ∷ 8 ∷ 9 ∷ []) (pid a 1)
        ≡ Some true ∷ Some true ∷ Some false ∷ Some false ∷ [] }
{}
