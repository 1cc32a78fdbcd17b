//! What a history says, in words: who is sent which notices, and what stood before an entry that is legal. And what a registrar
//! begins, and whom it asks first.
#![tactic(auto)]

ghost use Rattle.std.specs.Prelude.{List};
ghost use Rattle.registry_model.specs.Process.{Process, Nodes};
ghost use Rattle.registry_model.specs.History.{Entry};
ghost use Rattle.protocol_model.specs.World.{Opening};
ghost use Rattle.protocol_model.specs.Check.{Computes};
ghost use Rattle.history_words.specs.Notices.{GetsItsOwn, SendsInOrder};
ghost use Rattle.history_words.specs.Shown.{ShowsTheRegistry, NodesShowInWords};
ghost use Rattle.history_words.specs.Entries.{TellsItsEntries, LegalSaysWhatStood, WorldsSayWhatStood, NamedWorldsSayWhatStood, RefusesWhileLone};
ghost use Rattle.history_words.specs.Beginning.{TellsTheGreatest, StrikesComeFirst};
ghost use Rattle.history_words.specs.Rows.{two_notices_of_one_join, both_are_sent_two};

/// A process gets exactly the notices of a list that are for it, in their order.
pub fn gets_its_own()
    ensures { (p : Process) → GetsItsOwn p }
{}

/// What a node has to show of the registry of a history, in words: its group's table and members, but for nodes that it was told
/// have left, whom it was told of, and what each of its processes was sent, dead or not.
pub fn shows_the_registry()
    ensures { ShowsTheRegistry }
{}

/// At first nobody was sent anything; a join that is granted adds for each process the notices that it is sent, rising by name,
/// behind what it was sent before, and no other entry adds any.
pub fn sends_in_order()
    ensures { (cluster : Nodes) (h : List Entry) → SendsInOrder cluster h }
{}

/// No node opens with a notice; and behind all events a running node shows, in these words, the registry of the history, or that
/// without the operation of its group that holds. A look-up of a process's notices is answered those that its node shows.
pub fn nodes_show_in_words()
    ensures { (o : Opening) → NodesShowInWords o }
{}

/// Who has left, was told and has joined by the registry of a history is who its entries say.
pub fn tells_its_entries()
    ensures { (cluster : Nodes) (h : List Entry) → TellsItsEntries cluster h }
{}

/// In a legal history who is struck had died; a join is granted to a node that hasn't joined by a contact that has, refused by a
/// node that isn't admitted, or ended since the joiner was told that its contact left; whom a node is told of has left; a node
/// leaves once, and with nothing undone; who decides hasn't left; a look-up is answered by the entries before it, with or without
/// the one whose operation holds; and what is done was granted, and not done before.
pub fn legal_says_what_stood()
    ensures { LegalSaysWhatStood }
{}

/// So it is in the history of each world, behind all events; and there whoever makes an entry hasn't left before it.
pub fn worlds_say_what_stood()
    ensures { WorldsSayWhatStood }
{}

/// And in that of each world of named nodes, behind restarts, too.
pub fn named_worlds_say_what_stood()
    ensures { NamedWorldsSayWhatStood }
{}

/// And who refuses a join as no member shows then that it isn't joined.
pub fn refuses_while_lone()
    ensures { RefusesWhileLone }
{}

/// A strike that is owed comes first: what a registrar begins by an event while one is owed is that strike.
pub fn strikes_come_first()
    ensures { StrikesComeFirst }
{}

/// The greatest node of a set, by the function that picks whom a round asks first, is one of it, and none of it is greater.
pub fn tells_the_greatest()
    ensures { TellsTheGreatest }
{}

/// Worked scripts, computed: two notices of one join, and none that is for another process of the node.
pub fn notices_of_one_join()
    ensures two_notices_of_one_join { Computes two_notices_of_one_join }
    ensures both_are_sent_two { Computes both_are_sent_two }
{}
