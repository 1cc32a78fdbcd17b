//! Laws of histories.
ghost use Rattle.std.specs.Prelude.{List};
ghost use Rattle.registry_model.specs.Process.{Nodes};
ghost use Rattle.registry_model.specs.History.{Entry};
ghost use Rattle.registry_model.specs.Legal.{IsLegal};
ghost use Rattle.registry_model.specs.Sample.{sample, SampleHolds};
ghost use Rattle.registry_model.specs.HistoryLaws.{OneOwner, YesToTheFree, CallsAreCarriedOut, NamesStand, NeverOverlap, HoldsUntilDone, OldLeavesOut, DeadForGood, NoticesStay, JoinsOnce};

/// In the table of each group no name has two owners.
pub fn one_owner()
    ensures { (cluster : Nodes) (h : List Entry) → OneOwner cluster h }
{}

/// Who is answered yes registered a free name.
pub fn yes_to_the_free()
    ensures { (cluster : Nodes) (h : List Entry) → IsLegal cluster h → YesToTheFree cluster h }
{}

/// Each name call has the reply that its node sees, and is carried out in its group and in no other.
pub fn calls_are_carried_out()
    ensures { (cluster : Nodes) (h : List Entry) → IsLegal cluster h → CallsAreCarriedOut cluster h }
{}

/// A name that a node sees stands until an entry takes it.
pub fn names_stand()
    ensures { (cluster : Nodes) (h : List Entry) → IsLegal cluster h → NamesStand cluster h }
{}

/// While an operation holds, nothing else is decided in its group.
pub fn never_overlap()
    ensures { (cluster : Nodes) (h : List Entry) → IsLegal cluster h → NeverOverlap cluster h }
{}

/// An operation holds from its entry until its node is done.
pub fn holds_until_done()
    ensures { (cluster : Nodes) (h : List Entry) → IsLegal cluster h → HoldsUntilDone cluster h }
{}

/// The registry kept beside an operation that holds is that of the history without its entry.
pub fn old_leaves_out()
    ensures { (cluster : Nodes) (h : List Entry) → OldLeavesOut cluster h }
{}

/// Who dies is dead for good, and nobody else is dead.
pub fn dead_for_good()
    ensures { (cluster : Nodes) (h : List Entry) → DeadForGood cluster h }
{}

/// What a process was sent stays: each entry adds what it sends, a join that of its settlement and any other entry nothing.
pub fn notices_stay()
    ensures { (cluster : Nodes) (h : List Entry) → NoticesStay cluster h }
{}

/// A node joins once, and is joined ever after.
pub fn joins_once()
    ensures { (cluster : Nodes) (h : List Entry) → IsLegal cluster h → JoinsOnce cluster h }
{}

/// Legal histories exist: one of most kinds of entry.
pub fn sample()
    ensures { SampleHolds sample }
{}
