//! Named events in words: which events of a world they are, behind restarts too, and what `settle` delivers and prints.
#![tactic(auto)]

ghost use Rattle.named_events.specs.Events.{NamedEventsAreOfNodes, NamedEventsFollow};
ghost use Rattle.named_events.specs.Settling.{SettlingByName};
ghost use Rattle.named_events.specs.Printing.{PrintingByName};

/// An event at a node that has started is that event of the world, refused, answered, played and carried out as there; at a name it
/// is that at the name's present node, a delivery from name to name takes the letters of older nodes first, and a restart delivers
/// the notices of those that have left. What hasn't started is no node, and what is refused changes nothing.
pub fn events_are_of_nodes()
    ensures { NamedEventsAreOfNodes }
{}

/// A world of named nodes opens with the first node of each name, and events happen and are played one after the other.
pub fn events_follow_each_other()
    ensures { NamedEventsFollow }
{}

/// `settle` delivers the first letter that waits, by names, again and again; it prints the answers in that order, and `settled`
/// exactly where no letter waits for a running node any more.
pub fn settling_delivers_the_first()
    ensures { SettlingByName }
{}

/// A line of a script prints the answers of its event, or why it is refused; a look prints the table or the members of the name's
/// present node; and lines are printed one after the other.
pub fn printing_is_by_name()
    ensures { PrintingByName }
{}
