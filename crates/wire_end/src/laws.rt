//! What holds of every end of lines.
ghost use Rattle.std.specs.Prelude.{ℕ, List};
ghost use Rattle.protocol_model.specs.World.{Opening};
ghost use Rattle.node_loop.specs.Dealings.{Deals};
ghost use Rattle.wire_end.specs.Wirings.{Posts, Takes};
ghost use Rattle.wire_end.specs.Dealings.{dealt_of, leads_inside, leads_among, StayAmong};
ghost use Rattle.wire_end.specs.Order.{StayInOrder, KeepTheirOwn};
ghost use Rattle.wire_end.specs.Runs.{LinesArePrinted, EndsHaveARun};
ghost use Rattle.wire_end.specs.Returning.{NamedEndsHaveARun};
ghost use Rattle.node_loop.specs.Returning.{DealsAmong};

/// An end of lines deals as the letters say that it sent and took: each sending is behind the others to its node, each letter that is taken
/// behind the others from its node, and none is taken from a stranger. So a node's loop over it stays sound.
pub fn ends_deal()
    ensures { (o : Opening) → Deals Posts Takes o (leads_inside o) dealt_of }
{}

/// And as long as it leads among the nodes of a world that its node knows of, as these may be replaced by younger ones, each letter that is
/// taken is of one that has started, and says what that may say. So a node's loop over it stays sound where nodes come back.
pub fn ends_deal_among()
    ensures { (world : List ℕ) (name : ℕ) → DealsAmong Posts Takes world name (leads_among world name) dealt_of }
{}

/// And an end leads among the nodes of a world from its beginning on, whatever it hears and whoever is gone; where the next node of a name starts, it
/// leads among those that are at present then.
pub fn ends_stay_among()
    ensures { StayAmong }
{}

/// An end of lines begins in order, and stays so whatever it sends, takes, reads, is asked or prints: the lines of each link spell what came of its
/// node, and what was printed, and is to be, is the lines of the letters that were sent to others, numbered from 1 on.
pub fn ends_stay_in_order()
    ensures { StayInOrder }
{}

/// A node's letters to itself stay inside its end, whatever that does: they are taken in the order in which they were sent, and none of
/// them comes or goes on a line.
pub fn ends_keep_their_own()
    ensures { KeepTheirOwn }
{}

/// What an end in order printed, and is to print, is the texts of the lines of its letters to others, letter after letter, and on each link
/// line after line.
pub fn lines_are_printed()
    ensures { LinesArePrinted }
{}

/// Where what each node read of another begins what that prints for it, and nobody was told that a node is gone without a word, the logs
/// of all have one run, which the world plays to its end; and behind it the headline holds, clients' locks exclude each other and are
/// answered as they are to be, and nothing is left over. So it is of programs that run one node each.
pub fn ends_have_a_run()
    ensures { EndsHaveARun }
{}

/// The same where nodes come back: each creation of a name is a node of its own, which starts alone, told of those that have left. The logs of
/// those that ran, the notices of their starts before the others, have one run, which the world of all creations plays to its end; and
/// behind it the headline holds, clients' locks exclude each other and are answered as they are to be, and nothing is left over, where nodes
/// that never start are left out of account.
pub fn named_ends_have_a_run()
    ensures { NamedEndsHaveARun }
{}
