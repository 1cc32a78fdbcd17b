//! How a world takes in what a step of a node has made.
ghost use Rattle.std.specs.Prelude.{◌≡◌, ◌≤◌, ◌-◌, ◌^◌, ◌++◌, length, map, min, true, None, Some};
ghost use Rattle.std.specs.List.{All};
ghost use Rattle.protocol_model.specs.Links.{posted};
ghost use Rattle.term.specs.NodeSets.{with_older};
ghost use Rattle.link.specs.MeshState.{place as place_in};
ghost use Rattle.node_core.specs.NodeEventsSeen.{entry_by};
ghost use Rattle.world_history.specs.Histories.{entries_of};
ghost use Rattle.cluster_world.specs.Histories.{number_at};
ghost use Rattle.cluster_world.specs.Links.{letters_to};
ghost use Rattle.cluster_world.specs.Mail.{links_of};

use crate::history::enter_all;
use crate::mail::Mail;
use name_table::Names;
use node_core::NodeCore;
use std::alloc::Global;
use term::Node;
use world_events::{Answer, Turn};
use world_history::History;

/// Puts the letters of a step of the node at this place on their links, and its entries, where the node had the join `own` before the
/// step, at the end of the history. Gives its answers, and the memory of the others for a later step. It takes no memory that can be
/// refused.
pub(crate) fn take_in<N: Names<Memory = Global>>(
    turn: Turn,
    place: usize,
    node: &Node,
    own: u32,
    cores: &[NodeCore<N>],
    links: &mut Mail,
    history: &mut History,
) -> (Vec<Answer>, Turn)
    requires sent { links.old.unsent ≡ None }
    requires node { place_in node.now links.old.nodes ≡ Some place }
    requires within { All (λ s. with_older links.old.nodes s.0 ≡ true) turn.letters }
    requires room { min (2 ^ 64 - 1) (length turn.entries) ≤ history.old.room }
    ensures nodes { links.new.nodes ≡ links.old.nodes }
    ensures departed { links.new.departed ≡ links.old.departed }
    ensures links { links_of links.new ≡ posted node.now (λ t. letters_to t turn.letters) (links_of links.old) }
    ensures entries { entries_of history.new.entries
        ≡ entries_of history.old.entries ++ map (entry_by (number_at cores.now node.now own)) turn.entries }
    ensures answers { result.0.items ≡ turn.answers }
{
    let Turn {
        mut letters,
        mut entries,
        answers,
    } = turn;
    let alloc: Global = *answers.allocator();
    links.post(place, node, &mut letters);
    enter_all(history, &mut entries, cores, node, own);
    let spare = Turn {
        letters,
        entries,
        answers: Vec::new(alloc),
    };
    (answers, spare)
}
