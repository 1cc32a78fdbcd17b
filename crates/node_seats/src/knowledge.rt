//! What is known of a node, at whichever of its seats.
ghost use Rattle.std.specs.Prelude.{◌≡◌};
ghost use Rattle.std.specs.Option.{ForSome};
ghost use Rattle.node_seats.specs.Fences.{HasGranted};
ghost use Rattle.node_seats.specs.Knowing.{nothing_known};
ghost use Rattle.node_seats.specs.Replies.{HasShown};

use std::marker::Model;
use term::Node;

/// What somebody knows of a node who goes from one of its seats to another: how long its log was when he was answered, or looked a name up,
/// and by which of its steps he was granted a lock last. A seat that knows it, too, looks names up in no older table.
#[derive(Drop)]
pub struct Knowledge {
    node: Node,
    told: u64,
    granted: Option<u64>,
    ghost shown: { HasShown node told },
    ghost logged: { ForSome granted (λ stamp. HasGranted node stamp) },
}

impl Model for Knowledge {
    ghost use Rattle.node_seats.specs.Knowing.{Known};

    ghost Value = { Known };

    ghost view = { λ k. record { node = k.node; told = k.told; granted = k.granted } };
}

impl Knowledge {
    /// That of somebody who knows nothing of this node yet, and was granted no lock.
    #[tactic(auto, using(crate::proofs::ShownLengths::nothing_told))]
    pub fn new(node: Node) -> Self
        ensures { result ≡ nothing_known node }
    {
        Knowledge {
            node,
            told: 0,
            granted: None,
        }
    }

    /// That of somebody who was told of a log of this node that is so long, behind which its readers were shown its table, and was granted a lock
    /// last by a step of this stamp.
    pub(crate) fn of(node: Node, told: u64, granted: Option<u64>) -> Self
        requires shown { HasShown node told }
        requires logged { ForSome granted (λ stamp. HasGranted node stamp) }
        ensures { result ≡ record { node = node; told = told; granted = granted } }
    {
        Knowledge {
            node,
            told,
            granted,
        }
    }

    /// The node.
    pub fn node(&self) -> &Node
        ensures { result.now ≡ self.now.node }
    {
        &self.node
    }

    /// The length of its log.
    pub(crate) fn told(&self) -> u64
        ensures told { result ≡ self.now.told }
        ensures shown { HasShown self.now.node self.now.told }
    {
        self.told
    }

    /// The stamp of the step that granted a lock last.
    pub(crate) fn granted(&self) -> Option<u64>
        ensures granted { result ≡ self.now.granted }
        ensures logged { ForSome self.now.granted (λ stamp. HasGranted self.now.node stamp) }
    {
        self.granted
    }
}
