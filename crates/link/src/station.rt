//! What a node sends by and takes from.
ghost use Rattle.std.specs.Prelude.{ℕ, ◌≡◌, MatchResult, MatchOption};
ghost use Rattle.link.specs.declared.faults.LinkFault.{LinkFault as Why};

use crate::faults::{LinkFault, Unsent};
use term::Node;

/// A node's end of its links: what its sends and takings change.
pub trait Station {
    /// What contracts see of it.
    type State;

    ghost state: { Self → Self.State };
}

/// Where a node sends its letters.
pub trait Post<L>: Station {
    /// A letter was sent to this node.
    ghost posts: { Self.State → ℕ → L → Self.State → Type 0 };

    /// A letter to this node was handed back, for this fault.
    ghost refuses: { Self.State → ℕ → L → Why → Type 0 };

    /// Sends a letter, or hands it back.
    fn send(&mut self, to: &Node, letter: L) -> Result<(), Unsent<L>>
        ensures { MatchResult result
            (λ _. posts (Self.state self.old) to.now letter (Self.state self.new))
            (λ unsent. (unsent.letter ≡ letter) × (Self.state self.new ≡ Self.state self.old)
            × refuses (Self.state self.old) to.now letter unsent.fault) };
}

/// Where a node takes its letters.
pub trait Inbox<L>: Station {
    /// A letter from this node was taken.
    ghost takes: { Self.State → ℕ → L → Self.State → Type 0 };

    /// No letter was found, or the taking failed.
    ghost misses: { Self.State → Type 0 };

    /// The taking failed, for this fault.
    ghost fails: { Self.State → Why → Type 0 };

    /// Takes a letter, if it finds any, and says who sent it.
    fn take(&mut self) -> Result<Option<(Node, L)>, LinkFault>
        ensures { MatchResult result
            (λ found. MatchOption found
            ((Self.state self.new ≡ Self.state self.old) × misses (Self.state self.old))
            (λ x. takes (Self.state self.old) x.0 x.1 (Self.state self.new)))
            (λ fault. (Self.state self.new ≡ Self.state self.old) × misses (Self.state self.old) × fails (Self.state self.old) fault) };
}
