//! What holds a node's turns back.
ghost use Rattle.std.specs.Prelude.{ℕ, ◌≡◌};

use term::Node;

/// It is asked before each turn of a node.
pub trait Gate: Sync {
    /// A turn of this node was held until it might go on.
    ghost held: { Self → ℕ → Type 0 };

    /// Returns where the turn of this node may go on. It may wait.
    fn hold(&self, node: &Node)
        ensures { held self.now node.now };
}

/// That a gate let a turn of this node go on. Nothing else opens the rest of a turn.
#[derive(Drop)]
pub(crate) struct Permit<'g, G: Gate> {
    gate: &'g G,
    node: Node,
    ghost held: { ∥ G.held gate.now node ∥₁ },
}

impl<'g, G: Gate> Permit<'g, G> {
    /// Asks the gate, and returns where the turn of this node may go on. It may wait.
    pub(crate) fn ask(gate: &'g G, node: Node) -> Self
        ensures node { result.node ≡ node }
        ensures held { G.held gate.now node }
    {
        gate.hold(&node);
        Permit { gate, node }
    }
}

/// A gate that holds nobody back.
#[derive(Clone, Copy, Debug)]
pub struct OpenGate;

impl Gate for OpenGate {
    ghost held = { λ gate node. Unit {0} };

    fn hold(&self, _node: &Node) {}
}
