//! What a node's loop writes its steps to.
ghost use Rattle.std.specs.Prelude.{◌≡◌, [], ◌∷◌, ◌++◌, None, true, length, OnOk, OnErr};
ghost use Rattle.world_events.specs.declared.events.WorldEvent.TheVariants.{Deliver};
ghost use Rattle.node_log.specs.Entries.{Logged};
ghost use Rattle.node_log.specs.Logs.{answered};

use std::alloc::{AllocError, Global};
use term::{Node, NodeSet};
use world_events::{Answer, WorldEvent};

/// A record of the steps of a node: a log, or one of which no step is kept. Contracts see all steps, whether they are kept or not.
pub trait Record: Sized + Drop {
    /// Whose it is, its steps, the oldest first, and whether there is room for one more.
    ghost logged: { Self → Logged };

    /// That of a node of this world, without a step. It takes no memory.
    fn new(alloc: Global, node: Node, world: &NodeSet) -> Self
        ensures node { (logged result).node ≡ node }
        ensures entries { (logged result).entries ≡ [] };

    /// Whose it is.
    fn node(&self) -> &Node
        ensures { result.now ≡ (logged self.now).node };

    /// How many steps there were.
    fn count(&self) -> u64
        ensures { result ≡ length (logged self.now).entries };

    /// Makes room for a step more. Where it can't nothing changes.
    fn reserve(&mut self) -> Result<(), AllocError>
        ensures node { (logged self.new).node ≡ (logged self.old).node }
        ensures entries { (logged self.new).entries ≡ (logged self.old).entries }
        ensures room { OnOk result ((logged self.new).has_room ≡ true) }
        ensures err { OnErr result (logged self.new ≡ logged self.old) };

    /// Puts a step at the end that has no answers yet: that of an event, and of the seat that it came from, if it did. It takes no
    /// memory, since there is room.
    fn put(&mut self, stamp: u64, seat: Option<u32>, event: WorldEvent)
        requires { (logged self.old).has_room ≡ true }
        ensures node { (logged self.new).node ≡ (logged self.old).node }
        ensures entries { (logged self.new).entries ≡ (logged self.old).entries ++ record { stamp = stamp; seat = seat; event = event; answers = [] } ∷ [] };

    /// Puts a step at the end that has no answers yet: that of the delivery of the oldest letter from a node. It takes no memory, since
    /// there is room.
    fn put_delivery(&mut self, stamp: u64, sender: &Node)
        requires { (logged self.old).has_room ≡ true }
        ensures node { (logged self.new).node ≡ (logged self.old).node }
        ensures entries { (logged self.new).entries ≡ (logged self.old).entries ++ record { stamp = stamp; seat = None; event = Deliver sender.now (logged self.old).node; answers = [] } ∷ [] };

    /// Gives the last step its answers.
    fn answer(&mut self, answers: Vec<Answer>)
        ensures node { (logged self.new).node ≡ (logged self.old).node }
        ensures answered { (logged self.new).entries ≡ answered answers.items (logged self.old).entries };
}
