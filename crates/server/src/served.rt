//! What consoles begin with, and what they leave behind.
ghost use Rattle.std.specs.Prelude.{◌≡◌, ◌++◌, ◌∷◌, [], IfOk, OnOk};
ghost use Rattle.server.specs.Served.{transcripts_in, witnesses_in};

use node_threads::{FreeSeat, SeatFault, Token, Transcript};
use std::alloc::{AllocError, Global};
use std::snapshot::Snapshot;
use std::thread::Promise;
use term::{Node, NodeSet};

/// The seat that a console has, or why it has none.
pub(crate) type Place = Result<FreeSeat, SeatFault>;

/// What a console begins with: the nodes to which it may be attached, and its seat.
#[derive(Drop)]
pub(crate) struct Start {
    pub(crate) nodes: NodeSet,
    pub(crate) place: Place,
}

/// The moments that the seat of a console knew of its node when it was left.
#[derive(Drop)]
pub(crate) struct Witness {
    pub(crate) node: Node,
    pub(crate) token: Token,
}

/// What a console leaves behind.
#[derive(Drop)]
pub(crate) enum Left {
    /// The transcript of its seat, and what the seat knew of its node.
    Served(Transcript, Witness),
    /// Its seat, from which nothing was asked, or why it had none.
    Unserved(Place),
}

/// That a console left behind what one does that began so.
#[derive(Drop)]
pub(crate) struct LeftBehind(pub(crate) Snapshot<Start>);

impl Promise<Left> for LeftBehind {
    ghost use Rattle.server.specs.Served.{LeavesBehind};

    ghost kept_by = { λ promise left. LeavesBehind promise.0.value left };
}

/// What consoles left of their seats, each in its turn: the transcripts, and the moments that these knew.
#[derive(Drop)]
pub(crate) struct Legacy {
    pub(crate) transcripts: Vec<Transcript>,
    pub(crate) witnesses: Vec<Witness>,
}

impl Legacy {
    /// That of no console.
    fn new(alloc: Global) -> Self
        ensures transcripts { result.transcripts.items ≡ [] }
        ensures witnesses { result.witnesses.items ≡ [] }
    {
        Legacy {
            transcripts: Vec::new(alloc),
            witnesses: Vec::new(alloc),
        }
    }

    /// Puts what is left of a seat behind the others.
    fn put(&mut self, transcript: Transcript, witness: Witness) -> Result<(), AllocError>
        ensures transcripts { OnOk result (self.new.transcripts.items ≡ self.old.transcripts.items ++ transcript ∷ []) }
        ensures witnesses { OnOk result (self.new.witnesses.items ≡ self.old.witnesses.items ++ witness ∷ []) }
    {
        self.transcripts.push(transcript)?;
        self.witnesses.push(witness)?;
        Ok(())
    }
}

/// Puts what a console left of its seat, if it had one, behind the others.
fn keep(left: Left, legacy: &mut Legacy) -> Result<(), AllocError>
    ensures transcripts { OnOk result (legacy.new.transcripts.items ≡ legacy.old.transcripts.items ++ transcripts_in (left ∷ [])) }
    ensures witnesses { OnOk result (legacy.new.witnesses.items ≡ legacy.old.witnesses.items ++ witnesses_in (left ∷ [])) }
{
    match left {
        Left::Served(transcript, witness) => legacy.put(transcript, witness),
        Left::Unserved(_) => Ok(()),
    }
}

/// What these consoles left of their seats, in their order.
pub(crate) fn legacy_of(alloc: Global, lefts: Vec<Left>) -> Result<Legacy, AllocError>
    ensures transcripts { IfOk result (λ legacy. legacy.transcripts.items ≡ transcripts_in lefts.items) }
    ensures witnesses { IfOk result (λ legacy. legacy.witnesses.items ≡ witnesses_in lefts.items) }
{
    let mut legacy = Legacy::new(alloc);
    for left in lefts {
        keep(left, &mut legacy)?;
    }
    Ok(legacy)
}
