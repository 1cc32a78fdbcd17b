//! The step of an event, for whoever keeps no history.
ghost use Rattle.std.specs.Prelude.{◌≡◌, ◌++◌, OnErr, IfOk, IfErr};

use crate::node::NodeCore;
use name_table::Names;
use node_events::{Answer, Cause, Event, Letter, StepFault, Turn};
use std::alloc::Global;
use term::Node;

impl<N: Names<Memory = Global>> NodeCore<N> {
    ghost use Rattle.node_events.specs.Made.{Made};
    ghost use Rattle.node_events.specs.Seen.{fault_of};
    ghost use Rattle.node_core.specs.Steps.{Steps, refusal_of};

    /// Takes the step of an event: gives its answers, and puts its letters, each with the name of its receiver, behind those that are
    /// there. Its entries of the history it doesn't give. Where the event or memory is refused nothing changes, and no letter is put
    /// there: so a copy of the node takes the step. Worlds and loops call `refusal` and `accept`, which mostly need none.
    pub fn step(
        &mut self,
        event: &Event,
        letters: &mut Vec<(Node, Letter)>,
    ) -> Result<Vec<Answer>, StepFault>
        ensures name { self.new.name ≡ self.old.name }
        ensures world { self.new.world ≡ self.old.world }
        ensures ok { IfOk result (λ answers. (made : Made) × Steps event.now self.old self.new made
            × (letters.new.items ≡ letters.old.items ++ made.letters) × (answers.items ≡ made.answers)) }
        ensures refused { IfErr result (λ fault. refusal_of event.now self.old ≡ fault_of fault) }
        ensures unchanged { OnErr result (self.new ≡ self.old) }
        ensures unsent { OnErr result (letters.new.items ≡ letters.old.items) }
    {
        let cause = Cause::of(event);
        if let Some(fault) = self.refusal(cause) {
            return Err(fault);
        }
        let Ok((copy, turn)) = self.stepped(cause, self.new_turn()) else {
            return Err(StepFault::Memory);
        };
        let Turn {
            letters: mut sent,
            answers,
            ..
        } = turn;
        if letters.append(&mut sent).is_err() {
            return Err(StepFault::Memory);
        }
        *self = copy;
        Ok(answers)
    }
}
