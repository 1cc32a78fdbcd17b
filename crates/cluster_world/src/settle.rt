//! Worlds that are settled, and finished.
ghost use Rattle.std.specs.Prelude.{◌≡◌, IfOk, IfErr, OnOk, OnErr, MatchBool, None};
ghost use Rattle.getting_through.specs.NamedFinishing.{first_refused};
ghost use Rattle.getting_through.specs.NamedScript.{next_named};
ghost use Rattle.cluster_world.specs.Playing.{Keeps, WaitsOn};
ghost use Rattle.cluster_world.specs.Finishing.{seems_refused, next_to_finish, RetriesInto, HasMore, Finishes, StopsFinishing};
ghost use Rattle.cluster_world.specs.Seen.{names_of, named};
ghost use Rattle.cluster_world.specs.Settling.{HasNext, DeliversInto, PlaysOn, Settles, StopsSettling};
ghost use Rattle.cluster_world.specs.Whole.{IsWhole};

use crate::world::World;
use name_table::Names;
use node_core::NodeCore;
use std::alloc::{AllocError, Global};
use term::{Node, NodeSet};
use thiserror::Error;
use world_events::{Answer, LocalEvent, WorldEvent};

/// Memory was refused for an event: what was played until then stands, and the world may be gone on with later.
#[derive(Debug, Error, Drop)]
#[error("no_memory")]
pub struct Interrupted {
    /// All answers until then, in order.
    pub answers: Vec<Answer>,
}

/// Whether the core, where these nodes have left, is that of a running node whose registrar is at an operation, and waits for no
/// contact. Where no letter waits no registrar asks for the global lock or has it, so this one was refused it.
fn is_refused<N: Names<Memory = Global>>(departed: &NodeSet, core: &NodeCore<N>) -> bool
    ensures { result ≡ seems_refused departed.now core.now }
{
    !departed.reaches(core.node()) && core.current().is_some() && core.join_number().is_none()
}

impl<N: Names<Memory = Global>> World<N> {
    ghost use Rattle.std.specs.Prelude.{[]};

    /// Makes the delivery that `settle` makes next, and puts its answers behind those given before: whether a letter waited. Room for
    /// them is had before it is made.
    fn deliver_into(&mut self, answers: &mut Vec<Answer>) -> Result<bool, AllocError>
        ensures kept { Keeps self.old self.new }
        ensures delivered { IfOk result (λ delivered. MatchBool delivered
            (DeliversInto self.old self.new answers.old.items answers.new.items)
            (WaitsOn None self.old × (self.new ≡ self.old) × (answers.new.items ≡ answers.old.items))) }
        ensures waits { OnErr result (HasNext self.old) }
        ensures as_before { OnErr result (named self.new ≡ named self.old) }
        ensures unanswered { OnErr result (answers.new.items ≡ answers.old.items) }
    {
        let Some(delivery) = self.next_letter() else {
            return Ok(false);
        };
        answers.reserve(self.cores[delivery.link.receiver].most_answers())?;
        let mut given = self.read(&delivery)?;
        let _ = answers.append(&mut given);
        Ok(true)
    }

    /// Makes deliveries until no letter waits, and puts their answers behind those given before.
    fn settle_into(&mut self, answers: &mut Vec<Answer>) -> Result<(), AllocError>
        ensures kept { Keeps self.old self.new }
        ensures made { PlaysOn next_named self.old self.new answers.old.items answers.new.items }
        ensures settled { OnOk result (WaitsOn None self.new) }
        ensures waits { OnErr result (HasNext self.new) }
    {
        while self.deliver_into(answers)? {}
        Ok(())
    }

    /// Delivers until no letter waits, always the oldest letter of the first link that has one, and gives all answers in order. There is
    /// no limit: each delivery lowers the work that is left. Behind it nothing is waited for but retries, and each `del_lock` of a
    /// running node is answered, unless its process is dead.
    ///
    /// Where memory is refused for a delivery those before it stand, with the answers that the error has. What holds behind an event
    /// that is played holds behind these deliveries in both cases.
    pub fn settle(&mut self) -> Result<Vec<Answer>, Interrupted>
        ensures kept { Keeps self.old self.new }
        ensures settled { IfOk result (λ answers. Settles self.old self.new answers.items) }
        ensures stopped { IfErr result (λ stop. StopsSettling self.old self.new stop.answers.items) }
    {
        let mut answers = Vec::new(*self.cores.allocator());
        match self.settle_into(&mut answers) {
            Ok(()) => Ok(answers),
            Err(AllocError) => Err(Interrupted { answers }),
        }
    }

    /// The first running node whose registrar was refused and waits for a retry, where no letter waits.
    fn first_refused(&self) -> Option<Node>
        requires { WaitsOn None self.now }
        ensures first { result ≡ first_refused (names_of self.now) (named self.now) }
        ensures whole { IsWhole self.now }
    {
        let departed = self.links.departed();
        for core in &self.cores {
            if is_refused(departed, core) {
                return Some(core.node().copy());
            }
        }
        None
    }

    /// Retries the first running node whose registrar was refused, where no letter waits, and puts the answers behind those given
    /// before: whether there is such a node.
    fn retry_into(&mut self, answers: &mut Vec<Answer>) -> Result<bool, AllocError>
        requires { WaitsOn None self.old }
        ensures kept { Keeps self.old self.new }
        ensures retried { IfOk result (λ retried. MatchBool retried
            (RetriesInto self.old self.new answers.old.items answers.new.items)
            ((first_refused (names_of self.old) (named self.old) ≡ None) × (self.new ≡ self.old)
            × (answers.new.items ≡ answers.old.items))) }
        ensures waits { OnErr result (HasMore self.old) }
        ensures as_before { OnErr result (named self.new ≡ named self.old) }
        ensures unanswered { OnErr result (answers.new.items ≡ answers.old.items) }
        ensures whole { IsWhole self.old }
    {
        let Some(node) = self.first_refused() else {
            return Ok(false);
        };
        // The protocol accepts it, so memory alone may be refused.
        match self.play_into(&WorldEvent::At(node, LocalEvent::Retry), answers) {
            Ok(()) => Ok(true),
            Err(_) => Err(AllocError),
        }
    }

    /// Makes deliveries and retries until no letter waits and no registrar of a running node is refused, and puts their answers behind
    /// those given before.
    fn finish_into(&mut self, answers: &mut Vec<Answer>) -> Result<(), AllocError>
        ensures kept { Keeps self.old self.new }
        ensures made { PlaysOn next_to_finish self.old self.new answers.old.items answers.new.items }
        ensures finished { OnOk result (next_to_finish (names_of self.new) (named self.new) ≡ None) }
        ensures waits { OnErr result (HasMore self.new) }
    {
        self.settle_into(answers)?;
        while self.retry_into(answers)? {
            self.settle_into(answers)?;
        }
        Ok(())
    }

    /// Settles the world; then, while the registrar of a running node was refused, retries the first such node and settles it again. Gives
    /// all answers in order. There is no limit: each retry lowers what is pending. Behind it nothing waits but lock calls: each registrar
    /// of a running node is free, with nothing queued, and each name call and each join is answered.
    ///
    /// Where memory is refused for an event those before it stand, with the answers that the error has. What holds behind an event that
    /// is played holds behind these in both cases.
    pub fn finish(&mut self) -> Result<Vec<Answer>, Interrupted>
        ensures kept { Keeps self.old self.new }
        ensures finished { IfOk result (λ answers. Finishes self.old self.new answers.items) }
        ensures stopped { IfErr result (λ stop. StopsFinishing self.old self.new stop.answers.items) }
    {
        let mut answers = Vec::new(*self.cores.allocator());
        match self.finish_into(&mut answers) {
            Ok(()) => Ok(answers),
            Err(AllocError) => Err(Interrupted { answers }),
        }
    }
}
