//! A publisher that a thread may own.
ghost use Rattle.std.specs.Prelude.{◌≡◌, ◌∷◌, ◌++◌, [], true, IfOk};
ghost use Rattle.node_books.specs.Owing.{shown_by};
ghost use Rattle.node_books.specs.Coming.{HandsOver};
ghost use Rattle.node_books.specs.Moments.{moment};
ghost use Rattle.shared_table.specs.Publishing.{Publishes, IsAllShown, IsWritten};

use crate::publisher::{LastTable, Publisher};
use name_table::Names;
use node_books::{NodeLoop, Past, Record, Scribe, ScribeFault};
use std::alloc::Global;
use std::sync::Wait;

/// A publisher with the handle by which it waits. It may be dropped, so it may go into a thread and come back from it; behind its drop
/// readers find nothing.
pub struct KeptPublisher<R: Wait + Drop> {
    /// The publisher.
    pub publisher: Publisher,
    rt: R,
}

impl<R: Wait + Drop> Drop for KeptPublisher<R> {
    fn drop(self) {
        let Self { publisher, rt } = self;
        drop(publisher.close(&rt));
    }
}

impl<R: Wait + Drop> KeptPublisher<R> {
    /// Keeps a publisher.
    pub fn new(rt: R, publisher: Publisher) -> Self
        ensures { result.publisher ≡ publisher }
    {
        KeptPublisher { publisher, rt }
    }

    /// Writes down how a node's loop stands, shows its readers all that the loop owes them, and says whether it did both: where memory is
    /// refused, they see what they saw, and the loop, or what waits, owes it still. It waits as `Publisher::publish` does.
    pub fn show<N: Names<Memory = Global>, L: Record>(
        self,
        node: &mut NodeLoop<N, L>,
    ) -> (Self, bool)
        requires { Publishes node.old self.publisher }
        ensures publishes { Publishes node.new result.0.publisher }
        ensures shown { result.1 ≡ true → result.0.publisher.shown ≡ shown_by node.new }
        ensures all { result.1 ≡ true → IsAllShown result.0.publisher }
        ensures written { result.1 ≡ true → IsWritten node.new result.0.publisher }
        ensures node { HandsOver node.old node.new }
        ensures book { result.0.publisher.known.book ≡ self.publisher.known.book }
    {
        let Self { mut publisher, rt } = self;
        if publisher.note(node).is_err() {
            return (KeptPublisher { publisher, rt }, false);
        }
        let (publisher, done) = publisher.publish(&rt);
        (KeptPublisher { publisher, rt }, done.is_ok())
    }

    /// Writes down how the loop stands at its end, as `Publisher::seal` does.
    pub fn seal<N: Names<Memory = Global>, L: Record>(
        self,
        node: &NodeLoop<N, L>,
    ) -> (LastTable, Result<Past, ScribeFault>)
        requires { Publishes node.now self.publisher }
        ensures { IfOk result.1 (λ past. past ≡ record self.publisher.known { log = self.publisher.known.log ++ moment true node.now ∷ [] }) }
    {
        let Self { publisher, rt: _rt } = self;
        publisher.seal(node)
    }

    /// From then on readers find nothing. What was written of the node, and who writes on, comes back.
    pub fn close(self) -> Scribe
        ensures { result ≡ self.publisher.known }
    {
        let Self { publisher, rt } = self;
        publisher.close(&rt)
    }
}
