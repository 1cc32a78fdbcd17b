//! Who publishes a node's table.
ghost use Rattle.std.specs.Prelude.{◌≡◌, ◌<◌, ◌^◌, [], ◌∷◌, ◌++◌, true, false, drop, IfOk, OnOk, OnErr, length as list_length};
ghost use Rattle.logbook.specs.Pages.{Book};
ghost use Rattle.node_books.specs.Editions.{opening};
ghost use Rattle.node_books.specs.Owing.{shown_by};
ghost use Rattle.node_books.specs.Coming.{IsLoopOf, HandsOver};
ghost use Rattle.node_books.specs.Moments.{moment, shown_at};
ghost use Rattle.shared_table.specs.Publishing.{Progress, IsAllShown, IsWritten, IsSound, held_back, Publishes as Follows};
ghost use Rattle.shared_table.specs.Rule.{mark_at};

use crate::chute::Chute;
use crate::idle::{Idle, IdleReaders};
use crate::rule::{Mark, Notes, OneBook, Publishes};
use crate::shown::{Shown, Stamp};
use left_right::writer::Writer;
use name_table::Names;
use node_books::{NodeLoop, Past, Record, Scribe, ScribeFault, Token};
use std::alloc::{AllocError, Global};
use std::marker::Model;
use std::sync::Wait;

/// The writer of a node's table.
type TableWriter = Writer<Shown, Stamp, Mark, OneBook>;

/// Publishes a node's table, and writes the moments of the node into its book. It can't be dropped: `close` ends it, or a `KeptPublisher`
/// does. Contracts see the book, with the moments that were written there, and the edition that readers are shown.
pub struct Publisher {
    alloc: Global,
    writer: TableWriter,
    scribe: Scribe,
    /// How many moments were written.
    count: u64,
    /// That the book was opened.
    origin: Token,
    /// What found no place among what waits.
    held: Option<Stamp>,
}

/// A table that is published no more, and read still. It can't be dropped: `close` ends it.
pub struct LastTable {
    writer: TableWriter,
}

impl Model for Publisher {
    ghost use Rattle.std.specs.Prelude.{◌≡◌, ◌++◌, [], drop, length as list_length};
    ghost use Rattle.shared_table.specs.Editions.{edition_of};
    ghost use Rattle.shared_table.specs.Publishing.{Progress, IsSound, held_back};
    ghost use Rattle.shared_table.specs.Rule.{mark_at};

    ghost Value = { Progress };

    ghost view = { λ p. record { known = p.scribe; shown = edition_of p.writer.desk.shown.value } };

    ghost invariant = { λ p. (p.count ≡ list_length p.scribe.log) × (p.origin.book ≡ p.scribe.book) × (p.origin.log ≡ [])
        × IsSound p.scribe p.writer.desk.shown.value (drop p.writer.behind p.writer.log.items ++ held_back p.held) (mark_at p.writer.desk.place) };
}

/// Puts an update behind those that wait. It comes back where there is no memory.
fn append(writer: &mut TableWriter, stamp: Stamp) -> Option<Stamp>
    ensures desk { writer.new.desk ≡ writer.old.desk }
    ensures waiting { drop writer.new.behind writer.new.log.items ++ held_back result ≡ drop writer.old.behind writer.old.log.items ++ stamp ∷ [] }
{
    match writer.append(stamp) {
        Ok(()) => None,
        Err(stamp) => Some(stamp),
    }
}

/// Puts what was held back behind those that wait, if anything was. It is held back still where there is no memory.
fn put_in(writer: &mut TableWriter, held: Option<Stamp>) -> Option<Stamp>
    ensures desk { writer.new.desk ≡ writer.old.desk }
    ensures waiting { drop writer.new.behind writer.new.log.items ++ held_back result ≡ drop writer.old.behind writer.old.log.items ++ held_back held }
{
    match held {
        Some(stamp) => append(writer, stamp),
        None => None,
    }
}

impl Publisher {
    /// Makes room for so many readers at once, of the empty table of a node whose loop is at its start. That is written into its book, which is
    /// a new one, and shown.
    pub fn new<N: Names<Memory = Global>, L: Record, R: Wait>(
        rt: &R,
        alloc: Global,
        node: &NodeLoop<N, L>,
        places: usize,
    ) -> Result<Self, AllocError>
        requires places { (0 < places) × (places < 2 ^ 32) }
        requires came { IsLoopOf node.now.log.node node.now }
        requires opens { shown_by node.now ≡ opening node.now.log.node }
        ensures log { IfOk result (λ new. new.known.log ≡ moment false node.now ∷ []) }
        ensures shown { IfOk result (λ new. new.shown ≡ shown_by node.now) }
    {
        let mut scribe = Scribe::new();
        let origin = scribe.token();
        if scribe.add(node).is_err() {
            return Err(AllocError);
        }
        let seen = scribe.token();
        let first = Shown::new(alloc, node.node(), seen.again(), 1);
        let second = Shown::new(alloc, node.node(), seen, 1);
        let writer: TableWriter = Writer::new(alloc, first, second, places)?;
        let (writer, done) = writer.publish_as::<Publishes, R>(rt);
        if done.is_err() {
            drop(writer.take(rt));
            return Err(AllocError);
        }
        Ok(Publisher {
            alloc,
            writer,
            scribe,
            count: 1,
            origin,
            held: None,
        })
    }

    /// A reader of the table.
    fn idle(&mut self) -> Result<Idle, AllocError>
        ensures same { self.new ≡ self.old }
        ensures reader { IfOk result (λ idle. idle.book ≡ self.old.known.book) }
    {
        let mut reader = self.writer.factory().reader()?;
        let note = self.writer.tell::<Notes>();
        reader.learn::<Notes>(note);
        Ok(Idle {
            reader,
            origin: self.origin.again(),
        })
    }

    /// So many readers of the table, each of which waits for a seat.
    pub fn readers(&mut self, many: usize) -> Result<IdleReaders, AllocError>
        requires { 0 < many }
        ensures same { self.new ≡ self.old }
        ensures readers { IfOk result (λ readers. readers ≡ self.old.known) }
    {
        let first = self.idle()?;
        let mut readers = Chute::open(self.alloc, many, first, self.scribe.token())?;
        for _ in 1..many {
            let idle = self.idle()?;
            if readers.put(idle).is_err() {
                return Err(AllocError);
            }
        }
        Ok(readers)
    }

    /// The length of the node's log up to which readers are shown all.
    pub fn shown_length(&self) -> u64
        ensures { result ≡ self.now.shown.length }
    {
        self.writer.published().length
    }

    /// That its node came to the moments that were written.
    pub fn token(&self) -> Token
        ensures book { result.book ≡ self.now.known.book }
        ensures log { result.log ≡ self.now.known.log }
    {
        self.scribe.token()
    }

    /// How many moments were written.
    pub fn count(&self) -> u64
        ensures { result ≡ list_length self.now.known.log }
    {
        self.count
    }

    /// Writes down how a node's loop stands that owes its readers nothing.
    fn write<N: Names<Memory = Global>, L: Record>(
        &mut self,
        node: &NodeLoop<N, L>,
    ) -> Result<(), AllocError>
        requires follows { Follows node.now self.old }
        requires nothing { shown_at self.old.known.log ≡ shown_by node.now }
        ensures ok { OnOk result (shown_at self.new.known.log ≡ shown_by node.now) }
        ensures written { OnOk result (IsWritten node.now self.new) }
        ensures follows { Follows node.now self.new }
        ensures book { self.new.known.book ≡ self.old.known.book }
        ensures shown { self.new.shown ≡ self.old.shown }
    {
        if self.count == u64::MAX {
            return Err(AllocError);
        }
        if self.scribe.add(node).is_err() {
            return Err(AllocError);
        }
        self.count += 1;
        Ok(())
    }

    /// Notes what a node's loop owes its readers, if it owes them anything, and writes down how the loop stands then, with the replies that
    /// it holds. Where memory is refused, it owes it still, or what it owed waits for a place.
    pub fn note<N: Names<Memory = Global>, L: Record>(
        &mut self,
        node: &mut NodeLoop<N, L>,
    ) -> Result<(), AllocError>
        requires { Follows node.old self.old }
        ensures ok { OnOk result (shown_at self.new.known.log ≡ shown_by node.new) }
        ensures written { OnOk result (IsWritten node.new self.new) }
        ensures follows { Follows node.new self.new }
        ensures node { HandsOver node.old node.new }
        ensures book { self.new.known.book ≡ self.old.known.book }
        ensures shown { self.new.shown ≡ self.old.shown }
    {
        let held = self.held.take();
        self.held = put_in(&mut self.writer, held);
        if self.held.is_some() || self.count == u64::MAX {
            return Err(AllocError);
        }
        let Some(update) = node.next_update(self.alloc)? else {
            return self.write(node);
        };
        if self.scribe.add(node).is_err() {
            node.owe_whole();
            return Err(AllocError);
        }
        self.count += 1;
        let stamp = Stamp {
            update,
            seen: self.scribe.token(),
            count: self.count,
        };
        self.held = append(&mut self.writer, stamp);
        if self.held.is_some() {
            return Err(AllocError);
        }
        Ok(())
    }

    /// Publishes all updates that wait, and nothing where none does. It waits for readers that are in the midst of a look-up in the copy from
    /// before the last publish. Where memory is refused, or was refused for the last of them, readers see what they saw, and the updates wait
    /// still.
    pub fn publish<R: Wait>(self, rt: &R) -> (Self, Result<(), AllocError>)
        ensures known { result.0.known ≡ self.known }
        ensures shown { OnOk result.1 (IsAllShown result.0) }
        ensures unchanged { OnErr result.1 (result.0.shown ≡ self.shown) }
    {
        if self.held.is_some() {
            return (self, Err(AllocError));
        }
        if !self.writer.has_pending_operations() {
            return (self, Ok(()));
        }
        let Publisher {
            alloc,
            writer,
            scribe,
            count,
            origin,
            held,
        } = self;
        let (writer, done) = writer.publish_as::<Publishes, R>(rt);
        let publisher = Publisher {
            alloc,
            writer,
            scribe,
            count,
            origin,
            held,
        };
        (publisher, done)
    }

    /// Writes down how the loop stands at its end: that is the last of the moments. Readers go on to see what they see.
    pub fn seal<N: Names<Memory = Global>, L: Record>(
        self,
        node: &NodeLoop<N, L>,
    ) -> (LastTable, Result<Past, ScribeFault>)
        requires { Follows node.now self }
        ensures { IfOk result.1 (λ past. past ≡ record self.known { log = self.known.log ++ moment true node.now ∷ [] }) }
    {
        let Publisher {
            alloc: _,
            writer,
            scribe,
            count: _,
            origin: _origin,
            held: _held,
        } = self;
        let past = scribe.seal(node);
        (LastTable { writer }, past)
    }

    /// Waits for readers that are in the midst of a look-up. From then on readers find nothing. What was written of the node, and who writes
    /// on, comes back.
    pub fn close<R: Wait>(self, rt: &R) -> Scribe
        ensures { result ≡ self.known }
    {
        let Publisher {
            alloc: _,
            writer,
            scribe,
            count: _,
            origin: _origin,
            held: _held,
        } = self;
        drop(writer.take(rt));
        scribe
    }
}

impl LastTable {
    /// Waits for readers that are in the midst of a look-up. From then on readers find nothing.
    pub fn close<R: Wait>(self, rt: &R) {
        let LastTable { writer } = self;
        drop(writer.take(rt));
    }
}
