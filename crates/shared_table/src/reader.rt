//! Who looks names up in a node's table.
ghost use Rattle.std.specs.Prelude.{◌≡◌, ◌<◌, ◌≤◌, max, IfOk, IfSome, MatchOption, Some, length as list_length};
ghost use Rattle.left_right.specs.Sides.{view};
ghost use Rattle.node_books.specs.Moments.{shown_at};
ghost use Rattle.shared_table.specs.Rule.{Token as AnyToken};
ghost use Rattle.shared_table.specs.Readers.{Finds, Hears, IsFound, Reads, unseen};

use crate::idle::{Idle, IdleReaders, RuledReader};
use crate::rule::Enters;
use name_table::Names;
use node_books::Token;
use std::alloc::AllocError;
use std::marker::Model;
use term::{Name, Pid};

/// What comes of a look-up.
#[derive(Debug, PartialEq, Eq, Drop)]
pub enum Lookup {
    /// Who owns the name, if anybody does.
    Owner(Option<Pid>),
    /// The node has left.
    Left,
    /// The table is older than what the reader was told of. A publisher that tells only of what it has published never lets it come to
    /// that.
    Behind,
    /// Nothing is published any more.
    Gone,
}

/// How often a reader is tried to be lent, or to be given back, while another thread is in the way.
const TRIES: usize = 64;

/// One reader of a node's table. Contracts see the node and its book, the moments that were read, and the length of the node's log that the
/// reader was told of or has read. Where it is dropped, its place goes back to the readers that wait.
pub struct TableReader {
    reader: Option<RuledReader>,
    origin: Token,
    seen: Token,
    /// How many moments it has read.
    count: u64,
    told: u64,
    home: IdleReaders,
}

impl Model for TableReader {
    ghost use Rattle.std.specs.Prelude.{◌≡◌, ◌≤◌, ◌<◌, [], length as list_length};
    ghost use Rattle.node_books.specs.Moments.{shown_at};
    ghost use Rattle.shared_table.specs.Readers.{Placed, IsReaderOf};

    ghost Value = { Placed };

    ghost view = { λ r. record {
      node = (shown_at r.home.log).node;
      seen = record { known = record { book = r.seen.book; log = r.seen.log }; told = r.told };
    } };

    ghost invariant = { λ r. IsReaderOf r.seen.book r.reader × (r.count ≡ list_length r.seen.log) × ((shown_at r.seen.log).length ≤ r.told)
        × (r.origin.book ≡ r.seen.book) × (r.origin.log ≡ []) × (r.home.book ≡ r.seen.book) × (0 < list_length r.home.log) };
}

/// Lends a reader, if one waits and no other thread is in the way all the time.
fn lend(home: &mut IdleReaders) -> Option<Idle>
    ensures same { home.new ≡ home.old }
    ensures idle { IfSome result (λ idle. idle.book ≡ home.old.book) }
{
    for _ in 0..TRIES {
        if let Some(idle) = home.take() {
            return Some(idle);
        }
    }
    None
}

/// Gives a reader back, if no other thread is in the way all the time.
fn give_back(home: IdleReaders, idle: Idle)
    requires { home.book ≡ idle.book }
{
    let mut home = home;
    let mut waiting = idle;
    for _ in 0..TRIES {
        match home.put(waiting) {
            Ok(()) => return,
            Err(idle) => waiting = idle,
        }
    }
}

impl Drop for TableReader {
    fn drop(self) {
        let Self {
            reader,
            origin,
            seen: _seen,
            count: _,
            told: _,
            home,
        } = self;
        if let Some(reader) = reader {
            give_back(home, Idle { reader, origin });
        }
    }
}

/// What one entry finds: who owns the name, how long the node's log was, whether the node had left, and the moments of the node.
#[derive(Drop)]
struct Entry {
    owner: Option<Pid>,
    length: u64,
    left: bool,
    seen: Token,
    count: u64,
}

/// Enters, looks a name up, and leaves. It finds nothing where nothing is published any more.
fn enter(reader: RuledReader, name: &Name) -> (RuledReader, Option<Entry>)
    ensures same { view result.0.place ≡ view reader.place }
    ensures found { MatchOption result.1 (Unit {0}) (λ e. IsFound e name.now × ((s : AnyToken) → view reader.place ≡ Some s → e.seen.book ≡ s.book)) }
{
    let reading = match reader.enter_as::<Enters>() {
        Ok(reading) => reading,
        Err(reader) => return (reader, None),
    };
    let shown = reading.get();
    let entry = Entry {
        owner: shown.table.owner(name),
        length: shown.length,
        left: shown.left,
        seen: shown.seen.again(),
        count: shown.count,
    };
    (reading.leave(), Some(entry))
}

impl TableReader {
    /// One that has read nothing yet, lent from these. `AllocError`: none of them waits.
    pub fn lent(home: IdleReaders) -> Result<Self, AllocError>
        requires { 0 < list_length home.log }
        ensures { IfOk result (λ reader. reader ≡ record { node = (shown_at home.log).node; seen = unseen home.book }) }
    {
        let mut home = home;
        let Some(Idle { reader, origin }) = lend(&mut home) else {
            return Err(AllocError);
        };
        let seen = origin.again();
        Ok(TableReader {
            reader: Some(reader),
            origin,
            seen,
            count: 0,
            told: 0,
            home,
        })
    }

    /// One more, which has read nothing yet. `AllocError`: none waits, or memory was refused.
    pub fn another(&mut self) -> Result<Self, AllocError>
        ensures same { self.new ≡ self.old }
        ensures another { IfOk result (λ reader. reader ≡ record { node = self.old.node; seen = unseen self.old.seen.known.book }) }
    {
        TableReader::lent(self.home.another()?)
    }

    /// The moments that it has read.
    pub fn token(&self) -> Token
        ensures book { result.book ≡ self.now.seen.known.book }
        ensures log { result.log ≡ self.now.seen.known.log }
    {
        self.seen.again()
    }

    /// The length of the node's log that it was told of, or has read.
    pub fn told(&self) -> u64
        ensures { result ≡ self.now.seen.told }
    {
        self.told
    }

    /// It is told that the node's log has this length: a look-up answers from no shorter one then.
    pub fn learn(&mut self, length: u64)
        ensures { self.new ≡ record self.old { seen = record self.old.seen { told = max self.old.seen.told length } } }
    {
        self.told = self.told.max(length);
    }

    /// It is told of these moments, which are so many, and how long a log the last of them shows: a look-up answers from no shorter one then.
    /// That may be an earlier moment than the last that it knows. Where it shows no shorter a log than was told before, it shows the same.
    pub fn hear(&mut self, seen: Token, count: u64, length: u64)
        requires book { seen.book ≡ self.old.seen.known.book }
        requires count { count ≡ list_length seen.log }
        requires some { 0 < count }
        requires long { length ≡ (shown_at seen.log).length }
        ensures node { self.new.node ≡ self.old.node }
        ensures hears { Hears self.old.node seen.log self.old.seen self.new.seen }
        ensures reads { self.old.seen.told ≤ length → Reads self.old.node self.old.seen self.new.seen }
        ensures shows { self.old.seen.told ≤ length → shown_at self.new.seen.known.log ≡ shown_at seen.log }
    {
        let mut both = self.home.token();
        both.learn(&self.seen);
        both.learn(&seen);
        self.told = self.told.max(length);
        if self.count < count {
            self.seen = seen;
            self.count = count;
        }
    }

    /// It has read in the last of these moments, which shows no less than what it was told of.
    fn know(&mut self, seen: Token, count: u64, length: u64)
        requires book { seen.book ≡ self.old.seen.known.book }
        requires count { count ≡ list_length seen.log }
        requires some { 0 < count }
        requires long { length ≡ (shown_at seen.log).length }
        requires late { self.old.seen.told ≤ length }
        ensures node { self.new.node ≡ self.old.node }
        ensures reads { Reads self.old.node self.old.seen self.new.seen }
        ensures shows { shown_at self.new.seen.known.log ≡ shown_at seen.log }
    {
        self.hear(seen, count, length);
    }

    /// Looks a name up in the table of its node as it was after a number of its steps: no fewer than the reader was told of, and than it has
    /// seen before. It waits for nobody.
    pub fn whereis(&mut self, name: &Name) -> Lookup
        ensures node { self.new.node ≡ self.old.node }
        ensures finds { Finds result self.old.node name.now self.old.seen self.new.seen }
    {
        let Some(reader) = self.reader.take() else {
            return Lookup::Gone;
        };
        let (reader, entry) = enter(reader, name);
        self.reader = Some(reader);
        let Some(
            Entry {
                owner,
                length,
                left,
                seen,
                count,
            },
        ) = entry
        else {
            return Lookup::Gone;
        };
        let mut both = self.home.token();
        both.learn(&seen);
        if length < self.told {
            return Lookup::Behind;
        }
        self.know(seen, count, length);
        if left {
            Lookup::Left
        } else {
            Lookup::Owner(owner)
        }
    }
}
