//! Logs that are read in the order of their stamps.
ghost use Rattle.std.specs.Prelude.{◌≡◌, ◌<◌, ◌+◌, [], None, Some, length, map, slice_get, slice_set, vec_len, IfOk, IfSome};
ghost use Rattle.std.specs.Option.{option_map};
ghost use Rattle.node_log.specs.Logs.{entry_of};
ghost use Rattle.replay.specs.Ends.{end_of, logs_of};
ghost use Rattle.replay.specs.Least.{LeastOther, IsChosen};
ghost use Rattle.replay.specs.declared.merge.Reader.{Reader};
ghost use Rattle.replay.specs.Reading.{head_of, goes_first, StandBehind};

use name_table::Names;
use node_log::{Log, LoggedEntry, NodeEnd};
use std::alloc::{AllocError, Global};
use term::Node;

/// A log, and how many of its entries were read.
#[derive(Drop)]
pub(crate) struct Reader<'a> {
    pub(crate) log: &'a Log,
    pub(crate) at: usize,
}

impl<'a> Reader<'a> {
    /// Whose log it is.
    pub(crate) fn node(&self) -> &'a Node
        ensures { result.now ≡ self.now.log.now.node }
    {
        self.log.node()
    }

    /// The entry that is read next, if one is left.
    pub(crate) fn head(&self) -> Option<LoggedEntry<'a>>
        ensures { option_map (entry_of self.now.log.now.node) result ≡ head_of self.now }
    {
        self.log.get(self.at)
    }

    /// Whether what is read next here goes before what is read next there. Nothing goes before or after the end of a log.
    fn goes_first(&self, other: &Reader<'_>) -> bool
        ensures { result ≡ goes_first self.now other.now }
    {
        let (Some(here), Some(there)) = (self.head(), other.head()) else {
            return false;
        };
        here.stamp < there.stamp || here.stamp == there.stamp && *self.node() < *other.node()
    }
}

/// Readers at the beginnings of these logs.
pub(crate) fn open<N: Names>(
    alloc: Global,
    ends: &[NodeEnd<N>],
) -> Result<Vec<Reader<'_>>, AllocError>
    ensures { IfOk result (λ readers. StandBehind (logs_of (map (end_of N.contents) ends.now)) [] readers.items) }
{
    let mut readers = Vec::new(alloc);
    for end in ends {
        readers.push(Reader {
            log: &end.log,
            at: 0,
        })?;
    }
    Ok(readers)
}

/// The reader at this place has read its next entry.
pub(crate) fn advance(readers: &mut Vec<Reader<'_>>, place: usize)
    requires here { place < vec_len readers.old }
    requires left { IfSome (slice_get readers.old.items place) (λ r. r.at < length r.log.now.entries) }
    ensures { (r : Reader) → slice_get readers.old.items place ≡ Some r
        → readers.new.items ≡ slice_set readers.old.items place (record r { at = r.at + 1 }) }
{
    let reader = &mut readers[place];
    if reader.at < reader.log.len() {
        reader.at += 1;
    }
}

/// Of a reader and the first so far, the place of that which goes before the other.
fn first_of(readers: &[Reader<'_>], first: Option<usize>, place: usize) -> Option<usize>
    requires here { place < length readers.now }
    requires there { IfSome first (λ k. k < length readers.now) }
    ensures { IsChosen goes_first readers.now place first result }
{
    let Some(best) = first else {
        return Some(place);
    };
    if readers[place].goes_first(&readers[best]) {
        Some(place)
    } else {
        Some(best)
    }
}

/// The place of the reader that reads the next step, which is that of the least stamp and then of the least node, if one is left.
pub(crate) fn next_place(readers: &[Reader<'_>]) -> Option<usize>
    ensures { LeastOther (λ r. head_of r ≡ None) goes_first readers.now (length readers.now) result }
{
    let mut first: Option<usize> = None;
    for (place, reader) in readers.iter().enumerate() {
        if reader.head().is_none() {
            continue;
        }
        first = first_of(readers, first, place);
    }
    first
}
