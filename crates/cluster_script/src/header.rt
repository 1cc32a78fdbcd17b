//! The first lines of a script, which open its world.
ghost use Rattle.std.specs.Prelude.{◌≡◌, ◌≤◌, MatchResult, is_some, map, option_map, List, ℕ, [], Ok};
ghost use Rattle.std.specs.Io.KnownBytes.{Keeps};
ghost use Rattle.std.specs.Io.Buffered.{reader_remaining};
ghost use Rattle.text_lines.specs.Lines.{IsKept};
ghost use Rattle.term.specs.declared.limits.TheConstants.{MOST_LINES};
ghost use Rattle.text_lines.specs.Words.{words};
ghost use Rattle.cluster_script.specs.Script.{made_of, texts_behind, lone_line};
ghost use Rattle.cluster_script.specs.Headers.{ReadsNodes, ReadsHeader, Starts, StartsBeside, StartsCluster, OpensCluster, OpensLone, ReadsLone, ReadsHeaders, StopsOpening};
ghost use Rattle.cluster_script.specs.Played.{StopsReading};

use crate::reading::next_line;
use cluster_world::World;
use command_lines::{LineCommand, LineFault, StartFault, read_command, text_of};
use name_table::IndexTable;
use std::alloc::{AllocError, Global};
use std::io::{BufReader, Read, Write};
use term::{NodeName, parse_node_name};
use text_lines::{Line, StreamFault, first_words, words_of};

/// The world that a script plays on. Its tables are found by hashing.
pub(crate) type ScriptWorld = World<IndexTable<Global>>;

/// The nodes of a `cluster` line in its order, and a world of them alone.
#[derive(Drop)]
struct Cluster {
    nodes: Vec<NodeName>,
    world: ScriptWorld,
}

/// What the first lines of a script come to.
#[derive(Drop)]
pub(crate) enum Headers {
    /// A world, and what the line behind the `cluster` line asks for, where it is no `lone` line.
    Open(ScriptWorld, Option<Result<LineCommand, LineFault>>),
    /// There is no line behind the `cluster` line.
    Ended,
    /// One is missing or refused.
    Refused(LineFault),
}

/// The nodes that the texts spell, or the fault of the first that spells none, or `Memory`.
fn read_nodes(alloc: Global, texts: &[&str]) -> Result<Vec<NodeName>, LineFault>
    ensures { ReadsNodes (map (λ text. text.now) texts.now) (made_of (λ nodes. nodes.items) result) }
{
    let mut nodes = Vec::new(alloc);
    for text in texts {
        if nodes.push(parse_node_name(text)?).is_err() {
            return Err(LineFault::Memory);
        }
    }
    Ok(nodes)
}

/// Whether the first word of a line is this one. It takes no memory.
fn begins_with(line: &str, word: &str) -> bool
    ensures { result ≡ is_some (texts_behind word.now (words line.now)) }
{
    match first_words(line).first() {
        Some(first) => *first == word,
        None => false,
    }
}

/// The nodes that a line names behind this word, or none where the line begins with another. Where memory is refused, that is
/// the fault of a line that begins with this word, and of no other.
fn read_header(alloc: Global, word: &str, line: &str) -> Option<Result<Vec<NodeName>, LineFault>>
    ensures { ReadsHeader (texts_behind word.now (words line.now)) (option_map (made_of (λ nodes. nodes.items)) result) }
{
    if !begins_with(line, word) {
        return None;
    }
    let words = match words_of(alloc, line) {
        Ok(words) => words,
        Err(AllocError) => return Some(Err(LineFault::Memory)),
    };
    let (_, texts) = words.split_first()?;
    Some(read_nodes(alloc, texts))
}

/// A world of this cluster, whose nodes are all joined with each other, and of lone nodes, or why there is none.
fn start(alloc: Global, cluster: &[NodeName], lone: &[NodeName]) -> Result<ScriptWorld, LineFault>
    ensures { Starts cluster.now lone.now result }
{
    match World::start(alloc, cluster, lone) {
        Ok(world) => Ok(world),
        Err(StartFault::Memory) => Err(LineFault::Memory),
        Err(fault) => Err(LineFault::Start(fault)),
    }
}

/// A world of this cluster and of the lone nodes that were named beside it, or why there is none.
fn start_beside(
    alloc: Global,
    cluster: &[NodeName],
    lone: Result<Vec<NodeName>, LineFault>,
) -> Result<ScriptWorld, LineFault>
    ensures { StartsBeside cluster.now (made_of (λ nodes. nodes.items) lone) result }
{
    match lone {
        Ok(lone) => start(alloc, cluster, &lone),
        Err(fault) => Err(fault),
    }
}

/// The cluster of these nodes, or why no world has them.
fn cluster_of(alloc: Global, nodes: Vec<NodeName>) -> Result<Cluster, LineFault>
    ensures { StartsCluster nodes.items result }
{
    match start(alloc, &nodes, &[]) {
        Ok(world) => Ok(Cluster { nodes, world }),
        Err(fault) => Err(fault),
    }
}

/// The cluster that a `cluster` line opens, or why it opens none.
fn open_cluster(alloc: Global, line: &Line) -> Result<Cluster, LineFault>
    ensures { (bytes : List ℕ) → IsKept bytes line.now → OpensCluster bytes result }
{
    match read_header(alloc, "cluster", text_of(line)?) {
        Some(nodes) => cluster_of(alloc, nodes?),
        None => Err(LineFault::BadLine),
    }
}

/// The lone nodes that a `lone` line names. Any other line names none, also one that can't be read.
fn read_lone(alloc: Global, line: &Line) -> Option<Result<Vec<NodeName>, LineFault>>
    ensures { (bytes : List ℕ) → IsKept bytes line.now → ReadsHeader (lone_line bytes)
        (option_map (made_of (λ nodes. nodes.items)) result) }
{
    match text_of(line) {
        Ok(text) => read_header(alloc, "lone", text),
        Err(_) => None,
    }
}

/// What the line behind the `cluster` line makes of its cluster.
fn open_lone(alloc: Global, cluster: Cluster, line: &Line) -> Headers
    requires { Starts cluster.nodes.items [] (Ok cluster.world) }
    ensures { (bytes : List ℕ) → IsKept bytes line.now → OpensLone cluster.nodes.items bytes result }
{
    let Cluster { nodes, world } = cluster;
    let Some(lone) = read_lone(alloc, line) else {
        return Headers::Open(world, Some(read_command(alloc, line)));
    };
    match start_beside(alloc, &nodes, lone) {
        Ok(world) => Headers::Open(world, None),
        Err(fault) => Headers::Refused(fault),
    }
}

/// Reads the line behind the `cluster` line, and opens the world that is played on.
fn read_behind<R: Read, W: Write>(
    alloc: Global,
    reader: &mut BufReader<R, Global>,
    writer: &mut W,
    cluster: Cluster,
    left: &mut u32,
) -> Result<Headers, StreamFault>
    requires most { left.old ≤ MOST_LINES }
    requires opening { Starts cluster.nodes.items [] (Ok cluster.world) }
    ensures read { MatchResult result
        (ReadsLone cluster.nodes.items (reader_remaining R.remaining reader.old) (reader_remaining R.remaining reader.new)
        left.old left.new)
        (StopsReading (reader_remaining R.remaining reader.old) (reader_remaining R.remaining reader.new) left.old) }
    ensures kept { Keeps (W.contents writer.old) (W.contents writer.new) }
{
    match next_line(alloc, Vec::new(alloc), reader, writer, left)? {
        Some(line) => Ok(open_lone(alloc, cluster, &line)),
        None => Ok(Headers::Ended),
    }
}

/// Reads the first lines of a script: the `cluster` line, and if it isn't refused the line behind it, which may be a
/// `lone` line. Nothing is written. A header for which memory is refused is refused, and memory that is refused for another line is
/// left to what plays it.
pub(crate) fn read_headers<R: Read, W: Write>(
    alloc: Global,
    reader: &mut BufReader<R, Global>,
    writer: &mut W,
    left: &mut u32,
) -> Result<Headers, StreamFault>
    requires { left.old ≤ MOST_LINES }
    ensures read { MatchResult result
        (ReadsHeaders (reader_remaining R.remaining reader.old) (reader_remaining R.remaining reader.new)
        left.old left.new)
        (StopsOpening (reader_remaining R.remaining reader.old) (reader_remaining R.remaining reader.new) left.old) }
    ensures kept { Keeps (W.contents writer.old) (W.contents writer.new) }
{
    let Some(line) = next_line(alloc, Vec::new(alloc), reader, writer, left)? else {
        return Ok(Headers::Refused(LineFault::BadLine));
    };
    match open_cluster(alloc, &line) {
        Ok(cluster) => read_behind(alloc, reader, writer, cluster, left),
        Err(fault) => Ok(Headers::Refused(fault)),
    }
}
