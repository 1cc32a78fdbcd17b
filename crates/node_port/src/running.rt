//! A node from its first line to its end.
ghost use Rattle.std.specs.Prelude.{◌≡◌, ◌==◌, ◌&&◌, ◌⊎◌, ◌++◌, ℕ, List, true, false, codes, bytes_eq, MatchOption, MatchResult, OnOk, IfOk, IfSome};
ghost use Rattle.std.specs.List.{All};
ghost use Rattle.std.specs.Io.Buffered.{reader_remaining};
ghost use Rattle.std.specs.Io.KnownBytes.{Keeps};
ghost use Rattle.text_lines.specs.Lines.{IsKept};
ghost use Rattle.term.specs.Nodes.{IsFirst, name_of, creation_of};
ghost use Rattle.term.specs.NodeSets.{set_of};
ghost use Rattle.node_port.specs.Asking.{reader_of};
ghost use Rattle.node_port.specs.Beginnings.{IsBeginning, Beginning as ABeginning, fits as any_fits};
ghost use Rattle.node_port.specs.Commands.{Taken, IsTaken};
ghost use Rattle.node_port.specs.Playing.{spent, waiting};
ghost use Rattle.node_port.specs.Ran.{opened_so, Opens, Behind, Plainly, Ends, NodeRan, NodeStopped};
ghost use Rattle.node_port.specs.Working.{stand_of, IsEmpty, PlaysAt, PlaysOn, StopsOn, PrintsLine, PrintsPart, OpenedBy, StoppedBy, TakesNext, StopsNext, FoundsBy, HasFounded, PlaysTo, GoesBehind, StopsBehind, RunsFrom, StopsFrom};
ghost use Rattle.node_port.specs.declared.port.Standing.TheVariants.{Runs};

use crate::commands::{Beginning, read_command, says_founds, says_who_left};
use crate::port::{Port, Standing, before, fits, stamp_behind};
use std::alloc::{AllocError, Global};
use std::io::{BufReader, Read, Write};
use term::{MOST_LINES, Node, NodeSet};
use text_lines::{Line, StreamFault, hand_on, read_line};

/// The next line of a reader, or none at its end. What was written is handed on before the reader waits.
fn next_line<R: Read, W: Write>(
    room: Vec<u8>,
    reader: &mut BufReader<R, Global>,
    writer: &mut W,
) -> Result<Option<Line>, StreamFault>
    ensures read { MatchResult result
        (TakesNext (reader_remaining R.remaining reader.old) (reader_remaining R.remaining reader.new))
        (λ fault. StopsNext (reader_remaining R.remaining reader.old) (reader_remaining R.remaining reader.new)) }
    ensures kept { Keeps (W.contents writer.old) (W.contents writer.new) }
{
    let mut left = MOST_LINES;
    read_line(room, reader, writer, &mut left)
}

/// Does what a line says, or refuses it: how the node stands behind it.
fn take_line(alloc: Global, port: &mut Port, line: &Line) -> Result<Standing, AllocError>
    ensures { (bytes : List ℕ) → IsKept bytes line.now → IfOk result
        (λ standing. (taken : Taken) × IsTaken (reader_of port.old.node) bytes taken × PlaysAt taken standing (spent standing) port.old port.new) }
{
    let own = port.last_process();
    let node = port.name();
    match read_command(alloc, line, own.as_ref(), &node) {
        Ok(command) => port.play(command),
        Err(refused) => {
            port.refuse(&refused)?;
            Ok(Standing::Runs)
        }
    }
}

/// The same, and says where something waits to be tried again.
fn do_line(alloc: Global, port: &mut Port, line: &Line) -> Result<Standing, AllocError>
    ensures { (bytes : List ℕ) → IsKept bytes line.now → IfOk result
        (λ standing. (taken : Taken) × IsTaken (reader_of port.old.node) bytes taken
        × PlaysAt taken standing (spent standing ++ waiting standing port.new.node) port.old port.new) }
{
    let standing = take_line(alloc, port, line)?;
    port.show_waiting(standing)?;
    Ok(standing)
}

/// Does what a line says, or refuses it, and writes what that prints: how the node stands behind it.
fn play_line<W: Write>(
    alloc: Global,
    port: &mut Port,
    line: &Line,
    writer: &mut W,
) -> Result<Standing, StreamFault>
    requires { IsEmpty port.old.output }
    ensures played { (bytes : List ℕ) → IsKept bytes line.now → MatchResult result
        (λ standing. PrintsLine bytes standing (stand_of port.old) (stand_of port.new) (W.contents writer.old) (W.contents writer.new))
        (λ fault. PrintsPart bytes (stand_of port.old) (W.contents writer.old) (W.contents writer.new)
        ⊎ Keeps (W.contents writer.old) (W.contents writer.new)) }
    ensures empty { OnOk result (IsEmpty port.new.output) }
{
    let standing = do_line(alloc, port, line)?;
    port.write(writer)?;
    Ok(standing)
}

/// Does what lines say until they end or the node does: whether no line was out of its place.
fn play_lines<R: Read, W: Write>(
    alloc: Global,
    port: &mut Port,
    reader: &mut BufReader<R, Global>,
    writer: &mut W,
) -> Result<bool, StreamFault>
    requires { IsEmpty port.old.output }
    ensures { MatchResult result
        (PlaysTo (stand_of port.old) (reader_remaining R.remaining reader.old) (reader_remaining R.remaining reader.new)
        (W.contents writer.old) (W.contents writer.new) (stand_of port.new))
        (λ fault. StopsOn (stand_of port.old) (reader_remaining R.remaining reader.old) (reader_remaining R.remaining reader.new)
        (W.contents writer.old) (W.contents writer.new)) }
{
    let mut room = Vec::new(alloc);
    for _ in 0..u64::MAX {
        let Some(line) = next_line(room, reader, writer)? else {
            return Ok(true);
        };
        match play_line(alloc, port, &line, writer)? {
            Standing::Runs => {}
            Standing::HasLeft => return Ok(true),
            Standing::Broken | Standing::Spent => return Ok(false),
        }
        room = line.into_room(alloc);
    }
    Err(StreamFault::TooManyLines)
}

/// A node that founds its cluster; how it stands is to be printed.
fn open_founder(alloc: Global, node: &Node, world: &NodeSet) -> Result<Port, AllocError>
    requires known { set_of world.now node.now ≡ true }
    requires first { All IsFirst world.now }
    ensures { IfOk result (FoundsBy node.now world.now) }
{
    let mut port = Port::found(alloc, node, world)?;
    port.show_state()?;
    Ok(port)
}

/// Opens a node that founds its cluster, and writes how it stands.
fn found<W: Write>(
    alloc: Global,
    node: &Node,
    world: &NodeSet,
    writer: &mut W,
) -> Result<(Port, Standing), StreamFault>
    requires known { set_of world.now node.now ≡ true }
    requires first { All IsFirst world.now }
    ensures { HasFounded node.now world.now (W.contents writer.old) (W.contents writer.new) result }
{
    let mut port = open_founder(alloc, node, world)?;
    match port.write(writer) {
        Ok(()) => Ok((port, Standing::Runs)),
        Err(fault) => {
            port.discard();
            Err(fault.into())
        }
    }
}

/// Opens a node of which no line says how it begins, and does its first line.
fn open_plainly<W: Write>(
    alloc: Global,
    node: &Node,
    names: &NodeSet,
    line: &Line,
    writer: &mut W,
) -> Result<(Port, Standing), StreamFault>
    requires known { set_of names.now (name_of node.now) ≡ true }
    requires first { All IsFirst names.now }
    ensures opened { (bytes : List ℕ) → IsKept bytes line.now → MatchResult result
        (λ r. PrintsLine bytes r.1 (opened_so node.now names.now Plainly) (stand_of r.0) (W.contents writer.old) (W.contents writer.new))
        (λ fault. PrintsPart bytes (opened_so node.now names.now Plainly) (W.contents writer.old) (W.contents writer.new)
        ⊎ Keeps (W.contents writer.old) (W.contents writer.new)) }
    ensures empty { IfOk result (λ r. IsEmpty r.0.output) }
{
    let mut port = Port::open(alloc, node, names, 0, &before(node))?;
    match play_line(alloc, &mut port, line, writer) {
        Ok(standing) => Ok((port, standing)),
        Err(fault) => {
            port.discard();
            Err(fault)
        }
    }
}

/// How a line says that this node of a world with these names begins, if it says that: the stamp above which its steps are, and who has left.
fn beginning_of(line: &Line, node: &Node, names: &NodeSet) -> Option<Beginning>
    ensures fit { IfSome result (λ b. any_fits node.now names.now b.left ≡ true) }
    ensures begins { (bytes : List ℕ) → IsKept bytes line.now → MatchOption result
        ((b : ABeginning) → IsBeginning node.now names.now bytes b → ⊥)
        (λ b. IsBeginning node.now names.now bytes (record { stamp = b.stamp; left = b.left })) }
{
    let said = says_who_left(line)?;
    if !fits(node, names, &said.left) {
        return None;
    }
    let stamp = stamp_behind(said.stamp, &said.left)?;
    Some(Beginning {
        stamp,
        left: said.left,
    })
}

/// Opens a node of which a line says how it begins. Nothing is written of that.
fn open_behind(
    alloc: Global,
    node: &Node,
    names: &NodeSet,
    beginning: &Beginning,
) -> Result<(Port, Standing), StreamFault>
    requires known { set_of names.now (name_of node.now) ≡ true }
    requires first { All IsFirst names.now }
    requires fit { any_fits node.now names.now beginning.now.left ≡ true }
    ensures opened { IfOk result (λ r. (r.1 ≡ Runs)
        × (stand_of r.0 ≡ opened_so node.now names.now (Behind (record { stamp = beginning.now.stamp; left = beginning.now.left })))) }
    ensures empty { IfOk result (λ r. IsEmpty r.0.output) }
{
    let Beginning { stamp, left } = beginning;
    let port = Port::open(alloc, node, names, *stamp, left)?;
    Ok((port, Standing::Runs))
}

/// Whether a line says that a first node founds its cluster.
fn founds(line: &Line, node: &Node) -> bool
    ensures says { (bytes : List ℕ) → IsKept bytes line.now
        → result ≡ ((creation_of node.now == 1) && bytes_eq bytes (codes "founds")) }
    ensures first { result ≡ true → creation_of node.now ≡ 1 }
{
    node.creation() == 1 && says_founds(line)
}

/// Opens the node by its first line: that it founds its cluster; or who has left; or anything else, which is done then. Gives how it stands
/// behind it.
fn open_by<W: Write>(
    alloc: Global,
    node: &Node,
    names: &NodeSet,
    line: &Line,
    writer: &mut W,
) -> Result<(Port, Standing), StreamFault>
    requires known { set_of names.now (name_of node.now) ≡ true }
    requires first { All IsFirst names.now }
    ensures opened { (bytes : List ℕ) → IsKept bytes line.now → MatchResult result
        (λ r. (how : Opens) × OpenedBy how node.now names.now bytes r.1 (stand_of r.0) (W.contents writer.old) (W.contents writer.new))
        (λ fault. (how : Opens) × StoppedBy how node.now names.now bytes (W.contents writer.old) (W.contents writer.new)) }
    ensures empty { IfOk result (λ r. IsEmpty r.0.output) }
{
    if founds(line, node) {
        return found(alloc, node, names, writer);
    }
    match beginning_of(line, node, names) {
        Some(beginning) => open_behind(alloc, node, names, &beginning),
        None => open_plainly(alloc, node, names, line, writer),
    }
}

/// Goes on from how a node stands behind its first line: whether no line was out of its place.
fn go_on<R: Read, W: Write>(
    alloc: Global,
    port: &mut Port,
    standing: Standing,
    reader: &mut BufReader<R, Global>,
    writer: &mut W,
) -> Result<bool, StreamFault>
    requires { IsEmpty port.old.output }
    ensures { MatchResult result
        (λ in_order. GoesBehind standing in_order (stand_of port.old) (reader_remaining R.remaining reader.old)
        (reader_remaining R.remaining reader.new) (W.contents writer.old) (W.contents writer.new) (stand_of port.new))
        (λ fault. (standing ≡ Runs) × StopsOn (stand_of port.old) (reader_remaining R.remaining reader.old) (reader_remaining R.remaining reader.new)
        (W.contents writer.old) (W.contents writer.new)) }
{
    match standing {
        Standing::Runs => play_lines(alloc, port, reader, writer),
        Standing::HasLeft => Ok(true),
        Standing::Broken | Standing::Spent => Ok(false),
    }
}

/// The same, and hands on what was written in the end.
fn run_on<R: Read, W: Write>(
    alloc: Global,
    port: &mut Port,
    standing: Standing,
    reader: &mut BufReader<R, Global>,
    writer: &mut W,
) -> Result<bool, StreamFault>
    requires { IsEmpty port.old.output }
    ensures { MatchResult result
        (λ in_order. GoesBehind standing in_order (stand_of port.old) (reader_remaining R.remaining reader.old)
        (reader_remaining R.remaining reader.new) (W.contents writer.old) (W.contents writer.new) (stand_of port.new))
        (λ fault. StopsBehind standing (stand_of port.old) (reader_remaining R.remaining reader.old) (reader_remaining R.remaining reader.new)
        (W.contents writer.old) (W.contents writer.new)) }
{
    let in_order = go_on(alloc, port, standing, reader, writer)?;
    hand_on(writer)?;
    Ok(in_order)
}

/// Opens the node by its first line, and goes on from there: whether no line was out of its place.
fn run_from<R: Read, W: Write>(
    alloc: Global,
    node: &Node,
    names: &NodeSet,
    line: &Line,
    reader: &mut BufReader<R, Global>,
    writer: &mut W,
) -> Result<bool, StreamFault>
    requires known { set_of names.now (name_of node.now) ≡ true }
    requires first { All IsFirst names.now }
    ensures { (bytes : List ℕ) → IsKept bytes line.now → MatchResult result
        (RunsFrom node.now names.now bytes (reader_remaining R.remaining reader.old) (reader_remaining R.remaining reader.new)
        (W.contents writer.old) (W.contents writer.new))
        (λ fault. StopsFrom node.now names.now bytes (reader_remaining R.remaining reader.old) (reader_remaining R.remaining reader.new)
        (W.contents writer.old) (W.contents writer.new)) }
{
    let (mut port, standing) = open_by(alloc, node, names, line, writer)?;
    let in_order = run_on(alloc, &mut port, standing, reader, writer);
    port.discard();
    in_order
}

/// Runs this node of a world with these names by the lines of a reader, until they end or the node has left, and writes what comes of
/// each: whether each line of a link was the next of it, and each step had a stamp. A line that is refused changes nothing. The first
/// line may say that a first node founds its cluster, or, of any, who has left; else it is lone, and a later node of its name knows that the
/// one before it has left.
///
/// What was written is handed on before the reader waits for more, and in the end. Where lines can't be read or written, or memory is
/// refused, a part is written of what those print that were done. The contract can't say when a reader, a writer or an allocator fails.
pub fn run_node<R: Read, W: Write>(
    alloc: Global,
    node: &Node,
    names: &NodeSet,
    reader: &mut BufReader<R, Global>,
    writer: &mut W,
) -> Result<bool, StreamFault>
    requires known { set_of names.now (name_of node.now) ≡ true }
    requires first { All IsFirst names.now }
    ensures { MatchResult result
        (NodeRan node.now names.now (reader_remaining R.remaining reader.old) (reader_remaining R.remaining reader.new)
        (W.contents writer.old) (W.contents writer.new))
        (NodeStopped node.now names.now (reader_remaining R.remaining reader.old) (reader_remaining R.remaining reader.new)
        (W.contents writer.old) (W.contents writer.new)) }
{
    // The set shows that its nodes rise.
    let _count = names.len();
    let Some(first) = next_line(Vec::new(alloc), reader, writer)? else {
        return Ok(true);
    };
    run_from(alloc, node, names, &first, reader, writer)
}
