//! What the program does by the lines of standard input: for a script, and as a node.
ghost use Rattle.std.specs.Prelude.{◌≡◌, true};
ghost use Rattle.std.specs.Io.Buffered.{reader_remaining};
ghost use Rattle.term.specs.Nodes.{name_of};
ghost use Rattle.term.specs.NodeSets.{set_of};
ghost use Rattle.cluster_main.specs.Answering.{PlaysScript, RunsNode, status_of as any_status};

use arguments::NodeOptions;
use cluster_script::{ScriptFault, run_script};
use node_port::run_node;
use std::alloc::Global;
use std::io::{BufReader, Read, Write};
use term::NodeSet;

/// The status for lines that were done: 0 where they ended with no fault and, of a script, no refusal was printed, or, at a node, each
/// line of a link was the next of it and each step had a stamp; and else 1.
fn status_of(played: &Result<bool, ScriptFault>) -> u8
    ensures { result ≡ any_status played.now }
{
    match played {
        Ok(true) => 0,
        Ok(false) | Err(_) => 1,
    }
}

/// Plays a script, and gives the status.
pub(crate) fn play<R: Read, W: Write>(
    alloc: Global,
    reader: &mut BufReader<R, Global>,
    writer: &mut W,
) -> u8
    ensures { PlaysScript (record {
      input = reader_remaining R.remaining reader.old;
      rest = reader_remaining R.remaining reader.new;
      old = W.contents writer.old;
      new = W.contents writer.new;
    }) result }
{
    let played = run_script(alloc, reader, writer);
    if writer.flush().is_err() {
        return 1;
    }
    status_of(&played)
}

/// Runs a node of a world by lines, and gives the status.
pub(crate) fn run<R: Read, W: Write>(
    alloc: Global,
    options: &NodeOptions,
    reader: &mut BufReader<R, Global>,
    writer: &mut W,
) -> u8
    requires { set_of options.now.world (name_of options.now.node) ≡ true }
    ensures { RunsNode options.now (record {
      input = reader_remaining R.remaining reader.old;
      rest = reader_remaining R.remaining reader.new;
      old = W.contents writer.old;
      new = W.contents writer.new;
    }) result }
{
    // The names show that they are those of first nodes.
    let _count = options.world.len();
    let world = NodeSet::first_of(&options.world);
    let ran = run_node(alloc, &options.node, &world, reader, writer);
    if writer.flush().is_err() {
        return 1;
    }
    status_of(&ran)
}
