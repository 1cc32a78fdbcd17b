//! What a script shows of a node.
ghost use Rattle.std.specs.Prelude.{◌≡◌, IfOk, IfSome, Ok, true, is_some, option_map, string_bytes};
ghost use Rattle.protocol_model.specs.NamedEvents.{TableAt, MembersAt};
ghost use Rattle.term.specs.Nodes.{text_in};
ghost use Rattle.term.specs.NodeSets.{set_of};
ghost use Rattle.cluster_world.specs.NodeNames.{is_name};
ghost use Rattle.cluster_world.specs.WorldState.{nodes_of};
ghost use Rattle.cluster_world.specs.Seen.{names_of};
ghost use Rattle.command_lines.specs.Grammar.{Scripted};
ghost use Rattle.command_lines.specs.Printing.{refusal_word};
ghost use Rattle.text_lines.specs.Writing.{Writes};
ghost use Rattle.cluster_script.specs.Script.{made_of};
ghost use Rattle.cluster_script.specs.Played.{PlaysAsked, IsShown, node_at, table_of, members_of, hidden_by, text_for, has_line};

use crate::header::ScriptWorld;
use crate::refusing::refuse_memory;
use command_lines::{Refusal, members_line, table_line, write_refusal};
use name_table::Names;
use std::alloc::{AllocError, Global};
use std::io::Write;
use term::{Node, NodeName};
use text_lines::{WriteFault, write_text};

/// The node that a name means: the one of it at present. None where the world has no such name.
pub(crate) fn node_at<'a>(world: &'a ScriptWorld, name: &NodeName) -> Option<&'a Node>
    ensures here { is_some result ≡ is_name (names_of world.now) (text_in name.now) }
    ensures node { IfSome result (λ node. (set_of (nodes_of world.now) node.now ≡ true) × (node.now ≡ node_at world.now name.now)) }
{
    // Its text shows that the name is that of its first node.
    let _text = name.as_str();
    world.present(name)
}

/// The line of the table of a name's node, or none where the world has no such name or the node has left.
fn line_of_table(
    alloc: Global,
    world: &ScriptWorld,
    name: &NodeName,
) -> Result<Option<String>, AllocError>
    ensures { IfOk result (λ line. IsShown world.now name.now (table_of world.now name.now) (option_map string_bytes line)) }
{
    let Some(node) = node_at(world, name) else {
        return Ok(None);
    };
    if world.has_left(node) {
        return Ok(None);
    }
    let Some(table) = world.table(node) else {
        return Ok(None);
    };
    let pairs = table.pairs(alloc)?;
    Ok(Some(table_line(alloc, &pairs)?))
}

/// The line of the members of a name's node, or none where the world has no such name or the node has left.
fn line_of_members(
    alloc: Global,
    world: &ScriptWorld,
    name: &NodeName,
) -> Result<Option<String>, AllocError>
    ensures { IfOk result (λ line. IsShown world.now name.now (members_of world.now name.now) (option_map string_bytes line)) }
{
    let Some(node) = node_at(world, name) else {
        return Ok(None);
    };
    if world.has_left(node) {
        return Ok(None);
    }
    let Some(members) = world.members(node) else {
        return Ok(None);
    };
    Ok(Some(members_line(alloc, members.as_slice())?))
}

/// The word for a name whose node isn't shown.
fn hidden_word(world: &ScriptWorld, name: &NodeName) -> &'static str
    ensures { result.now ≡ refusal_word (hidden_by world.now name.now) }
{
    match node_at(world, name) {
        Some(_) => Refusal::NodeLeft.word(),
        None => Refusal::NoSuchNode.word(),
    }
}

/// Writes what is shown of a name's node, or why it isn't: whether it is.
fn write_shown<W: Write>(
    writer: &mut W,
    world: &ScriptWorld,
    name: &NodeName,
    line: Result<Option<String>, AllocError>,
) -> Result<bool, WriteFault>
    ensures text { Writes (W.contents writer.old) (W.contents writer.new) result
        (text_for world.now name.now (made_of (option_map string_bytes) line)) }
    ensures fine { IfOk result (λ fine. fine ≡ has_line line) }
{
    match line {
        Ok(Some(line)) => {
            write_text(writer, line.as_bytes())?;
            Ok(true)
        }
        Ok(None) => {
            write_refusal(writer, hidden_word(world, name))?;
            Ok(false)
        }
        Err(AllocError) => refuse_memory(writer),
    }
}

/// Writes the names in the table of a name's node with their owners, or why it is refused: whether it isn't.
pub(crate) fn show_table<W: Write>(
    alloc: Global,
    writer: &mut W,
    world: &ScriptWorld,
    name: &NodeName,
) -> Result<bool, WriteFault>
    ensures { PlaysAsked (Ok (Scripted (TableAt (text_in name.now)))) world.now world.now (W.contents writer.old) (W.contents writer.new) result }
{
    write_shown(writer, world, name, line_of_table(alloc, world, name))
}

/// Writes the members of a name's node, or why it is refused: whether it isn't.
pub(crate) fn show_members<W: Write>(
    alloc: Global,
    writer: &mut W,
    world: &ScriptWorld,
    name: &NodeName,
) -> Result<bool, WriteFault>
    ensures { PlaysAsked (Ok (Scripted (MembersAt (text_in name.now)))) world.now world.now (W.contents writer.old) (W.contents writer.new) result }
{
    write_shown(writer, world, name, line_of_members(alloc, world, name))
}
