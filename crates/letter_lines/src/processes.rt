//! Processes in letters, where the registrar of a node is one, too.
ghost use Rattle.std.specs.Prelude.{◌≡◌, ℕ, IfOk, MatchOption, MatchResult, string_bytes};
ghost use Rattle.registry_model.specs.Process.{Process};
ghost use Rattle.term.specs.Spelling.{SpellsNode};
ghost use Rattle.letter_lines.specs.Processes.{SpellsRegistrar, SpellsProcess, RefusesProcess};

use std::alloc::{AllocError, Global};
use term::{Pid, TextFault, parse_node, parse_pid, print_node, print_pid};

/// The registrar of the node that a text spells.
fn registrar_of(node: &str) -> Option<Pid>
    ensures { MatchOption result ((n : ℕ) → SpellsNode node.now n → ⊥) (λ p. SpellsNode node.now p.node × (p.serial ≡ 0)) }
{
    match parse_node(node) {
        Ok(node) => Some(Pid { node, serial: 0 }),
        Err(_) => None,
    }
}

/// Reads the registrar of a node: the node, a dot and 0.
fn parse_registrar(text: &str) -> Option<Pid>
    ensures { MatchOption result ((p : Process) → SpellsRegistrar text.now p → ⊥) (SpellsRegistrar text.now) }
{
    let Some((node, serial)) = text.split_once('.') else {
        return None;
    };
    if serial == "0" {
        registrar_of(node)
    } else {
        None
    }
}

/// Reads a process: as a pid is read, or the registrar of a node, which is the node, a dot and 0. What is neither is refused as
/// `parse_pid` refuses it.
pub fn parse_process(text: &str) -> Result<Pid, TextFault>
    ensures { MatchResult result (SpellsProcess text.now) (RefusesProcess text.now) }
{
    match parse_registrar(text) {
        Some(registrar) => Ok(registrar),
        None => parse_pid(text),
    }
}

/// The text of a registrar of this node.
fn print_registrar(alloc: Global, pid: &Pid) -> Result<String, AllocError>
    requires { pid.now.serial ≡ 0 }
    ensures { IfOk result (λ text. SpellsRegistrar (string_bytes text) pid.now) }
{
    let mut text = print_node(alloc, &pid.node)?;
    text.push_str(".0")?;
    Ok(text)
}

/// The text of a process.
pub fn print_process(alloc: Global, process: &Pid) -> Result<String, AllocError>
    ensures { IfOk result (λ text. SpellsProcess (string_bytes text) process.now) }
{
    if process.serial == 0 {
        print_registrar(alloc, process)
    } else {
        print_pid(alloc, process)
    }
}
