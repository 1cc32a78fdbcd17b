//! Processes.
ghost use Rattle.std.specs.Prelude.{◌≡◌, ◌≤◌, ◌∷◌, ◌++◌, IfOk, Some, MatchResult, string_bytes};
ghost use Rattle.term.specs.Spelling.{SpellsPid, RefusesPid, node_bytes, dot};
ghost use Rattle.std.specs.Fmt.{decimal};

use crate::digits::parse_serial;
use crate::faults::TextFault;
use crate::node::{Node, parse_node};
use std::alloc::{AllocError, Allocator};
use std::fmt;
use std::marker::Model;

/// A process: its node, and its serial there. Serial 0 is the registrar of the node, which has no text.
/// Processes are ordered by node, then by serial.
#[derive(Clone, Debug, PartialEq, Eq, PartialOrd, Ord, Hash, Drop)]
pub struct Pid {
    /// The node that the process lives on.
    pub node: Node,
    /// Its serial at that node.
    pub serial: u32,
}

impl Model for Pid {
    ghost use Rattle.registry_model.specs.Process.{Process};

    ghost Value = { Process };

    ghost view = { λ p. record { node = p.node; serial = p.serial } };

    ghost inverse = { λ p. record { node = p.node; serial = p.serial } };
}

impl Pid {
    /// The same process. It takes no memory.
    pub fn copy(&self) -> Self
        ensures { result ≡ self.now }
    {
        Pid {
            node: self.node.copy(),
            serial: self.serial,
        }
    }
}

/// Reads a process. The part before the first dot, or the whole text where there is none, is refused as a node is;
/// else the text is refused for a bad serial, unless a dot follows and then a serial of 1 to 4,294,967,295 with no
/// leading zero.
pub fn parse_pid(text: &str) -> Result<Pid, TextFault>
    ensures { MatchResult result (SpellsPid text.now) (RefusesPid text.now) }
{
    let Some((node, digits)) = text.split_once('.') else {
        parse_node(text)?;
        return Err(TextFault::BadSerial);
    };
    let node = parse_node(node)?;
    match parse_serial(digits) {
        Some(serial) => Ok(Pid { node, serial }),
        None => Err(TextFault::BadSerial),
    }
}

/// The text of a process, which is not a registrar.
pub fn print_pid<A: Allocator>(alloc: A, pid: &Pid) -> Result<String<A>, AllocError>
    requires { 1 ≤ pid.now.serial }
    ensures { IfOk result (λ text. SpellsPid (string_bytes text) pid.now) }
{
    let node = pid.node.as_spelled();
    let serial = pid.serial;
    format!(in alloc; "{node}.{serial}")
}

impl fmt::Display for Pid {
    ghost output = { λ p. Some (node_bytes p.node ++ dot ∷ decimal p.serial) };

    fn fmt<W: fmt::Write>(&self, f: &mut fmt::Formatter<W>) -> fmt::Result {
        write!(f, "{}.{}", self.node, self.serial)
    }
}
