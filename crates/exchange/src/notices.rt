//! What processes are sent that lose a name and don't die of it.
ghost use Rattle.std.specs.Prelude.{◌≡◌, IfOk};

use std::alloc::{AllocError, Global};
use std::marker::Model;
use term::{Name, Pid};

/// What a process is sent that loses a name and doesn't die of it.
#[derive(Debug, PartialEq, Eq, Drop)]
pub struct Notice {
    /// The name.
    pub name: Name,
    /// The other process that lost it, where both did; where there is none, another process has the name.
    pub other: Option<Pid>,
}

impl Model for Notice {
    ghost use Rattle.registry_model.specs.Settlement.{Notice as Told};

    ghost Value = { Told };

    ghost view = { λ n. record { name = n.name; other = n.other } };

    ghost inverse = { λ n. record { name = n.name; other = n.other } };
}

impl Notice {
    /// The same notice. It takes no memory.
    pub fn copy(&self) -> Self
        ensures { result ≡ self.now }
    {
        let other = match &self.other {
            Some(other) => Some(other.copy()),
            None => None,
        };
        Notice {
            name: self.name.copy(),
            other,
        }
    }
}

/// A notice, and the process that is sent it.
#[derive(Debug, PartialEq, Eq, Drop)]
pub struct Noted {
    /// The process.
    pub process: Pid,
    /// What it is sent.
    pub notice: Notice,
}

impl Model for Noted {
    ghost use Rattle.registry_model.specs.Settlement.{Noted as Sent};

    ghost Value = { Sent };

    ghost view = { λ n. record { process = n.process; notice = n.notice } };

    ghost inverse = { λ n. record { process = n.process; notice = n.notice } };
}

impl Noted {
    /// The same. It takes no memory.
    pub fn copy(&self) -> Self
        ensures { result ≡ self.now }
    {
        Noted {
            process: self.process.copy(),
            notice: self.notice.copy(),
        }
    }
}

/// The same notices, in memory of their own.
pub fn copied_notices(notices: &Vec<Notice>) -> Result<Vec<Notice>, AllocError>
    ensures { IfOk result (λ copy. copy.items ≡ notices.now.items) }
{
    let alloc: Global = *notices.allocator();
    notices.iter().map(|notice| notice.copy()).collect(alloc)
}
