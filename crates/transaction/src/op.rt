//! What a registrar carries out.
ghost use Rattle.std.specs.Prelude.{◌≡◌, true, IfOk, OnErr};
ghost use Rattle.registry_model.specs.Call.{change_of as change_of_call};
ghost use Rattle.name_table.specs.Changes.{change_of};
ghost use Rattle.transaction.specs.Ops.{name_call_of, op_of, is_admission};

use name_table::{Change, Pair, copied_pairs};
use std::alloc::AllocError;
use term::{Name, Node, Pid};

/// A call that goes through the registry.
#[derive(Debug, PartialEq, Eq, Drop)]
pub enum NameCall {
    /// The process is to own the name, under this rule, where nobody owns it and the process owns none.
    Register(Pair),
    /// The process is to own the name, under this rule, whoever owns it, and whatever else the process owns.
    ReRegister(Pair),
    /// Nobody is to own the name.
    Unregister(Name),
}

impl NameCall {
    /// The same call. It takes no memory.
    pub fn copy(&self) -> Self
        ensures { result ≡ self.now }
    {
        match self {
            NameCall::Register(pair) => NameCall::Register(pair.copy()),
            NameCall::ReRegister(pair) => NameCall::ReRegister(pair.copy()),
            NameCall::Unregister(name) => NameCall::Unregister(name.copy()),
        }
    }

    /// What the call changes where it is granted.
    pub fn change(&self) -> Change
        ensures { change_of result ≡ change_of_call (name_call_of self.now) }
    {
        match self {
            NameCall::Register(pair) | NameCall::ReRegister(pair) => Change::Put(pair.copy()),
            NameCall::Unregister(name) => Change::Remove(name.copy()),
        }
    }
}

/// An operation of a registrar.
#[derive(Debug, PartialEq, Eq, Drop)]
pub enum Op {
    /// A name call, under its number at the node.
    Name(u32, NameCall),
    /// A dead process of this node loses all its names.
    Strike(Pid),
    /// This node joins by a contact, under the number of the call at the node.
    Join(u32, Node),
    /// A lone node is let in, with the names that it has, rising.
    Admission(Node, Vec<Pair>),
}

impl Op {
    /// The same operation. Only an admission takes memory.
    pub fn copy(&self) -> Result<Self, AllocError>
        ensures copy { IfOk result (λ copy. op_of copy ≡ op_of self.now) }
        ensures admission { OnErr result (is_admission self.now ≡ true) }
    {
        Ok(match self {
            Op::Name(number, call) => Op::Name(*number, call.copy()),
            Op::Strike(process) => Op::Strike(process.copy()),
            Op::Join(number, contact) => Op::Join(*number, contact.copy()),
            Op::Admission(joiner, pairs) => Op::Admission(joiner.copy(), copied_pairs(pairs)?),
        })
    }
}

impl Clone for Op {
    ghost is_clone = { λ o p. op_of p ≡ op_of o };

    fn clone(&self) -> Result<Self, AllocError> {
        self.copy()
    }
}
