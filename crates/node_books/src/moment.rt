//! Moments of a node.
ghost use base.Fml.{ftrue};
ghost use Rattle.std.specs.Prelude.{Bool};
ghost use Rattle.node_loop.specs.Held.{Looping};

use std::marker::Model;

/// How the loop of a node stood, and whether that was its end. It has no bytes, and no value of it is made: so it is one type for all loops,
/// whatever tables and records they have.
pub struct Moment {
    pub ghost node: { Looping },
    pub ghost ended: { Bool },
}

impl Model for Moment {
    ghost also_owns = { λ m. ftrue };
}
