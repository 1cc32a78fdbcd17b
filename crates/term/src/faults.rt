//! Why a text is refused.
use thiserror::Error;

/// Why a text spells no value.
#[derive(Clone, Copy, Debug, PartialEq, Eq, Error)]
pub enum TextFault {
    /// There is no byte.
    #[error("empty")]
    Empty,
    /// There are more than 64 bytes.
    #[error("too_long")]
    TooLong,
    /// The first byte that is not allowed stands at this place, counted from 0.
    #[error("bad_byte")]
    BadByte(usize),
    /// What follows the slash behind the name of a node is no creation from 2 on.
    #[error("bad_creation")]
    BadCreation,
    /// No serial of a process follows its node.
    #[error("bad_serial")]
    BadSerial,
    /// It is no rule.
    #[error("bad_rule")]
    BadRule,
    /// There are more than eight nodes.
    #[error("too_many_nodes")]
    TooManyNodes,
}
