//! Why a moment isn't written down.
use crate::rule::Token;

/// Why a moment isn't written down.
#[derive(Drop)]
pub enum ScribeFault {
    /// The book has as many moments as a `u64` counts.
    Full,
    /// Somebody else has written in the book: this is more than the scribe knows. It never comes to that while a book has one scribe.
    Overtaken(Token),
}
