//! Names in as little memory as their texts take.
ghost use Rattle.std.specs.Prelude.{◌≡◌, IfOk};
ghost use Rattle.term.specs.Spelling.{SpellsText};

use arrayvec::ArrayString;
use std::alloc::{AllocError, Global};
use std::marker::Model;
use term::{Name, parse_name};

/// How long a text may be to lie in place.
const SHORT: usize = 16;

/// The text of a name.
#[derive(Drop)]
pub(crate) enum KeptText {
    /// A short text, in place.
    Short(ArrayString<SHORT>),
    /// A longer one, in memory of its own, as long as it is.
    Long(String),
}

/// A name in as little memory as its text takes: one of up to 16 bytes lies in place.
#[derive(Drop)]
pub(crate) struct KeptName {
    text: KeptText,
}

impl Model for KeptName {
    ghost use Rattle.std.specs.Prelude.{ℕ};
    ghost use Rattle.registry_model.specs.Process.{text_of};
    ghost use Rattle.term.specs.Spelling.{IsText};
    ghost use Rattle.world_history.specs.KeptTexts.{bytes_in};

    ghost Value = { ℕ };

    ghost view = { λ n. text_of (bytes_in n.text) };

    ghost invariant = { λ n. IsText (bytes_in n.text) };
}

impl KeptName {
    /// Keeps a name. Only one of more than 16 bytes takes memory.
    pub(crate) fn keep(alloc: Global, name: &Name) -> Result<Self, AllocError>
        ensures { IfOk result (λ kept. kept ≡ name.now) }
    {
        let text = match ArrayString::from(name.as_str()) {
            Ok(short) => KeptText::Short(short),
            Err(_) => KeptText::Long(String::from_str(alloc, name.as_str())?),
        };
        Ok(KeptName { text })
    }

    /// Its text.
    fn as_str(&self) -> &str
        ensures { SpellsText result.now self.now }
    {
        match &self.text {
            KeptText::Short(short) => short.as_str(),
            KeptText::Long(long) => long.as_str(),
        }
    }

    /// The name.
    pub(crate) fn name(&self) -> Name
        ensures { result ≡ self.now }
    {
        match parse_name(self.as_str()) {
            Ok(name) => name,
            Err(_) => unreachable!(),
        }
    }
}
