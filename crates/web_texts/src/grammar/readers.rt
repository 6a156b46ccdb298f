//! Values that are read from a text.
ghost use Rattle.std.specs.Prelude.{List, ℕ, Option};
ghost use Rattle.web_texts.specs.TextReaders.{Reads};

use crate::errors::ParseError;
use crate::memory::Fail;
use std::alloc::Global;

/// A value that is read from a text. It stands where Rust has `FromStr`.
pub trait ReadText: Sized {
    /// The value of a text, if the text has one.
    ghost reads: { List ℕ → Option Self };

    /// Reads the whole text. Returns `ParseError::Header` exactly where the text has no value of
    /// this type.
    fn parse(alloc: Global, text: &str) -> Result<Self, Fail<ParseError>>
        ensures { Reads result (reads text.now) };
}
