//! Items of a list in whose place `*` may stand.
ghost use Rattle.std.specs.Prelude.{◌≡◌, not};
ghost use Rattle.std.specs.Option.{option_copied, is_some};
ghost use Rattle.web_headers.specs.Preferences.{preferred_item};

use std::alloc::Global;
use std::fmt;
use web_texts::{Duplicate, Fail, NoMemory, ParseError, ReadText, trim};

/// An item, or `*` in its place, which stands for any (RFC 9110, section 12.5). `Any` is the
/// least.
#[derive(Clone, Copy, Debug, Drop, PartialEq, Eq, PartialOrd, Hash)]
pub enum Preference<T> {
    /// Any item.
    Any,
    /// This item.
    Specific(T),
}

impl<T> Preference<T> {
    /// Whether it is any item.
    pub fn is_any(&self) -> bool
        ensures { result ≡ not (is_some (preferred_item self.now)) }
    {
        matches!(self, Preference::Any)
    }

    /// Whether it is an item.
    pub fn is_specific(&self) -> bool
        ensures { result ≡ is_some (preferred_item self.now) }
    {
        matches!(self, Preference::Specific(_))
    }

    /// The item, if it is one.
    pub fn item(&self) -> Option<&T>
        ensures { option_copied result ≡ preferred_item self.now }
    {
        match self {
            Preference::Specific(item) => Some(item),
            Preference::Any => None,
        }
    }

    /// As `item`, by value.
    pub fn into_item(self) -> Option<T>
        ensures { result ≡ preferred_item self }
    {
        match self {
            Preference::Specific(item) => Some(item),
            Preference::Any => None,
        }
    }
}

impl<T: ReadText + Drop> ReadText for Preference<T> {
    ghost use Rattle.std.specs.Prelude.{IsTrue, codes};
    ghost use Rattle.std.specs.Str.{bytes_eq};
    ghost use Rattle.web_texts.specs.Blanks.{trimmed};
    ghost use Rattle.web_texts.specs.TextReaders.{Reads};
    ghost use Rattle.web_texts.specs.TextReaders.{NeverNoMemory};
    ghost use Rattle.web_headers.specs.Preferences.{preference_of};

    ghost reads = { preference_of T.reads };

    /// Reads `*` or an item, with blanks around it. `*` takes no memory.
    fn parse(alloc: Global, text: &str) -> Result<Self, Fail<ParseError>>
        ensures value { Reads result (preference_of T.reads text.now) }
        ensures memory { IsTrue (bytes_eq (trimmed text.now) (codes "*")) → NeverNoMemory result }
    {
        let text = trim(text);
        if text == "*" {
            return Ok(Preference::Any);
        }
        let item = T::parse(alloc, text)?;
        Ok(Preference::Specific(item))
    }
}

impl<T: Duplicate> Duplicate for Preference<T> {
    ghost use Rattle.std.specs.Prelude.{◌≡◌, None, Ok, IfOk};
    ghost use Rattle.web_headers.specs.Preferences.{preferred_item};

    /// A copy. That of `Any` takes no memory.
    fn duplicate(&self, alloc: Global) -> Result<Self, NoMemory>
        ensures value { IfOk result (λ copy. copy ≡ self.now) }
        ensures memory { preferred_item self.now ≡ None → result ≡ Ok self.now }
    {
        match self {
            Preference::Any => Ok(Preference::Any),
            Preference::Specific(item) => Ok(Preference::Specific(item.duplicate(alloc)?)),
        }
    }
}

impl<T: fmt::Display> fmt::Display for Preference<T> {
    ghost use Rattle.web_headers.specs.Preferences.{preference_output};

    ghost output = { preference_output T.output };

    fn fmt<W: fmt::Write>(&self, f: &mut fmt::Formatter<W>) -> fmt::Result {
        match self {
            Preference::Any => f.write_str("*"),
            Preference::Specific(item) => write!(f, "{item}"),
        }
    }
}
