//! Names of charsets.
ghost use Rattle.std.specs.Prelude.{◌≡◌};
ghost use Rattle.web_texts.specs.Charsets.{charset_name_of};
ghost use Rattle.web_texts.specs.TextReaders.{Reads};

use crate::errors::ParseError;
use crate::grammar::readers::ReadText;
use crate::memory::duplicate::Duplicate;
use crate::memory::{Fail, NoMemory};
use crate::texts::text::Text;
use std::alloc::Global;
use std::fmt;
use std::marker::Model;

/// The name of a charset, kept in ASCII upper case. Every text is one, also `*` and the empty one
/// (RFC 9110, section 8.3.2, asks for a token). Contracts see the name.
#[derive(Debug, Drop, PartialEq, Eq)]
pub struct Charset {
    name: Text,
}

impl Model for Charset {
    ghost use Rattle.std.specs.Prelude.{List, ℕ};

    ghost Value = { List ℕ };

    ghost view = { λ c. c.name };

    ghost inverse = { λ name. record { name = name } };
}

impl Charset {
    /// Reads a name. It is never `ParseError::Header`.
    pub fn parse(alloc: Global, text: &str) -> Result<Charset, Fail<ParseError>>
        ensures { Reads result (charset_name_of text.now) }
    {
        let name = text.to_ascii_uppercase(alloc)?;
        Ok(Charset {
            name: Text::from(name),
        })
    }

    /// The name, in upper case.
    pub fn as_str(&self) -> &str
        ensures { result.now ≡ self.now }
    {
        self.name.as_str()
    }
}

impl ReadText for Charset {
    ghost use Rattle.web_texts.specs.Charsets.{charset_name_of};

    ghost reads = { charset_name_of };

    fn parse(alloc: Global, text: &str) -> Result<Charset, Fail<ParseError>> {
        Charset::parse(alloc, text)
    }
}

impl Duplicate for Charset {
    fn duplicate(&self, alloc: Global) -> Result<Charset, NoMemory> {
        Ok(Charset {
            name: self.name.duplicate(alloc)?,
        })
    }
}

impl fmt::Display for Charset {
    ghost use Rattle.std.specs.Prelude.{Some};

    ghost output = { λ c. Some c };

    fn fmt<W: fmt::Write>(&self, f: &mut fmt::Formatter<W>) -> fmt::Result {
        f.write_str(self.as_str())
    }
}
