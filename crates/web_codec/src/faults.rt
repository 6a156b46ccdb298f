//! Why a value was not read or written.
ghost use Rattle.std.specs.Prelude.{◌≡◌};
ghost use Rattle.web_codec.specs.Answers.{IsFault};

use std::alloc::Global;
use std::fmt;
use web_texts::{Fail, Text};

/// A reader refused what it was given.
#[derive(Debug, Drop, PartialEq, Eq)]
pub struct ReadFault {
    /// The reader's reason.
    pub text: Text,
}

/// A writer refused its value, or wrote a JSON value that holds a float.
#[derive(Debug, Drop, PartialEq, Eq)]
pub struct WriteFault {
    /// The writer's reason, or `float`.
    pub text: Text,
}

/// Why a body gave no value.
#[derive(Debug, Drop, PartialEq, Eq)]
pub enum JsonFault {
    /// The body is no JSON (RFC 8259) in UTF-8, nests deeper than 127, or has a number that is
    /// greater than every float.
    Syntax,
    /// Its value holds a float. Integers outside -2^63 to 2^64 - 1 are floats, and so is `-0`.
    Float,
    /// The reader refused its value.
    Target(ReadFault),
}

impl ReadFault {
    /// The refusal of a reader with this text, or `NoMemory` where the text could not be copied.
    pub fn refusal(alloc: Global, text: &str) -> Fail<ReadFault>
        ensures { IsFault (record { text = text.now }) result }
    {
        match Text::of(alloc, text) {
            Ok(text) => Fail::Of(ReadFault { text }),
            Err(_) => Fail::NoMemory,
        }
    }
}

impl WriteFault {
    /// The refusal of a writer with this text, or `NoMemory` where the text could not be copied.
    pub fn refusal(alloc: Global, text: &str) -> Fail<WriteFault>
        ensures { IsFault (record { text = text.now }) result }
    {
        match Text::of(alloc, text) {
            Ok(text) => Fail::Of(WriteFault { text }),
            Err(_) => Fail::NoMemory,
        }
    }
}

impl fmt::Display for ReadFault {
    ghost use Rattle.std.specs.Prelude.{Some};

    ghost output = { λ e. Some e.text };

    fn fmt<W: fmt::Write>(&self, f: &mut fmt::Formatter<W>) -> fmt::Result {
        f.write_str(self.text.as_str())
    }
}

impl fmt::Display for WriteFault {
    ghost use Rattle.std.specs.Prelude.{Some};

    ghost output = { λ e. Some e.text };

    fn fmt<W: fmt::Write>(&self, f: &mut fmt::Formatter<W>) -> fmt::Result {
        f.write_str(self.text.as_str())
    }
}

impl fmt::Display for JsonFault {
    ghost use Rattle.std.specs.Prelude.{Some};
    ghost use Rattle.web_codec.specs.FaultTexts.{json_fault_text};

    ghost output = { λ e. Some (json_fault_text e) };

    fn fmt<W: fmt::Write>(&self, f: &mut fmt::Formatter<W>) -> fmt::Result {
        f.write_str(match self {
            JsonFault::Syntax => "no JSON",
            JsonFault::Float => "float",
            JsonFault::Target(fault) => fault.text.as_str(),
        })
    }
}
