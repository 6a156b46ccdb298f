//! Readers and writers of a program's own types.
ghost use Rattle.std.specs.Prelude.{◌≡◌, List, Result, ⊤};
ghost use Rattle.serde_json.specs.Data.{Data};
ghost use Rattle.serde_json.specs.View.{view};
ghost use Rattle.web_codec.specs.Answers.{Answers, AnswersBy};
ghost use Rattle.web_codec.specs.DecodedJson.{DecodesJson};

use crate::faults::{JsonFault, ReadFault, WriteFault};
use crate::floats::holds_float;
use crate::json_value::read_value;
use serde_json::Value;
use std::alloc::Global;
use web_texts::{Fail, Pair};

/// A type that is read from JSON values.
pub trait ReadJson: Sized + Drop {
    ghost use Rattle.web_codec.specs.declared.faults.ReadFault.{ReadFault};

    /// Whether this may be read from this value. A reader that is a function `f` states
    /// `λ d x. x ≡ f d`, and one that does not state it promises nothing.
    ghost reads: { Data → Result Self ReadFault → Type 0 } = { λ _ _. ⊤ };

    /// Reads a value, which holds no float where `decode_json` asks.
    fn read_json(alloc: Global, value: &Value) -> Result<Self, Fail<ReadFault>>
        ensures { Answers (reads (view value.now)) result };

    /// Reads the text of a body, for `decode_json`. An impl of its own may read the bytes
    /// themselves, with results that `decode_json` allows.
    fn read_text(alloc: Global, bytes: &[u8]) -> Result<Self, Fail<JsonFault>>
        ensures { Answers (DecodesJson reads bytes.now) result }
    {
        let value = read_value(alloc, bytes)?;
        if holds_float(&value) {
            return Err(Fail::Of(JsonFault::Float));
        }
        match Self::read_json(alloc, &value) {
            Ok(read) => Ok(read),
            Err(Fail::NoMemory) => Err(Fail::NoMemory),
            Err(Fail::Of(e)) => Err(Fail::Of(JsonFault::Target(e))),
        }
    }
}

/// A type that is written as JSON values.
pub trait WriteJson {
    ghost use Rattle.web_codec.specs.declared.faults.WriteFault.{WriteFault};

    /// Whether this may be written for a value. A writer that does not state it promises nothing.
    ghost writes: { Self → Result Data WriteFault → Type 0 } = { λ _ _. ⊤ };

    /// Writes a value. One that holds a float is refused by `write_value`.
    fn write_json(&self, alloc: Global) -> Result<Value, Fail<WriteFault>>
        ensures { AnswersBy view (writes self.now) result };
}

/// A type that is read from names with values, as those of a form.
pub trait ReadPairs: Sized + Drop {
    ghost use Rattle.web_texts.specs.Pairs.{Pair};
    ghost use Rattle.web_codec.specs.declared.faults.ReadFault.{ReadFault};

    /// Whether this may be read from these pairs. A reader that is a function `f` states
    /// `λ pairs x. x ≡ f pairs`, and one that does not state it promises nothing.
    ghost reads_pairs: { List Pair → Result Self ReadFault → Type 0 } = { λ _ _. ⊤ };

    /// Reads the pairs, which stand in their order. A name may come more than once.
    fn read_pairs(alloc: Global, pairs: &[Pair]) -> Result<Self, Fail<ReadFault>>
        ensures { Answers (reads_pairs pairs.now) result };
}

/// A type that is written as names with values, as those of a form.
pub trait WritePairs {
    ghost use Rattle.web_texts.specs.Pairs.{Pair};
    ghost use Rattle.web_codec.specs.declared.faults.WriteFault.{WriteFault};

    /// Whether this may be written for a value. A writer that does not state it promises nothing.
    ghost writes_pairs: { Self → Result (List Pair) WriteFault → Type 0 } = { λ _ _. ⊤ };

    /// Writes the pairs, in the order that they have in a form.
    fn write_pairs(&self, alloc: Global) -> Result<Vec<Pair>, Fail<WriteFault>>
        ensures { AnswersBy (λ v. v.items) (writes_pairs self.now) result };
}
