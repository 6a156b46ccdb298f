//! Texts that writers give.
ghost use Rattle.web_codec.specs.Answers.{Answers};
ghost use Rattle.web_codec.specs.PrintedValues.{PrintsForm, PrintsJson};

use crate::faults::WriteFault;
use crate::floats::holds_float;
use crate::form::pairs_text;
use crate::readers::{WriteJson, WritePairs};
use std::alloc::Global;
use web_texts::{Fail, Text};

/// The JSON text of a value, without blanks and with the keys of each object in the order of their
/// bytes. Returns the writer's refusal, or one with the text `float` where what it wrote holds a
/// float.
pub fn write_value<T: WriteJson>(alloc: Global, value: &T) -> Result<Text, Fail<WriteFault>>
    ensures { Answers (PrintsJson (T.writes value.now)) result }
{
    let written = value.write_json(alloc)?;
    if holds_float(&written) {
        return Err(WriteFault::refusal(alloc, "float"));
    }
    Ok(Text::from(written.to_string(alloc)?))
}

/// The form of a value. Returns the writer's refusal.
pub fn write_form<T: WritePairs>(alloc: Global, value: &T) -> Result<Text, Fail<WriteFault>>
    ensures { Answers (PrintsForm (T.writes_pairs value.now)) result }
{
    let pairs = value.write_pairs(alloc)?;
    Ok(pairs_text(alloc, &pairs)?)
}
