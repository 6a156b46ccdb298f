//! Bodies decoded by readers.
ghost use Rattle.web_codec.specs.Answers.{Answers};
ghost use Rattle.web_codec.specs.DecodedJson.{DecodesJson};
ghost use Rattle.web_codec.specs.DecodedForms.{DecodesForm};

use crate::faults::{JsonFault, ReadFault};
use crate::form::form_pairs;
use crate::readers::{ReadJson, ReadPairs};
use std::alloc::Global;
use web_texts::Fail;

/// What a reader makes of a JSON body. The tests stand in this order: a body that is no JSON is
/// `Syntax`, a value that holds a float is `Float`, and a refusal of the reader is `Target`.
pub fn decode_json<T: ReadJson>(alloc: Global, bytes: &[u8]) -> Result<T, Fail<JsonFault>>
    ensures { Answers (DecodesJson T.reads bytes.now) result }
{
    T::read_text(alloc, bytes)
}

/// What a reader makes of the pairs of a form. Only the reader refuses.
pub fn decode_form<T: ReadPairs>(alloc: Global, bytes: &[u8]) -> Result<T, Fail<ReadFault>>
    ensures { Answers (DecodesForm T.reads_pairs bytes.now) result }
{
    let pairs = form_pairs(alloc, bytes)?;
    T::read_pairs(alloc, &pairs)
}
