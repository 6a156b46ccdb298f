//! The JSON value of a body.
ghost use Rattle.web_codec.specs.JsonValues.{ReadsValue};

use crate::faults::JsonFault;
use serde_json::Value;
use std::alloc::Global;
use web_texts::Fail;

/// Reads the JSON value (RFC 8259) that a body is. Returns `Syntax` where it is none: text after
/// the value, bytes that are no UTF-8, nesting deeper than 127 and a number that is greater than
/// every float are such.
///
/// Of a key that comes more than once the last value counts.
pub fn read_value(alloc: Global, bytes: &[u8]) -> Result<Value, Fail<JsonFault>>
    ensures { ReadsValue bytes.now result }
{
    match Value::from_slice(alloc, bytes) {
        Ok(value) => Ok(value),
        Err(e) => if e.is_memory() {
            Err(Fail::NoMemory)
        } else {
            Err(Fail::Of(JsonFault::Syntax))
        },
    }
}
