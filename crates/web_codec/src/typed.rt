//! Types that serde reads and writes.
use crate::faults::{JsonFault, ReadFault, WriteFault};
use crate::floats::holds_float;
use crate::json_value::read_value;
use crate::pairs_format::from_pairs;
use crate::readers::{ReadJson, ReadPairs, WriteJson};
use serde::{Deserialize, DeserializeOwned, Deserializer, Format, Serialize};
use serde_json::Value;
use std::alloc::Global;
use web_texts::{Fail, Pair};

/// A value that serde's derives read and write. It promises nothing of what is read or written, and
/// takes twice the time of a reader by `ReadData`.
///
/// It is read from JSON, where a body that is no JSON or holds a float is refused as by any reader,
/// and from the pairs of forms, queries and paths; it is written as JSON. A member or a name that
/// comes twice is refused.
#[derive(Debug, Drop)]
pub struct Typed<T>(pub T);

// `from_slice` asks for a type that may borrow.
impl<'de, T: DeserializeOwned> Deserialize<'de> for Typed<T> {
    fn deserialize<F: Format>(
        alloc: Global,
        from: &mut Deserializer<'de, '_, F>,
    ) -> Result<Typed<T>, F::Error> {
        Ok(Typed(T::deserialize_owned(alloc, from)?))
    }
}

/// The refusal of a reader with the text of serde's error.
fn refused(alloc: Global, error: serde_json::Error) -> Fail<ReadFault> {
    if error.is_memory() {
        return Fail::NoMemory;
    }
    match format!(in alloc; "{error}") {
        Ok(text) => ReadFault::refusal(alloc, text.as_str()),
        Err(_) => Fail::NoMemory,
    }
}

impl<T: DeserializeOwned> ReadJson for Typed<T> {
    fn read_json(alloc: Global, value: &Value) -> Result<Typed<T>, Fail<ReadFault>> {
        match serde_json::from_value::<T>(alloc, value.clone()?) {
            Ok(value) => Ok(Typed(value)),
            Err(error) => Err(refused(alloc, error)),
        }
    }

    fn read_text(alloc: Global, bytes: &[u8]) -> Result<Typed<T>, Fail<JsonFault>> {
        let value = read_value(alloc, bytes)?;
        if holds_float(&value) {
            return Err(Fail::Of(JsonFault::Float));
        }
        // Before serde reads the bytes, so that both are never there at once.
        drop(value);
        match serde_json::from_slice(alloc, bytes) {
            Ok(read) => Ok(read),
            Err(error) => match refused(alloc, error) {
                Fail::NoMemory => Err(Fail::NoMemory),
                Fail::Of(fault) => Err(Fail::Of(JsonFault::Target(fault))),
            },
        }
    }
}

impl<T: Serialize> WriteJson for Typed<T> {
    fn write_json(&self, alloc: Global) -> Result<Value, Fail<WriteFault>> {
        match serde_json::to_value(alloc, &self.0) {
            Ok(value) => Ok(value),
            Err(error) if error.is_memory() => Err(Fail::NoMemory),
            Err(error) => Err(WriteFault::refusal(alloc, format!(in alloc; "{error}")?.as_str())),
        }
    }
}

impl<T: DeserializeOwned> ReadPairs for Typed<T> {
    fn read_pairs(alloc: Global, pairs: &[Pair]) -> Result<Typed<T>, Fail<ReadFault>> {
        Ok(Typed(from_pairs(alloc, pairs)?))
    }
}
