//! Readers of the types of std and of this library.
ghost use Rattle.std.specs.Prelude.{◌≡◌};
ghost use Rattle.serde_json.specs.View.{view};

use crate::data::ReadData;
use crate::faults::ReadFault;
use serde_json::Value;
use std::alloc::Global;
use web_texts::{Fail, Items, Text};

impl ReadData for Text {
    ghost use Rattle.web_codec.specs.DataReaders.{text_of};

    ghost read = { text_of };

    fn read_data(alloc: Global, value: &Value) -> Result<Text, Fail<ReadFault>> {
        match value.as_str() {
            Some(text) => Ok(Text::of(alloc, text)?),
            None => Err(ReadFault::refusal(alloc, "no text")),
        }
    }
}

impl ReadData for bool {
    ghost use Rattle.web_codec.specs.DataReaders.{bool_of};

    ghost read = { bool_of };

    fn read_data(alloc: Global, value: &Value) -> Result<bool, Fail<ReadFault>> {
        match value.as_bool() {
            Some(answer) => Ok(answer),
            None => Err(ReadFault::refusal(alloc, "neither true nor false")),
        }
    }
}

/// `null`, or a value.
impl<T: ReadData> ReadData for Option<T> {
    ghost use Rattle.web_codec.specs.DataReaders.{option_of};

    ghost read = { option_of T.read };

    fn read_data(alloc: Global, value: &Value) -> Result<Option<T>, Fail<ReadFault>> {
        if value.is_null() {
            return Ok(None);
        }
        Ok(Some(T::read_data(alloc, value)?))
    }
}

/// A list, whose first item that is refused refuses it.
impl<T: ReadData> ReadData for Items<T> {
    ghost use Rattle.web_codec.specs.DataReaders.{list_of};

    ghost read = { list_of T.read };

    fn read_data(alloc: Global, value: &Value) -> Result<Items<T>, Fail<ReadFault>> {
        let Some(values) = value.as_array() else {
            return Err(ReadFault::refusal(alloc, "no list"));
        };
        let mut items = Vec::with_capacity(alloc, values.len())?;
        for member in values {
            items.push(T::read_data(alloc, member)?)?;
        }
        Ok(Items::of(items))
    }
}
