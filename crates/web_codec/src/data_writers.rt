//! Writers of the types of std and of this library.
ghost use Rattle.std.specs.Prelude.{◌≡◌};
ghost use Rattle.serde_json.specs.View.{view};

use crate::data::WriteData;
use serde_json::Value;
use std::alloc::Global;
use web_texts::{Items, NoMemory, Text};

impl WriteData for Text {
    ghost use Rattle.web_codec.specs.DataWriters.{data_of_text, text_no_float};

    ghost written = { data_of_text };

    ghost no_float = { text_no_float };

    fn write_data(&self, alloc: Global) -> Result<Value, NoMemory> {
        Ok(Value::from(String::from_str(alloc, self.as_str())?))
    }
}

impl WriteData for bool {
    ghost use Rattle.web_codec.specs.DataWriters.{data_of_bool, bool_no_float};

    ghost written = { data_of_bool };

    ghost no_float = { bool_no_float };

    fn write_data(&self, _alloc: Global) -> Result<Value, NoMemory> {
        Ok(Value::from(*self))
    }
}

impl<T: WriteData> WriteData for Option<T> {
    ghost use Rattle.web_codec.specs.DataWriters.{data_of_option, option_no_float};

    ghost written = { data_of_option T.written };

    ghost no_float = { option_no_float T.written T.no_float };

    fn write_data(&self, alloc: Global) -> Result<Value, NoMemory> {
        match self {
            Some(value) => value.write_data(alloc),
            None => Ok(Value::Null),
        }
    }
}

impl<T: WriteData> WriteData for Items<T> {
    ghost use Rattle.web_codec.specs.DataWriters.{data_of_list, list_no_float};

    ghost written = { data_of_list T.written };

    ghost no_float = { list_no_float T.written T.no_float };

    fn write_data(&self, alloc: Global) -> Result<Value, NoMemory> {
        let mut values = Vec::with_capacity(alloc, self.as_slice().len())?;
        for item in self.as_slice() {
            values.push(item.write_data(alloc)?)?;
        }
        Ok(Value::from(values))
    }
}
