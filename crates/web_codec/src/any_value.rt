//! JSON values as they are.
use crate::faults::{ReadFault, WriteFault};
use crate::readers::{ReadJson, WriteJson};
use serde_json::Value;
use std::alloc::Global;
use web_texts::Fail;

impl ReadJson for Value {
    ghost use Rattle.std.specs.Prelude.{◌≡◌};
    ghost use Rattle.web_codec.specs.DataReaders.{IsValue};

    ghost reads = { λ d x. IsValue d x };

    fn read_json(_alloc: Global, value: &Value) -> Result<Value, Fail<ReadFault>> {
        Ok(value.clone()?)
    }
}

impl WriteJson for Value {
    ghost use Rattle.std.specs.Prelude.{◌≡◌, Ok};
    ghost use Rattle.serde_json.specs.View.{view};

    ghost writes = { λ x y. y ≡ Ok (view x) };

    fn write_json(&self, _alloc: Global) -> Result<Value, Fail<WriteFault>> {
        Ok(self.clone()?)
    }
}
