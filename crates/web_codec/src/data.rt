//! Types that are read from JSON values by a function, and written by one.
ghost use Rattle.std.specs.Prelude.{◌≡◌, Result, IfOk, false};
ghost use Rattle.serde_json.specs.Data.{Data};
ghost use Rattle.serde_json.specs.View.{view};
ghost use Rattle.serde_json.specs.Written.{has_float};
ghost use Rattle.web_codec.specs.Answers.{Answers};

use crate::faults::{ReadFault, WriteFault};
use crate::readers::{ReadJson, WriteJson};
use serde_json::Value;
use std::alloc::Global;
use web_texts::{Fail, NoMemory};

/// A type that is read from JSON values by a function. It is `ReadJson` too.
pub trait ReadData: Sized + Drop {
    ghost use Rattle.web_codec.specs.declared.faults.ReadFault.{ReadFault};

    /// What is read from a value.
    ghost read: { Data → Result Self ReadFault };

    /// Reads a value.
    fn read_data(alloc: Global, value: &Value) -> Result<Self, Fail<ReadFault>>
        ensures { Answers (λ x. x ≡ read (view value.now)) result };
}

/// A type that is written as a JSON value. It is `WriteJson` too.
pub trait WriteData {
    /// What is written for a value.
    ghost written: { Self → Data };

    /// Writes a value.
    fn write_data(&self, alloc: Global) -> Result<Value, NoMemory>
        ensures { IfOk result (λ v. view v ≡ written self.now) };

    /// What is written holds no float.
    ghost no_float: { (x : Self) → has_float (written x) ≡ false };
}

impl<T: ReadData> ReadJson for T {
    ghost use Rattle.std.specs.Prelude.{◌≡◌};

    ghost reads = { λ d x. x ≡ T.read d };

    fn read_json(alloc: Global, value: &Value) -> Result<T, Fail<ReadFault>> {
        T::read_data(alloc, value)
    }
}

impl<T: WriteData> WriteJson for T {
    ghost use Rattle.std.specs.Prelude.{◌≡◌, Ok};

    ghost writes = { λ x y. y ≡ Ok (T.written x) };

    fn write_json(&self, alloc: Global) -> Result<Value, Fail<WriteFault>> {
        Ok(self.write_data(alloc)?)
    }
}
