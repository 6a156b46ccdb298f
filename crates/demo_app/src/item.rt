//! An item, as it is read from JSON and written.
use serde_json::{Value, json};
use std::alloc::Global;
use std::fmt;
use web_codec::{ReadData, ReadFault, WriteFault, WriteJson};
use web_texts::{Fail, Text};

/// A named number, which the demo reads from JSON bodies, forms, queries and paths.
#[derive(Debug, Drop, PartialEq, Eq)]
pub struct Item {
    /// The key `name`.
    pub name: Text,
    /// The key `n`.
    pub n: u64,
}

/// An object with the keys `name`, a text, and `n`, a whole number of 0 to 2^64 - 1. Further keys
/// are ignored. The refusals, in the order of their tests: `no object`, `missing name`,
/// `name is no text`, `missing n`, `n is no whole number`.
impl ReadData for Item {
    ghost use Rattle.demo_app.specs.Items.{item_of_json};

    ghost read = { item_of_json };

    fn read_data(alloc: Global, value: &Value) -> Result<Item, Fail<ReadFault>> {
        if !value.is_object() {
            return Err(ReadFault::refusal(alloc, "no object"));
        }
        let Some(name) = value.get("name") else {
            return Err(ReadFault::refusal(alloc, "missing name"));
        };
        let Some(name) = name.as_str() else {
            return Err(ReadFault::refusal(alloc, "name is no text"));
        };
        let Some(n) = value.get("n") else {
            return Err(ReadFault::refusal(alloc, "missing n"));
        };
        let Some(n) = n.as_u64() else {
            return Err(ReadFault::refusal(alloc, "n is no whole number"));
        };
        Ok(Item {
            name: Text::of(alloc, name)?,
            n,
        })
    }
}

/// An object with the keys `n` and `name`. No item is refused.
impl WriteJson for Item {
    ghost use Rattle.std.specs.Prelude.{◌≡◌, Ok};
    ghost use Rattle.demo_app.specs.Items.{json_of_item};

    ghost writes = { λ item written. written ≡ Ok (json_of_item item) };

    fn write_json(&self, alloc: Global) -> Result<Value, Fail<WriteFault>> {
        Ok(json!(in alloc; {"n": self.n, "name": self.name.as_str()})?)
    }
}

/// The name, a space and the number.
impl fmt::Display for Item {
    ghost use Rattle.std.specs.Prelude.{Some};
    ghost use Rattle.demo_app.specs.Items.{item_text};

    ghost output = { λ item. Some (item_text item) };

    fn fmt<W: fmt::Write>(&self, f: &mut fmt::Formatter<W>) -> fmt::Result {
        write!(f, "{} {}", self.name, self.n)
    }
}
