//! `Item`, as `types.txt` lists it. Written by tools/new-type.

use serde_json::{Value, json};
use std::alloc::Global;
use web_codec::{
    ReadData, ReadFault, ReadPairs, WriteData, WriteFault, WriteField, WritePairs, object,
    required, required_field,
};
use web_texts::{Fail, NoMemory, Pair, Text};

/// An item of the board, as the file holds it.
#[derive(Debug, Drop)]
pub struct Item {
    /// The member `id`.
    pub id: i64,
    /// The member `title`.
    pub title: Text,
    /// The member `seats`.
    pub seats: i64,
    /// The member `done`.
    pub done: bool,
}

impl ReadData for Item {
    ghost use Rattle.board_store.specs.Item.{item_of};

    ghost read = { item_of };

    fn read_data(alloc: Global, value: &Value) -> Result<Item, Fail<ReadFault>> {
        object(alloc, value)?;
        Ok(Item {
            id: required(alloc, value, "id")?,
            title: required(alloc, value, "title")?,
            seats: required(alloc, value, "seats")?,
            done: required(alloc, value, "done")?,
        })
    }
}

impl WriteData for Item {
    ghost use Rattle.board_store.specs.Item.{data_of_item, item_no_float};

    ghost written = { data_of_item };

    ghost no_float = { item_no_float };

    fn write_data(&self, alloc: Global) -> Result<Value, NoMemory> {
        Ok(json!(in alloc; {
            "id": self.id.write_data(alloc)?,
            "title": self.title.write_data(alloc)?,
            "seats": self.seats.write_data(alloc)?,
            "done": self.done.write_data(alloc)?,
        })?)
    }
}

impl ReadPairs for Item {
    ghost use Rattle.std.specs.Prelude.{◌≡◌};
    ghost use Rattle.board_store.specs.Item.{item_of_pairs};

    ghost reads_pairs = { λ pairs x. x ≡ item_of_pairs pairs };

    fn read_pairs(alloc: Global, pairs: &[Pair]) -> Result<Item, Fail<ReadFault>> {
        Ok(Item {
            id: required_field(alloc, pairs, "id")?,
            title: required_field(alloc, pairs, "title")?,
            seats: required_field(alloc, pairs, "seats")?,
            done: required_field(alloc, pairs, "done")?,
        })
    }
}

impl WritePairs for Item {
    ghost use Rattle.std.specs.Prelude.{◌≡◌, Ok};
    ghost use Rattle.board_store.specs.Item.{pairs_of_item};

    ghost writes_pairs = { λ x y. y ≡ Ok (pairs_of_item x) };

    fn write_pairs(&self, alloc: Global) -> Result<Vec<Pair>, Fail<WriteFault>> {
        let mut pairs = Vec::new(alloc);
        self.id.write_field(alloc, "id", &mut pairs)?;
        self.title.write_field(alloc, "title", &mut pairs)?;
        self.seats.write_field(alloc, "seats", &mut pairs)?;
        self.done.write_field(alloc, "done", &mut pairs)?;
        Ok(pairs)
    }
}
