//! `Item`, as `types.txt` lists it. Written by tools/new-type.

use serde_json::{Value, json};
use std::alloc::Global;
use web_codec::{
    ReadData, ReadFault, ReadPairs, WriteData, WriteFault, WriteField, WritePairs, all_fields,
    member_or, object, required, required_field,
};
use web_texts::{Fail, Items, NoMemory, Pair, Text};

/// An item: a number, a name, and tags that may be left out.
#[derive(Debug, Drop)]
pub struct Item {
    /// The member `id`.
    pub id: u64,
    /// The member `name`.
    pub name: Text,
    /// The member `tags`.
    pub tags: Items<Text>,
}

impl ReadData for Item {
    ghost use Rattle.example_site.specs.Item.{item_of};

    ghost read = { item_of };

    fn read_data(alloc: Global, value: &Value) -> Result<Item, Fail<ReadFault>> {
        object(alloc, value)?;
        Ok(Item {
            id: required(alloc, value, "id")?,
            name: required(alloc, value, "name")?,
            tags: member_or(alloc, value, "tags", Items::of(Vec::new(alloc)))?,
        })
    }
}

impl WriteData for Item {
    ghost use Rattle.example_site.specs.Item.{data_of_item, item_no_float};

    ghost written = { data_of_item };

    ghost no_float = { item_no_float };

    fn write_data(&self, alloc: Global) -> Result<Value, NoMemory> {
        Ok(json!(in alloc; {
            "id": self.id.write_data(alloc)?,
            "name": self.name.write_data(alloc)?,
            "tags": self.tags.write_data(alloc)?,
        })?)
    }
}

impl ReadPairs for Item {
    ghost use Rattle.std.specs.Prelude.{◌≡◌};
    ghost use Rattle.example_site.specs.Item.{item_of_pairs};

    ghost reads_pairs = { λ pairs x. x ≡ item_of_pairs pairs };

    fn read_pairs(alloc: Global, pairs: &[Pair]) -> Result<Item, Fail<ReadFault>> {
        Ok(Item {
            id: required_field(alloc, pairs, "id")?,
            name: required_field(alloc, pairs, "name")?,
            tags: all_fields(alloc, pairs, "tags")?,
        })
    }
}

impl WritePairs for Item {
    ghost use Rattle.std.specs.Prelude.{◌≡◌, Ok};
    ghost use Rattle.example_site.specs.Item.{pairs_of_item};

    ghost writes_pairs = { λ x y. y ≡ Ok (pairs_of_item x) };

    fn write_pairs(&self, alloc: Global) -> Result<Vec<Pair>, Fail<WriteFault>> {
        let mut pairs = Vec::new(alloc);
        self.id.write_field(alloc, "id", &mut pairs)?;
        self.name.write_field(alloc, "name", &mut pairs)?;
        self.tags.write_field(alloc, "tags", &mut pairs)?;
        Ok(pairs)
    }
}
