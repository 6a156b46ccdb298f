//! `Order`, as `types.txt` lists it. Written by tools/new-type.

use serde_json::{Value, json};
use std::alloc::Global;
use web_codec::{
    ReadData, ReadFault, ReadPairs, WriteData, WriteFault, WriteField, WritePairs, field_or,
    member_or, object,
};
use web_texts::{Fail, NoMemory, Pair};

/// How many are ordered: one where the query does not say it.
#[derive(Debug, Drop)]
pub struct Order {
    /// The member `count`.
    pub count: u64,
}

impl ReadData for Order {
    ghost use Rattle.example_shop.specs.Order.{order_of};

    ghost read = { order_of };

    fn read_data(alloc: Global, value: &Value) -> Result<Order, Fail<ReadFault>> {
        object(alloc, value)?;
        Ok(Order {
            count: member_or(alloc, value, "count", 1)?,
        })
    }
}

impl WriteData for Order {
    ghost use Rattle.example_shop.specs.Order.{data_of_order, order_no_float};

    ghost written = { data_of_order };

    ghost no_float = { order_no_float };

    fn write_data(&self, alloc: Global) -> Result<Value, NoMemory> {
        Ok(json!(in alloc; {
            "count": self.count.write_data(alloc)?,
        })?)
    }
}

impl ReadPairs for Order {
    ghost use Rattle.std.specs.Prelude.{◌≡◌};
    ghost use Rattle.example_shop.specs.Order.{order_of_pairs};

    ghost reads_pairs = { λ pairs x. x ≡ order_of_pairs pairs };

    fn read_pairs(alloc: Global, pairs: &[Pair]) -> Result<Order, Fail<ReadFault>> {
        Ok(Order {
            count: field_or(alloc, pairs, "count", 1)?,
        })
    }
}

impl WritePairs for Order {
    ghost use Rattle.std.specs.Prelude.{◌≡◌, Ok};
    ghost use Rattle.example_shop.specs.Order.{pairs_of_order};

    ghost writes_pairs = { λ x y. y ≡ Ok (pairs_of_order x) };

    fn write_pairs(&self, alloc: Global) -> Result<Vec<Pair>, Fail<WriteFault>> {
        let mut pairs = Vec::new(alloc);
        self.count.write_field(alloc, "count", &mut pairs)?;
        Ok(pairs)
    }
}
