//! `Order`, as `types.txt` lists it. Written by tools/new-type.
ghost use Rattle.std.specs.Prelude.{◌≡◌};
ghost use Rattle.web_codec.specs.Answers.{Answers};
ghost use Rattle.test_types.specs.Order.{bounded_order_name, bounded_order_tags};

use crate::payment::Payment;
use crate::price::Price;
use serde_json::{Value, json};
use std::alloc::Global;
use web_codec::{ReadData, ReadFault, WriteData, deny_unknown, member_or, object, required};
use web_texts::{Fail, Items, NoMemory, Text};

/// An order, which has no member that it does not name.
#[derive(Debug, Drop)]
pub struct Order {
    /// The member `name`.
    pub name: Text,
    /// The member `price`.
    pub price: Price,
    /// The member `note`.
    pub note: Option<Text>,
    /// The member `tags`.
    pub tags: Items<Text>,
    /// How it is paid.
    pub kind: Payment,
}

/// Refuses a `name` that is out of its bounds.
fn bounded_name(alloc: Global, name: Text) -> Result<Text, Fail<ReadFault>>
    ensures { Answers (λ x. x ≡ bounded_order_name name) result }
{
    if name.as_str().len() > 40 {
        return Err(ReadFault::refusal(alloc, "name: more than 40 bytes"));
    }
    Ok(name)
}

/// Refuses a `tags` that is out of its bounds.
fn bounded_tags(alloc: Global, tags: Items<Text>) -> Result<Items<Text>, Fail<ReadFault>>
    ensures { Answers (λ x. x ≡ bounded_order_tags tags) result }
{
    if tags.as_slice().len() > 8 {
        return Err(ReadFault::refusal(alloc, "tags: more than 8 items"));
    }
    Ok(tags)
}

impl ReadData for Order {
    ghost use Rattle.test_types.specs.Order.{order_of};

    ghost read = { order_of };

    fn read_data(alloc: Global, value: &Value) -> Result<Order, Fail<ReadFault>> {
        object(alloc, value)?;
        deny_unknown(alloc, value, &["name", "price", "note", "tags", "type"])?;
        Ok(Order {
            name: bounded_name(alloc, required(alloc, value, "name")?)?,
            price: required(alloc, value, "price")?,
            note: member_or(alloc, value, "note", None)?,
            tags: bounded_tags(
                alloc,
                member_or(alloc, value, "tags", Items::of(Vec::new(alloc)))?,
            )?,
            kind: required(alloc, value, "type")?,
        })
    }
}

impl WriteData for Order {
    ghost use Rattle.test_types.specs.Order.{data_of_order, order_no_float};

    ghost written = { data_of_order };

    ghost no_float = { order_no_float };

    fn write_data(&self, alloc: Global) -> Result<Value, NoMemory> {
        Ok(json!(in alloc; {
            "name": self.name.write_data(alloc)?,
            "price": self.price.write_data(alloc)?,
            "note": self.note.write_data(alloc)?,
            "tags": self.tags.write_data(alloc)?,
            "type": self.kind.write_data(alloc)?,
        })?)
    }
}
