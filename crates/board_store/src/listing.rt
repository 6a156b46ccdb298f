//! `Listing`, as `types.txt` lists it. Written by tools/new-type.

use crate::item::Item;
use serde_json::{Value, json};
use std::alloc::Global;
use web_codec::{ReadData, ReadFault, WriteData, member_or, object, required};
use web_texts::{Fail, Items, NoMemory};

/// Some of the items, by their numbers, and the number to go on after if there may be more.
#[derive(Debug, Drop)]
pub struct Listing {
    /// The member `items`.
    pub items: Items<Item>,
    /// The member `next`.
    pub next: Option<i64>,
}

impl ReadData for Listing {
    ghost use Rattle.board_store.specs.Listing.{listing_of};

    ghost read = { listing_of };

    fn read_data(alloc: Global, value: &Value) -> Result<Listing, Fail<ReadFault>> {
        object(alloc, value)?;
        Ok(Listing {
            items: required(alloc, value, "items")?,
            next: member_or(alloc, value, "next", None)?,
        })
    }
}

impl WriteData for Listing {
    ghost use Rattle.board_store.specs.Listing.{data_of_listing, listing_no_float};

    ghost written = { data_of_listing };

    ghost no_float = { listing_no_float };

    fn write_data(&self, alloc: Global) -> Result<Value, NoMemory> {
        Ok(json!(in alloc; {
            "items": self.items.write_data(alloc)?,
            "next": self.next.write_data(alloc)?,
        })?)
    }
}
