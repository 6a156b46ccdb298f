//! `Posted`, as `types.txt` lists it. Written by tools/new-type.

use serde_json::{Value, json};
use std::alloc::Global;
use web_codec::{
    ReadData, ReadFault, ReadPairs, WriteData, WriteFault, WriteField, WritePairs, field_or,
    member_or, object,
};
use web_texts::{Fail, NoMemory, Pair, Text};

/// The fields of the form as they were posted. One that is missing is empty.
#[derive(Debug, Drop)]
pub struct Posted {
    /// The member `name`.
    pub name: Text,
    /// The member `seats`.
    pub seats: Text,
}

impl ReadData for Posted {
    ghost use Rattle.example_site.specs.Posted.{posted_of};

    ghost read = { posted_of };

    fn read_data(alloc: Global, value: &Value) -> Result<Posted, Fail<ReadFault>> {
        object(alloc, value)?;
        Ok(Posted {
            name: member_or(alloc, value, "name", Text::of(alloc, "")?)?,
            seats: member_or(alloc, value, "seats", Text::of(alloc, "")?)?,
        })
    }
}

impl WriteData for Posted {
    ghost use Rattle.example_site.specs.Posted.{data_of_posted, posted_no_float};

    ghost written = { data_of_posted };

    ghost no_float = { posted_no_float };

    fn write_data(&self, alloc: Global) -> Result<Value, NoMemory> {
        Ok(json!(in alloc; {
            "name": self.name.write_data(alloc)?,
            "seats": self.seats.write_data(alloc)?,
        })?)
    }
}

impl ReadPairs for Posted {
    ghost use Rattle.std.specs.Prelude.{◌≡◌};
    ghost use Rattle.example_site.specs.Posted.{posted_of_pairs};

    ghost reads_pairs = { λ pairs x. x ≡ posted_of_pairs pairs };

    fn read_pairs(alloc: Global, pairs: &[Pair]) -> Result<Posted, Fail<ReadFault>> {
        Ok(Posted {
            name: field_or(alloc, pairs, "name", Text::of(alloc, "")?)?,
            seats: field_or(alloc, pairs, "seats", Text::of(alloc, "")?)?,
        })
    }
}

impl WritePairs for Posted {
    ghost use Rattle.std.specs.Prelude.{◌≡◌, Ok};
    ghost use Rattle.example_site.specs.Posted.{pairs_of_posted};

    ghost writes_pairs = { λ x y. y ≡ Ok (pairs_of_posted x) };

    fn write_pairs(&self, alloc: Global) -> Result<Vec<Pair>, Fail<WriteFault>> {
        let mut pairs = Vec::new(alloc);
        self.name.write_field(alloc, "name", &mut pairs)?;
        self.seats.write_field(alloc, "seats", &mut pairs)?;
        Ok(pairs)
    }
}
