//! `Offsets`, as `types.txt` lists it. Written by tools/new-type.
ghost use Rattle.std.specs.Prelude.{◌≡◌};
ghost use Rattle.web_codec.specs.Answers.{Answers};
ghost use Rattle.test_types.specs.Offsets.{bounded_offsets_change};

use serde_json::{Value, json};
use std::alloc::Global;
use web_codec::{
    ReadData, ReadFault, ReadPairs, WriteData, WriteFault, WriteField, WritePairs, field_or,
    member_or, object, required, required_field,
};
use web_texts::{Fail, NoMemory, Pair};

/// Whole numbers of every size, also below 0.
#[derive(Debug, Drop)]
pub struct Offsets {
    /// The member `small`.
    pub small: i8,
    /// The member `shift`.
    pub shift: i16,
    /// The member `change`.
    pub change: i32,
    /// The member `balance`.
    pub balance: i64,
    /// The member `offset`.
    pub offset: isize,
}

/// Refuses a `change` that is out of its bounds.
fn bounded_change(alloc: Global, change: i32) -> Result<i32, Fail<ReadFault>>
    ensures { Answers (λ x. x ≡ bounded_offsets_change change) result }
{
    if change < -1000 || change > 1000 {
        return Err(ReadFault::refusal(alloc, "change: not in -1000..=1000"));
    }
    Ok(change)
}

impl ReadData for Offsets {
    ghost use Rattle.test_types.specs.Offsets.{offsets_of};

    ghost read = { offsets_of };

    fn read_data(alloc: Global, value: &Value) -> Result<Offsets, Fail<ReadFault>> {
        object(alloc, value)?;
        Ok(Offsets {
            small: required(alloc, value, "small")?,
            shift: required(alloc, value, "shift")?,
            change: bounded_change(alloc, required(alloc, value, "change")?)?,
            balance: member_or(alloc, value, "balance", -1)?,
            offset: member_or(alloc, value, "offset", 0)?,
        })
    }
}

impl WriteData for Offsets {
    ghost use Rattle.test_types.specs.Offsets.{data_of_offsets, offsets_no_float};

    ghost written = { data_of_offsets };

    ghost no_float = { offsets_no_float };

    fn write_data(&self, alloc: Global) -> Result<Value, NoMemory> {
        Ok(json!(in alloc; {
            "small": self.small.write_data(alloc)?,
            "shift": self.shift.write_data(alloc)?,
            "change": self.change.write_data(alloc)?,
            "balance": self.balance.write_data(alloc)?,
            "offset": self.offset.write_data(alloc)?,
        })?)
    }
}

impl ReadPairs for Offsets {
    ghost use Rattle.std.specs.Prelude.{◌≡◌};
    ghost use Rattle.test_types.specs.Offsets.{offsets_of_pairs};

    ghost reads_pairs = { λ pairs x. x ≡ offsets_of_pairs pairs };

    fn read_pairs(alloc: Global, pairs: &[Pair]) -> Result<Offsets, Fail<ReadFault>> {
        Ok(Offsets {
            small: required_field(alloc, pairs, "small")?,
            shift: required_field(alloc, pairs, "shift")?,
            change: bounded_change(alloc, required_field(alloc, pairs, "change")?)?,
            balance: field_or(alloc, pairs, "balance", -1)?,
            offset: field_or(alloc, pairs, "offset", 0)?,
        })
    }
}

impl WritePairs for Offsets {
    ghost use Rattle.std.specs.Prelude.{◌≡◌, Ok};
    ghost use Rattle.test_types.specs.Offsets.{pairs_of_offsets};

    ghost writes_pairs = { λ x y. y ≡ Ok (pairs_of_offsets x) };

    fn write_pairs(&self, alloc: Global) -> Result<Vec<Pair>, Fail<WriteFault>> {
        let mut pairs = Vec::new(alloc);
        self.small.write_field(alloc, "small", &mut pairs)?;
        self.shift.write_field(alloc, "shift", &mut pairs)?;
        self.change.write_field(alloc, "change", &mut pairs)?;
        self.balance.write_field(alloc, "balance", &mut pairs)?;
        self.offset.write_field(alloc, "offset", &mut pairs)?;
        Ok(pairs)
    }
}
