//! `Counts`, as `types.txt` lists it. Written by tools/new-type.
ghost use Rattle.std.specs.Prelude.{◌≡◌};
ghost use Rattle.web_codec.specs.Answers.{Answers};
ghost use Rattle.test_types.specs.Counts.{bounded_counts_place};

use serde_json::{Value, json};
use std::alloc::Global;
use web_codec::{
    ReadData, ReadFault, ReadPairs, WriteData, WriteFault, WriteField, WritePairs, field_or,
    member_or, object, required, required_field,
};
use web_texts::{Fail, NoMemory, Pair};

/// Whole numbers of at least 0, of every size.
#[derive(Debug, Drop)]
pub struct Counts {
    /// The member `byte`.
    pub byte: u8,
    /// The member `port`.
    pub port: u16,
    /// The member `medium`.
    pub medium: u32,
    /// The member `large`.
    pub large: u64,
    /// The member `place`.
    pub place: usize,
}

/// Refuses a `place` that is out of its bounds.
fn bounded_place(alloc: Global, place: usize) -> Result<usize, Fail<ReadFault>>
    ensures { Answers (λ x. x ≡ bounded_counts_place place) result }
{
    if place > 9 {
        return Err(ReadFault::refusal(alloc, "place: not in 0..=9"));
    }
    Ok(place)
}

impl ReadData for Counts {
    ghost use Rattle.test_types.specs.Counts.{counts_of};

    ghost read = { counts_of };

    fn read_data(alloc: Global, value: &Value) -> Result<Counts, Fail<ReadFault>> {
        object(alloc, value)?;
        Ok(Counts {
            byte: required(alloc, value, "byte")?,
            port: required(alloc, value, "port")?,
            medium: required(alloc, value, "medium")?,
            large: member_or(alloc, value, "large", 0)?,
            place: bounded_place(alloc, member_or(alloc, value, "place", 0)?)?,
        })
    }
}

impl WriteData for Counts {
    ghost use Rattle.test_types.specs.Counts.{data_of_counts, counts_no_float};

    ghost written = { data_of_counts };

    ghost no_float = { counts_no_float };

    fn write_data(&self, alloc: Global) -> Result<Value, NoMemory> {
        Ok(json!(in alloc; {
            "byte": self.byte.write_data(alloc)?,
            "port": self.port.write_data(alloc)?,
            "medium": self.medium.write_data(alloc)?,
            "large": self.large.write_data(alloc)?,
            "place": self.place.write_data(alloc)?,
        })?)
    }
}

impl ReadPairs for Counts {
    ghost use Rattle.std.specs.Prelude.{◌≡◌};
    ghost use Rattle.test_types.specs.Counts.{counts_of_pairs};

    ghost reads_pairs = { λ pairs x. x ≡ counts_of_pairs pairs };

    fn read_pairs(alloc: Global, pairs: &[Pair]) -> Result<Counts, Fail<ReadFault>> {
        Ok(Counts {
            byte: required_field(alloc, pairs, "byte")?,
            port: required_field(alloc, pairs, "port")?,
            medium: required_field(alloc, pairs, "medium")?,
            large: field_or(alloc, pairs, "large", 0)?,
            place: bounded_place(alloc, field_or(alloc, pairs, "place", 0)?)?,
        })
    }
}

impl WritePairs for Counts {
    ghost use Rattle.std.specs.Prelude.{◌≡◌, Ok};
    ghost use Rattle.test_types.specs.Counts.{pairs_of_counts};

    ghost writes_pairs = { λ x y. y ≡ Ok (pairs_of_counts x) };

    fn write_pairs(&self, alloc: Global) -> Result<Vec<Pair>, Fail<WriteFault>> {
        let mut pairs = Vec::new(alloc);
        self.byte.write_field(alloc, "byte", &mut pairs)?;
        self.port.write_field(alloc, "port", &mut pairs)?;
        self.medium.write_field(alloc, "medium", &mut pairs)?;
        self.large.write_field(alloc, "large", &mut pairs)?;
        self.place.write_field(alloc, "place", &mut pairs)?;
        Ok(pairs)
    }
}
