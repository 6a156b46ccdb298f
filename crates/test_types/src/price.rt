//! `Price`, as `types.txt` lists it. Written by tools/new-type.
ghost use Rattle.std.specs.Prelude.{◌≡◌};
ghost use Rattle.web_codec.specs.Answers.{Answers};
ghost use Rattle.test_types.specs.Price.{bounded_price_cents, bounded_price_currency};

use serde_json::{Value, json};
use std::alloc::Global;
use web_codec::{
    ReadData, ReadFault, ReadPairs, WriteData, WriteFault, WriteField, WritePairs, field_or,
    member_or, object, required, required_field,
};
use web_texts::{Fail, NoMemory, Pair, Text};

/// A price, in cents.
#[derive(Debug, Drop)]
pub struct Price {
    /// The member `cents`.
    pub cents: u64,
    /// The member `currency`.
    pub currency: Text,
}

/// Refuses a `cents` that is out of its bounds.
fn bounded_cents(alloc: Global, cents: u64) -> Result<u64, Fail<ReadFault>>
    ensures { Answers (λ x. x ≡ bounded_price_cents cents) result }
{
    if cents < 1 || cents > 100000 {
        return Err(ReadFault::refusal(alloc, "cents: not in 1..=100000"));
    }
    Ok(cents)
}

/// Refuses a `currency` that is out of its bounds.
fn bounded_currency(alloc: Global, currency: Text) -> Result<Text, Fail<ReadFault>>
    ensures { Answers (λ x. x ≡ bounded_price_currency currency) result }
{
    if currency.as_str().len() > 3 {
        return Err(ReadFault::refusal(alloc, "currency: more than 3 bytes"));
    }
    Ok(currency)
}

impl ReadData for Price {
    ghost use Rattle.test_types.specs.Price.{price_of};

    ghost read = { price_of };

    fn read_data(alloc: Global, value: &Value) -> Result<Price, Fail<ReadFault>> {
        object(alloc, value)?;
        Ok(Price {
            cents: bounded_cents(alloc, required(alloc, value, "cents")?)?,
            currency: bounded_currency(
                alloc,
                member_or(alloc, value, "currency", Text::of(alloc, "EUR")?)?,
            )?,
        })
    }
}

impl WriteData for Price {
    ghost use Rattle.test_types.specs.Price.{data_of_price, price_no_float};

    ghost written = { data_of_price };

    ghost no_float = { price_no_float };

    fn write_data(&self, alloc: Global) -> Result<Value, NoMemory> {
        Ok(json!(in alloc; {
            "cents": self.cents.write_data(alloc)?,
            "currency": self.currency.write_data(alloc)?,
        })?)
    }
}

impl ReadPairs for Price {
    ghost use Rattle.std.specs.Prelude.{◌≡◌};
    ghost use Rattle.test_types.specs.Price.{price_of_pairs};

    ghost reads_pairs = { λ pairs x. x ≡ price_of_pairs pairs };

    fn read_pairs(alloc: Global, pairs: &[Pair]) -> Result<Price, Fail<ReadFault>> {
        Ok(Price {
            cents: bounded_cents(alloc, required_field(alloc, pairs, "cents")?)?,
            currency: bounded_currency(
                alloc,
                field_or(alloc, pairs, "currency", Text::of(alloc, "EUR")?)?,
            )?,
        })
    }
}

impl WritePairs for Price {
    ghost use Rattle.std.specs.Prelude.{◌≡◌, Ok};
    ghost use Rattle.test_types.specs.Price.{pairs_of_price};

    ghost writes_pairs = { λ x y. y ≡ Ok (pairs_of_price x) };

    fn write_pairs(&self, alloc: Global) -> Result<Vec<Pair>, Fail<WriteFault>> {
        let mut pairs = Vec::new(alloc);
        self.cents.write_field(alloc, "cents", &mut pairs)?;
        self.currency.write_field(alloc, "currency", &mut pairs)?;
        Ok(pairs)
    }
}
