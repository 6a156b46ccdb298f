//! `Booking`, as `types.txt` lists it. Written by tools/new-type.
ghost use Rattle.std.specs.Prelude.{◌≡◌};
ghost use Rattle.web_codec.specs.Answers.{Answers};
ghost use Rattle.example_site.specs.Booking.{bounded_booking_seats};

use serde_json::{Value, json};
use std::alloc::Global;
use web_codec::{
    ReadData, ReadFault, ReadPairs, WriteData, WriteFault, WriteField, WritePairs, object,
    required, required_field,
};
use web_texts::{Fail, NoMemory, Pair, Text};

/// A booking: who books, and how many seats.
#[derive(Debug, Drop)]
pub struct Booking {
    /// The member `name`.
    pub name: Text,
    /// The member `seats`.
    pub seats: u64,
}

/// Refuses a `seats` that is out of its bounds.
fn bounded_seats(alloc: Global, seats: u64) -> Result<u64, Fail<ReadFault>>
    ensures { Answers (λ x. x ≡ bounded_booking_seats seats) result }
{
    if seats < 1 || seats > 8 {
        return Err(ReadFault::refusal(alloc, "seats: not in 1..=8"));
    }
    Ok(seats)
}

impl ReadData for Booking {
    ghost use Rattle.example_site.specs.Booking.{booking_of};

    ghost read = { booking_of };

    fn read_data(alloc: Global, value: &Value) -> Result<Booking, Fail<ReadFault>> {
        object(alloc, value)?;
        Ok(Booking {
            name: required(alloc, value, "name")?,
            seats: bounded_seats(alloc, required(alloc, value, "seats")?)?,
        })
    }
}

impl WriteData for Booking {
    ghost use Rattle.example_site.specs.Booking.{data_of_booking, booking_no_float};

    ghost written = { data_of_booking };

    ghost no_float = { booking_no_float };

    fn write_data(&self, alloc: Global) -> Result<Value, NoMemory> {
        Ok(json!(in alloc; {
            "name": self.name.write_data(alloc)?,
            "seats": self.seats.write_data(alloc)?,
        })?)
    }
}

impl ReadPairs for Booking {
    ghost use Rattle.std.specs.Prelude.{◌≡◌};
    ghost use Rattle.example_site.specs.Booking.{booking_of_pairs};

    ghost reads_pairs = { λ pairs x. x ≡ booking_of_pairs pairs };

    fn read_pairs(alloc: Global, pairs: &[Pair]) -> Result<Booking, Fail<ReadFault>> {
        Ok(Booking {
            name: required_field(alloc, pairs, "name")?,
            seats: bounded_seats(alloc, required_field(alloc, pairs, "seats")?)?,
        })
    }
}

impl WritePairs for Booking {
    ghost use Rattle.std.specs.Prelude.{◌≡◌, Ok};
    ghost use Rattle.example_site.specs.Booking.{pairs_of_booking};

    ghost writes_pairs = { λ x y. y ≡ Ok (pairs_of_booking x) };

    fn write_pairs(&self, alloc: Global) -> Result<Vec<Pair>, Fail<WriteFault>> {
        let mut pairs = Vec::new(alloc);
        self.name.write_field(alloc, "name", &mut pairs)?;
        self.seats.write_field(alloc, "seats", &mut pairs)?;
        Ok(pairs)
    }
}
