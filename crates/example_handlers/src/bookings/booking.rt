//! A type of one's own that is read from JSON bodies and from forms, and written as both.
ghost use Rattle.std.specs.Prelude.{◌≡◌, option_map, slice_get};
ghost use Rattle.web_codec.specs.FormPairs.{values_of};

use serde_json::{Value, json};
use std::alloc::Global;
use web_codec::{ReadFault, ReadJson, ReadPairs, WriteFault, WriteJson, WritePairs};
use web_texts::{Fail, Pair, Text, read_digits};

/// A booking: for whom, and how many seats.
#[derive(Debug, Drop)]
pub struct Booking {
    /// The name of the guest.
    pub name: Text,
    /// The number of seats.
    pub seats: u64,
}

/// An object with a text `name` and a whole number `seats`. Other members are ignored.
impl ReadJson for Booking {
    ghost use Rattle.std.specs.Prelude.{◌≡◌};
    ghost use Rattle.example_handlers.specs.Bookings.{booking_of_json};

    ghost reads = { λ d x. x ≡ booking_of_json d };

    fn read_json(alloc: Global, value: &Value) -> Result<Booking, Fail<ReadFault>> {
        let Some(name) = value.get("name") else {
            return Err(ReadFault::refusal(alloc, "missing name"));
        };
        let Some(name) = name.as_str() else {
            return Err(ReadFault::refusal(alloc, "name is no text"));
        };
        let Some(seats) = value.get("seats") else {
            return Err(ReadFault::refusal(alloc, "missing seats"));
        };
        let Some(seats) = seats.as_u64() else {
            return Err(ReadFault::refusal(alloc, "seats is no whole number"));
        };
        Ok(Booking {
            name: Text::of(alloc, name)?,
            seats,
        })
    }
}

impl WriteJson for Booking {
    ghost use Rattle.std.specs.Prelude.{◌≡◌, Ok};
    ghost use Rattle.example_handlers.specs.Bookings.{json_of_booking};

    ghost writes = { λ x y. y ≡ Ok (json_of_booking x) };

    fn write_json(&self, alloc: Global) -> Result<Value, Fail<WriteFault>> {
        Ok(json!(in alloc; {"name": self.name.as_str(), "seats": self.seats})?)
    }
}

/// The first value of a name.
fn first_value<'a>(pairs: &'a [Pair], name: &str) -> Option<&'a str>
    ensures { option_map (λ value. value.now) result ≡ slice_get (values_of name.now pairs.now) 0 }
{
    for pair in pairs {
        if pair.name() == name {
            return Some(pair.value());
        }
    }
    None
}

/// The first `name`, and the first `seats`, a number in digits. Other pairs are ignored.
impl ReadPairs for Booking {
    ghost use Rattle.std.specs.Prelude.{◌≡◌};
    ghost use Rattle.example_handlers.specs.Bookings.{booking_of_pairs};

    ghost reads_pairs = { λ pairs x. x ≡ booking_of_pairs pairs };

    fn read_pairs(alloc: Global, pairs: &[Pair]) -> Result<Booking, Fail<ReadFault>> {
        let Some(name) = first_value(pairs, "name") else {
            return Err(ReadFault::refusal(alloc, "missing name"));
        };
        let Some(seats) = first_value(pairs, "seats") else {
            return Err(ReadFault::refusal(alloc, "missing seats"));
        };
        let Some(seats) = read_digits(seats, u64::MAX) else {
            return Err(ReadFault::refusal(alloc, "seats is no number"));
        };
        Ok(Booking {
            name: Text::of(alloc, name)?,
            seats,
        })
    }
}

impl WritePairs for Booking {
    ghost use Rattle.std.specs.Prelude.{◌≡◌, Ok};
    ghost use Rattle.example_handlers.specs.Bookings.{pairs_of_booking};

    ghost writes_pairs = { λ x y. y ≡ Ok (pairs_of_booking x) };

    fn write_pairs(&self, alloc: Global) -> Result<Vec<Pair>, Fail<WriteFault>> {
        let mut pairs = Vec::new(alloc);
        pairs.push(Pair::new(alloc, "name", self.name.as_str())?)?;
        let seats = self.seats.to_string(alloc)?;
        pairs.push(Pair::new(alloc, "seats", seats.as_str())?)?;
        Ok(pairs)
    }
}
