//! `Payment`, as `types.txt` lists it. Written by tools/new-type.
ghost use Rattle.std.specs.Prelude.{◌≡◌};
ghost use Rattle.web_codec.specs.Answers.{Answers};
ghost use Rattle.test_types.specs.Payment.{name_of_payment, payment_field};

use serde_json::Value;
use std::alloc::Global;
use web_codec::{ReadData, ReadFault, ReadField, ReadPairs, WriteData, WriteField, only_field};
use web_texts::{Fail, NoMemory, Pair};

/// How an order is paid.
#[derive(Clone, Copy, Debug, PartialEq, Eq)]
pub enum Payment {
    /// `cash`.
    Cash,
    /// `by-card`.
    ByCard,
    /// `later`.
    Later,
}

impl Payment {
    /// The name that stands for it.
    pub fn as_str(&self) -> &'static str
        ensures { result.now ≡ name_of_payment self.now }
    {
        match self {
            Payment::Cash => "cash",
            Payment::ByCard => "by-card",
            Payment::Later => "later",
        }
    }
}

/// The one of a name.
fn named_payment(alloc: Global, name: &str) -> Result<Payment, Fail<ReadFault>>
    ensures { Answers (λ x. x ≡ payment_field name.now) result }
{
    if name == "cash" {
        return Ok(Payment::Cash);
    }
    if name == "by-card" {
        return Ok(Payment::ByCard);
    }
    if name == "later" {
        return Ok(Payment::Later);
    }
    Err(ReadFault::refusal(alloc, "none of cash, by-card, later"))
}

impl ReadData for Payment {
    ghost use Rattle.test_types.specs.Payment.{payment_of};

    ghost read = { payment_of };

    fn read_data(alloc: Global, value: &Value) -> Result<Payment, Fail<ReadFault>> {
        let Some(name) = value.as_str() else {
            return Err(ReadFault::refusal(alloc, "no text"));
        };
        named_payment(alloc, name)
    }
}

impl WriteData for Payment {
    ghost use Rattle.test_types.specs.Payment.{data_of_payment, payment_no_float};

    ghost written = { data_of_payment };

    ghost no_float = { payment_no_float };

    fn write_data(&self, alloc: Global) -> Result<Value, NoMemory> {
        Ok(Value::from(String::from_str(alloc, self.as_str())?))
    }
}

impl ReadField for Payment {
    ghost use Rattle.test_types.specs.Payment.{payment_field};

    ghost field = { payment_field };

    fn read_field(alloc: Global, text: &str) -> Result<Payment, Fail<ReadFault>> {
        named_payment(alloc, text)
    }
}

impl ReadPairs for Payment {
    ghost use Rattle.std.specs.Prelude.{◌≡◌};
    ghost use Rattle.web_codec.specs.FieldReaders.{only_field};
    ghost use Rattle.test_types.specs.Payment.{payment_field};

    ghost reads_pairs = { λ pairs x. x ≡ only_field payment_field pairs };

    fn read_pairs(alloc: Global, pairs: &[Pair]) -> Result<Payment, Fail<ReadFault>> {
        only_field(alloc, pairs)
    }
}

impl WriteField for Payment {
    ghost use Rattle.test_types.specs.Payment.{texts_of_payment};

    ghost texts = { texts_of_payment };

    fn write_field(
        &self,
        alloc: Global,
        name: &str,
        pairs: &mut Vec<Pair>,
    ) -> Result<(), NoMemory> {
        pairs.push(Pair::new(alloc, name, self.as_str())?)?;
        Ok(())
    }
}
