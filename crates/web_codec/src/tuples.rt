//! Single values and tuples, as of paths.
ghost use Rattle.std.specs.Prelude.{◌≡◌};
ghost use Rattle.web_codec.specs.Answers.{Answers};
ghost use Rattle.web_codec.specs.DataReaders.{in_member};
ghost use Rattle.web_codec.specs.FieldReaders.{field_at, only_field};

use crate::faults::ReadFault;
use crate::fields::{ReadField, read_named};
use crate::readers::ReadPairs;
use std::alloc::Global;
use web_texts::{Fail, Pair, Text};

/// The value of the pair at this place.
fn field_at<T: ReadField>(alloc: Global, pairs: &[Pair], place: usize) -> Result<T, Fail<ReadFault>>
    ensures { Answers (λ x. x ≡ field_at T.field place pairs.now) result }
{
    match pairs.get(place) {
        Some(pair) => read_named(alloc, pair.name(), pair.value()),
        None => Err(ReadFault::refusal(alloc, "too few values")),
    }
}

/// The value of the only pair, as a path with one parameter has it.
pub fn only_field<T: ReadField>(alloc: Global, pairs: &[Pair]) -> Result<T, Fail<ReadFault>>
    ensures { Answers (λ x. x ≡ only_field T.field pairs.now) result }
{
    if pairs.len() != 1 {
        return Err(ReadFault::refusal(alloc, "not one value"));
    }
    read_named(alloc, pairs[0].name(), pairs[0].value())
}

/// The text of the only pair.
impl ReadPairs for Text {
    ghost use Rattle.std.specs.Prelude.{◌≡◌};
    ghost use Rattle.web_codec.specs.FieldReaders.{only_field, text_field};

    ghost reads_pairs = { λ pairs x. x ≡ only_field text_field pairs };

    fn read_pairs(alloc: Global, pairs: &[Pair]) -> Result<Text, Fail<ReadFault>> {
        only_field(alloc, pairs)
    }
}

/// `true` or `false` in the only pair.
impl ReadPairs for bool {
    ghost use Rattle.std.specs.Prelude.{◌≡◌};
    ghost use Rattle.web_codec.specs.FieldReaders.{bool_field, only_field};

    ghost reads_pairs = { λ pairs x. x ≡ only_field bool_field pairs };

    fn read_pairs(alloc: Global, pairs: &[Pair]) -> Result<bool, Fail<ReadFault>> {
        only_field(alloc, pairs)
    }
}

/// The values of the first two pairs, in their order. There may be more.
impl<A: ReadField, B: ReadField> ReadPairs for (A, B) {
    ghost use Rattle.std.specs.Prelude.{◌≡◌};
    ghost use Rattle.web_codec.specs.FieldReaders.{two_fields};

    ghost reads_pairs = { λ pairs x. x ≡ two_fields A.field B.field pairs };

    fn read_pairs(alloc: Global, pairs: &[Pair]) -> Result<(A, B), Fail<ReadFault>> {
        Ok((field_at(alloc, pairs, 0)?, field_at(alloc, pairs, 1)?))
    }
}

/// The values of the first three pairs, in their order. There may be more.
impl<A: ReadField, B: ReadField, C: ReadField> ReadPairs for (A, B, C) {
    ghost use Rattle.std.specs.Prelude.{◌≡◌};
    ghost use Rattle.web_codec.specs.FieldReaders.{three_fields};

    ghost reads_pairs = { λ pairs x. x ≡ three_fields A.field B.field C.field pairs };

    fn read_pairs(alloc: Global, pairs: &[Pair]) -> Result<(A, B, C), Fail<ReadFault>> {
        Ok((
            field_at(alloc, pairs, 0)?,
            field_at(alloc, pairs, 1)?,
            field_at(alloc, pairs, 2)?,
        ))
    }
}

/// The values of the first four pairs, in their order. There may be more.
impl<A: ReadField, B: ReadField, C: ReadField, D: ReadField> ReadPairs for (A, B, C, D) {
    ghost use Rattle.std.specs.Prelude.{◌≡◌};
    ghost use Rattle.web_codec.specs.FieldReaders.{four_fields};

    ghost reads_pairs = { λ pairs x. x ≡ four_fields A.field B.field C.field D.field pairs };

    fn read_pairs(alloc: Global, pairs: &[Pair]) -> Result<(A, B, C, D), Fail<ReadFault>> {
        Ok((
            field_at(alloc, pairs, 0)?,
            field_at(alloc, pairs, 1)?,
            field_at(alloc, pairs, 2)?,
            field_at(alloc, pairs, 3)?,
        ))
    }
}
