//! Values of forms, queries and path parameters.
ghost use Rattle.std.specs.Prelude.{◌≡◌, ℕ, List, Result, option_map, slice_get};
ghost use Rattle.web_codec.specs.Answers.{Answers, IsFault};
ghost use Rattle.web_codec.specs.DataReaders.{in_member};
ghost use Rattle.web_codec.specs.FieldReaders.{all_fields, field_or, required_field};
ghost use Rattle.web_codec.specs.FormPairs.{values_of};

use crate::faults::ReadFault;
use crate::members::{in_member, missing};
use std::alloc::Global;
use web_texts::{Fail, Items, Pair, Text};

/// A type that is read from the text of a field by a function.
pub trait ReadField: Sized + Drop {
    ghost use Rattle.web_codec.specs.declared.faults.ReadFault.{ReadFault};

    /// What is read from a text.
    ghost field: { List ℕ → Result Self ReadFault };

    /// Reads a text.
    fn read_field(alloc: Global, text: &str) -> Result<Self, Fail<ReadFault>>
        ensures { Answers (λ x. x ≡ field text.now) result };
}

impl ReadField for Text {
    ghost use Rattle.web_codec.specs.FieldReaders.{text_field};

    ghost field = { text_field };

    fn read_field(alloc: Global, text: &str) -> Result<Text, Fail<ReadFault>> {
        Ok(Text::of(alloc, text)?)
    }
}

/// `true` or `false`.
impl ReadField for bool {
    ghost use Rattle.web_codec.specs.FieldReaders.{bool_field};

    ghost field = { bool_field };

    fn read_field(alloc: Global, text: &str) -> Result<bool, Fail<ReadFault>> {
        if text == "true" {
            return Ok(true);
        }
        if text == "false" {
            return Ok(false);
        }
        Err(ReadFault::refusal(alloc, "neither true nor false"))
    }
}

impl<T: ReadField> ReadField for Option<T> {
    ghost use Rattle.web_codec.specs.FieldReaders.{option_field};

    ghost field = { option_field T.field };

    fn read_field(alloc: Global, text: &str) -> Result<Option<T>, Fail<ReadFault>> {
        Ok(Some(T::read_field(alloc, text)?))
    }
}

/// The first value of a name.
pub fn first_value<'a>(pairs: &'a [Pair], name: &str) -> Option<&'a str>
    ensures { option_map (λ value. value.now) result ≡ slice_get (values_of name.now pairs.now) 0 }
{
    for pair in pairs {
        if pair.name() == name {
            return Some(pair.value());
        }
    }
    None
}

/// The value of a field, whose refusal names it.
pub(crate) fn read_named<T: ReadField>(
    alloc: Global,
    name: &str,
    text: &str,
) -> Result<T, Fail<ReadFault>>
    ensures { Answers (λ x. x ≡ in_member name.now (T.field text.now)) result }
{
    match T::read_field(alloc, text) {
        Ok(read) => Ok(read),
        Err(Fail::NoMemory) => Err(Fail::NoMemory),
        Err(Fail::Of(fault)) => Err(in_member(alloc, name, fault)),
    }
}

/// The first value of a name that has to be there.
pub fn required_field<T: ReadField>(
    alloc: Global,
    pairs: &[Pair],
    name: &str,
) -> Result<T, Fail<ReadFault>>
    ensures { Answers (λ x. x ≡ required_field T.field name.now pairs.now) result }
{
    match first_value(pairs, name) {
        Some(text) => read_named(alloc, name, text),
        None => Err(missing(alloc, name)),
    }
}

/// The first value of a name, or a default where it is not there.
pub fn field_or<T: ReadField>(
    alloc: Global,
    pairs: &[Pair],
    name: &str,
    default: T,
) -> Result<T, Fail<ReadFault>>
    ensures { Answers (λ x. x ≡ field_or T.field name.now default pairs.now) result }
{
    match first_value(pairs, name) {
        Some(text) => read_named(alloc, name, text),
        None => Ok(default),
    }
}

/// All values of a name, in order.
pub fn all_fields<T: ReadField>(
    alloc: Global,
    pairs: &[Pair],
    name: &str,
) -> Result<Items<T>, Fail<ReadFault>>
    ensures { Answers (λ x. x ≡ all_fields T.field name.now pairs.now) result }
{
    let mut items = Vec::new(alloc);
    for pair in pairs {
        if pair.name() == name {
            items.push(read_named(alloc, name, pair.value())?)?;
        }
    }
    Ok(Items::of(items))
}
