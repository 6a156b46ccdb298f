//! Values written as the fields of a form.
ghost use Rattle.std.specs.Prelude.{◌≡◌, ◌++◌, ◌∷◌, [], ℕ, List, OnOk};
ghost use Rattle.web_codec.specs.FieldWriters.{named_pairs};

use std::alloc::Global;
use web_texts::{Items, NoMemory, Pair, Text};

/// A type that is written as the values of a field: one value, or none, or those of a list.
pub trait WriteField {
    /// The texts of a value.
    ghost texts: { Self → List (List ℕ) };

    /// Adds a pair of this name and each of the texts.
    fn write_field(&self, alloc: Global, name: &str, pairs: &mut Vec<Pair>) -> Result<(), NoMemory>
        ensures { OnOk result
            (pairs.new.items ≡ pairs.old.items ++ named_pairs name.now (texts self.now)) };
}

/// Adds a pair of this name and this value.
pub(crate) fn push_field(
    alloc: Global,
    name: &str,
    text: &str,
    pairs: &mut Vec<Pair>,
) -> Result<(), NoMemory>
    ensures { OnOk result
        (pairs.new.items ≡ pairs.old.items ++ named_pairs name.now (text.now ∷ [])) }
{
    pairs.push(Pair::new(alloc, name, text)?)?;
    Ok(())
}

impl WriteField for Text {
    ghost use Rattle.web_codec.specs.FieldWriters.{texts_of_text};

    ghost texts = { texts_of_text };

    fn write_field(
        &self,
        alloc: Global,
        name: &str,
        pairs: &mut Vec<Pair>,
    ) -> Result<(), NoMemory> {
        push_field(alloc, name, self.as_str(), pairs)
    }
}

/// `true` or `false`.
impl WriteField for bool {
    ghost use Rattle.web_codec.specs.FieldWriters.{texts_of_bool};

    ghost texts = { texts_of_bool };

    fn write_field(
        &self,
        alloc: Global,
        name: &str,
        pairs: &mut Vec<Pair>,
    ) -> Result<(), NoMemory> {
        let text = if *self { "true" } else { "false" };
        push_field(alloc, name, text, pairs)
    }
}

/// The value, or no pair.
impl<T: WriteField> WriteField for Option<T> {
    ghost use Rattle.web_codec.specs.FieldWriters.{texts_of_option};

    ghost texts = { texts_of_option T.texts };

    fn write_field(
        &self,
        alloc: Global,
        name: &str,
        pairs: &mut Vec<Pair>,
    ) -> Result<(), NoMemory> {
        match self {
            Some(value) => value.write_field(alloc, name, pairs),
            None => Ok(()),
        }
    }
}

/// A pair for each item.
impl<T: WriteField> WriteField for Items<T> {
    ghost use Rattle.web_codec.specs.FieldWriters.{texts_of_list};

    ghost texts = { texts_of_list T.texts };

    fn write_field(
        &self,
        alloc: Global,
        name: &str,
        pairs: &mut Vec<Pair>,
    ) -> Result<(), NoMemory> {
        for item in self.as_slice() {
            item.write_field(alloc, name, pairs)?;
        }
        Ok(())
    }
}
