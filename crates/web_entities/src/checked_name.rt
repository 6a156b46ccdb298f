//! Names of fields whose text reads back.
ghost use Rattle.std.specs.Prelude.{◌≡◌, ◌↔◌, [], ◌∷◌, IsTrue};
ghost use Rattle.web_entities.specs.CheckedNames.{GivesChecked};
ghost use Rattle.web_entities.specs.declared.disposition_param.DispositionParam.TheVariants.{Name};

use crate::disposition_param::DispositionParam;
use crate::disposition_places::ParameterState;
use std::alloc::Global;
use web_texts::{Fail, InvalidHeaderValue, Text, read_each};

fn is_name(found: &DispositionParam, name: &str) -> bool
    ensures { IsTrue result ↔ (found.now ≡ Name name.now) }
{
    match found {
        DispositionParam::Name(value) => value.as_str() == name,
        _ => false,
    }
}

/// Whether the parameters are the one `Name` of this text.
fn is_only_name(found: &[DispositionParam], name: &str) -> bool
    ensures { IsTrue result ↔ (found.now ≡ Name name.now ∷ []) }
{
    match found {
        [only] => is_name(only, name),
        _ => false,
    }
}

impl DispositionParam {
    /// A `Name` of this text, where what it prints reads back as it. `InvalidHeaderValue` comes
    /// exactly where it does not: where the text is empty, has a semicolon, begins with a quote, or
    /// has a blank at either end. So a name from outside adds no parameter.
    pub fn checked_name(
        alloc: Global,
        name: &str,
    ) -> Result<DispositionParam, Fail<InvalidHeaderValue>>
        ensures { GivesChecked (Name name.now) result }
    {
        let text = format!(in alloc; " name={name}")?;
        match read_each::<ParameterState, DispositionParam>(alloc, text.as_str()) {
            Ok(found) if is_only_name(found.as_slice(), name) => {
                Ok(DispositionParam::Name(Text::of(alloc, name)?))
            }
            Err(Fail::NoMemory) => Err(Fail::NoMemory),
            _ => Err(Fail::Of(InvalidHeaderValue)),
        }
    }
}
