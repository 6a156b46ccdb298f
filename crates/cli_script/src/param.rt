//! The parameter of a `param` line.
ghost use Rattle.std.specs.Prelude.{◌≡◌};
ghost use Rattle.std.specs.Str.{is_utf8};
ghost use Rattle.cli_script.specs.Acceptance.{Accepts};
ghost use Rattle.cli_script.specs.LineArguments.{is_param, param_of};
ghost use Rattle.cli_script.specs.LineFaults.{unless};
ghost use Rattle.cli_script.specs.declared.reason.LineFault.TheVariants.{BadParam};

use crate::reason::LineFault;
use std::alloc::Global;
use std::str;
use web_texts::{Fail, Pair, split_once_at};

/// The bytes as a text, if they are UTF-8.
fn read_text(bytes: &[u8]) -> Result<&str, Fail<LineFault>>
    ensures { Accepts result (unless (is_utf8 bytes.now) BadParam) (λ text. text.now ≡ bytes.now) }
{
    match str::from_utf8(bytes) {
        Ok(text) => Ok(text),
        Err(_) => Err(Fail::Of(LineFault::BadParam)),
    }
}

/// The parameter of a `param` line, whose argument is a name, one space and a value, both UTF-8.
/// Both are copied.
pub fn read_param(alloc: Global, text: &[u8]) -> Result<Pair, Fail<LineFault>>
    ensures { Accepts result (unless (is_param text.now) BadParam)
        (λ param. param ≡ param_of text.now) }
{
    let Some((name, value)) = split_once_at(text, b' ') else {
        return Err(Fail::Of(LineFault::BadParam));
    };
    if name.is_empty() {
        return Err(Fail::Of(LineFault::BadParam));
    }
    let name = read_text(name)?;
    let value = read_text(value)?;
    Ok(Pair::new(alloc, name, value)?)
}
