//! The header of a `header` line.
ghost use Rattle.std.specs.Prelude.{◌≡◌};
ghost use Rattle.http_header.specs.FieldValue.{plain_value};
ghost use Rattle.http_header.specs.Token.{lowercase};
ghost use Rattle.cli_script.specs.Acceptance.{Accepts};
ghost use Rattle.cli_script.specs.LineArguments.{header_of, is_field_name, is_field_value};
ghost use Rattle.cli_script.specs.LineArguments.{is_header};
ghost use Rattle.cli_script.specs.LineFaults.{unless};
ghost use Rattle.cli_script.specs.declared.reason.LineFault.TheVariants.{BadHeader};

use crate::reason::LineFault;
use bytes::Bytes;
use http_header::{HeaderName, HeaderNameError, HeaderValue};
use std::alloc::Global;
use web_texts::{Fail, cut_first};

/// The name that is written so in any case. A name that is not a standard one is copied.
fn read_name(alloc: Global, text: &[u8]) -> Result<HeaderName, Fail<LineFault>>
    ensures { Accepts result (unless (is_field_name text.now) BadHeader)
        (λ name. name ≡ lowercase text.now) }
{
    match HeaderName::from_bytes(alloc, text) {
        Ok(name) => Ok(name),
        Err(HeaderNameError::Invalid) => Err(Fail::Of(LineFault::BadHeader)),
        Err(HeaderNameError::OutOfMemory) => Err(Fail::NoMemory),
    }
}

/// The value of these bytes, which are not copied.
fn read_value(text: Bytes) -> Result<HeaderValue, Fail<LineFault>>
    ensures { Accepts result (unless (is_field_value text) BadHeader)
        (λ value. value ≡ plain_value text) }
{
    match HeaderValue::from_shared(text) {
        Ok(value) => Ok(value),
        Err(_) => Err(Fail::Of(LineFault::BadHeader)),
    }
}

/// The header of the argument of a `header` line: a name, and after one space a value. The value
/// is what is left of the argument, which is not copied.
pub fn read_header(alloc: Global, text: Bytes) -> Result<(HeaderName, HeaderValue), Fail<LineFault>>
    ensures { Accepts result (unless (is_header text) BadHeader)
        (λ header. header ≡ header_of text) }
{
    let (name, value) = cut_first(text.as_slice(), b' ');
    let start = text.len() - value.len();
    let name = read_name(alloc, name)?;
    let mut value = text;
    value.advance(start);
    let value = read_value(value)?;
    Ok((name, value))
}
