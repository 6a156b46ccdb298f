//! Values for a header.
ghost use Rattle.std.specs.Prelude.{string_bytes, IfSome};
ghost use Rattle.http_header.specs.FieldValue.{FieldValue, plain_value};
ghost use Rattle.web_texts.specs.HeaderValues.{GivesValue};

use crate::errors::InvalidHeaderValue;
use crate::media::media_type::Mime;
use crate::memory::Fail;
use crate::texts::text::Text;
use bytes::Bytes;
use http_header::{HeaderValue, HeaderValueError};
use httpdate::HttpDate;
use std::alloc::Global;
use std::fmt;

/// What gives a header's value.
pub trait TryIntoHeaderValue: Sized {
    /// The value that it gives, where its bytes may stand in a header value.
    ghost value: { Self → FieldValue };

    /// Gives the value. `InvalidHeaderValue` comes where its bytes may stand in no header value
    /// (RFC 9110, section 5.5), `NoMemory` where allocation failed.
    fn try_into_value(self, alloc: Global) -> Result<HeaderValue, Fail<InvalidHeaderValue>>
        ensures { GivesValue (value self) result };
}

/// The value of a text. It allocates at most a count beside it.
fn value_of(text: String) -> Result<HeaderValue, Fail<InvalidHeaderValue>>
    ensures { GivesValue (plain_value (string_bytes text)) result }
{
    match HeaderValue::from_string(text) {
        Ok(value) => Ok(value),
        Err(HeaderValueError::Invalid) => Err(Fail::Of(InvalidHeaderValue)),
        Err(_) => Err(Fail::NoMemory),
    }
}

/// The value of the text that an item prints. `InvalidHeaderValue` comes where the text may stand
/// in no header value, `NoMemory` where allocation failed.
pub fn printed_value<T: fmt::Display>(
    alloc: Global,
    item: &T,
) -> Result<HeaderValue, Fail<InvalidHeaderValue>>
    ensures { IfSome (T.output item.now) (λ text. GivesValue (plain_value text) result) }
{
    let text = format!(in alloc; "{item}")?;
    value_of(text)
}

impl TryIntoHeaderValue for HeaderValue {
    ghost use Rattle.std.specs.Prelude.{◌≡◌, Ok};

    ghost value = { λ v. v };

    fn try_into_value(self, _alloc: Global) -> Result<HeaderValue, Fail<InvalidHeaderValue>>
        ensures { result ≡ Ok self }
    {
        Ok(self)
    }
}

impl<'a> TryIntoHeaderValue for &'a str {
    ghost use Rattle.http_header.specs.FieldValue.{plain_value};

    ghost value = { λ text. plain_value text.now };

    fn try_into_value(self, alloc: Global) -> Result<HeaderValue, Fail<InvalidHeaderValue>> {
        match HeaderValue::from_str(alloc, self) {
            Ok(value) => Ok(value),
            Err(HeaderValueError::Invalid) => Err(Fail::Of(InvalidHeaderValue)),
            Err(_) => Err(Fail::NoMemory),
        }
    }
}

impl TryIntoHeaderValue for Text {
    ghost use Rattle.http_header.specs.FieldValue.{plain_value};

    ghost value = { λ text. plain_value text };

    fn try_into_value(self, _alloc: Global) -> Result<HeaderValue, Fail<InvalidHeaderValue>> {
        value_of(self.into_string())
    }
}

impl TryIntoHeaderValue for Vec<u8> {
    ghost use Rattle.http_header.specs.FieldValue.{plain_value};

    ghost value = { λ bytes. plain_value bytes.items };

    fn try_into_value(self, _alloc: Global) -> Result<HeaderValue, Fail<InvalidHeaderValue>> {
        match HeaderValue::from_vec(self) {
            Ok(value) => Ok(value),
            Err(HeaderValueError::Invalid) => Err(Fail::Of(InvalidHeaderValue)),
            Err(_) => Err(Fail::NoMemory),
        }
    }
}

impl TryIntoHeaderValue for Bytes {
    ghost use Rattle.http_header.specs.FieldValue.{plain_value};
    ghost use Rattle.web_texts.specs.TextReaders.{NeverNoMemory};
    ghost use Rattle.web_texts.specs.HeaderValues.{GivesValue};

    ghost value = { λ bytes. plain_value bytes };

    fn try_into_value(self, _alloc: Global) -> Result<HeaderValue, Fail<InvalidHeaderValue>>
        ensures value { GivesValue (plain_value self) result }
        ensures memory { NeverNoMemory result }
    {
        match HeaderValue::from_shared(self) {
            Ok(value) => Ok(value),
            Err(_) => Err(Fail::Of(InvalidHeaderValue)),
        }
    }
}

impl TryIntoHeaderValue for usize {
    ghost use Rattle.std.specs.Prelude.{decimal};
    ghost use Rattle.http_header.specs.FieldValue.{plain_value};

    ghost value = { λ n. plain_value (decimal n) };

    fn try_into_value(self, alloc: Global) -> Result<HeaderValue, Fail<InvalidHeaderValue>> {
        Ok(HeaderValue::from_u64(alloc, self as u64)?)
    }
}

impl TryIntoHeaderValue for u64 {
    ghost use Rattle.std.specs.Prelude.{decimal};
    ghost use Rattle.http_header.specs.FieldValue.{plain_value};

    ghost value = { λ n. plain_value (decimal n) };

    fn try_into_value(self, alloc: Global) -> Result<HeaderValue, Fail<InvalidHeaderValue>> {
        Ok(HeaderValue::from_u64(alloc, self)?)
    }
}

impl TryIntoHeaderValue for Mime {
    ghost use Rattle.http_header.specs.FieldValue.{plain_value};
    ghost use Rattle.web_texts.specs.MediaTypeTexts.{media_type_text};

    ghost value = { λ m. plain_value (media_type_text m) };

    fn try_into_value(self, alloc: Global) -> Result<HeaderValue, Fail<InvalidHeaderValue>> {
        printed_value(alloc, &self)
    }
}

impl TryIntoHeaderValue for HttpDate {
    ghost use Rattle.http_header.specs.FieldValue.{plain_value};
    ghost use Rattle.httpdate.specs.Date.{date_text};

    ghost value = { λ d. plain_value (date_text d) };

    fn try_into_value(self, alloc: Global) -> Result<HeaderValue, Fail<InvalidHeaderValue>> {
        printed_value(alloc, &self)
    }
}
