//! The text of the values of a header.
ghost use Rattle.std.specs.Prelude.{◌≡◌};
ghost use Rattle.std.specs.Option.{option_copied};
ghost use Rattle.web_texts.specs.HeaderTexts.{first_text, header_text};

use http_header::{HeaderMap, HeaderName, HeaderValue};

/// The text of a value of header text: visible ASCII, spaces and tabs. `None` for a value with
/// another byte.
pub fn header_text(value: &HeaderValue) -> Option<&str>
    ensures { option_copied result ≡ header_text value.now }
{
    match value.to_str() {
        Ok(text) => Some(text),
        Err(_) => None,
    }
}

/// The first value of this name, if there is one and it is header text.
pub fn first_text<'a>(headers: &'a HeaderMap<HeaderValue>, name: &HeaderName) -> Option<&'a str>
    ensures { option_copied result ≡ first_text headers.now name.now }
{
    match headers.get(name) {
        Some(value) => header_text(value),
        None => None,
    }
}
