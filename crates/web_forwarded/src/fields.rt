//! Header fields of text.
ghost use Rattle.std.specs.Prelude.{◌≡◌, ◌<◌, option_copied};
ghost use Rattle.web_forwarded.specs.FirstItems.{before_byte, first_item};

use http_header::{HeaderMap, HeaderName, HeaderValue};
use web_texts::{cut_at, first_text, trim};

/// The first value of this name up to its first comma, trimmed, if there is one and it is header
/// text.
pub fn first_item<'a>(headers: &'a HeaderMap<HeaderValue>, name: &HeaderName) -> Option<&'a str>
    ensures { option_copied result ≡ first_item headers.now name.now }
{
    match first_text(headers, name) {
        Some(text) => Some(trim(before_byte(text, b','))),
        None => None,
    }
}

/// The text before the first occurrence of an ASCII character, or all of it where there is none.
pub fn before_byte(text: &str, byte: u8) -> &str
    requires { byte < 128 }
    ensures { result.now ≡ before_byte byte text.now }
{
    match cut_at(text, byte) {
        Some((front, _)) => front,
        None => text,
    }
}
