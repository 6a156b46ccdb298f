//! Reading a cookie from a text.
ghost use Rattle.std.specs.Prelude.{◌≡◌, true, false};
ghost use Rattle.percent_encoding.specs.Percent.{percent_decode};
ghost use Rattle.web_cookies.specs.CookieReaders.{cookie_said, decoded_text, named};
ghost use Rattle.std.specs.Cow.{cow_str_bytes};
ghost use Rattle.web_texts.specs.Returns.{Returns, ReturnsBy};
ghost use Rattle.web_cookies.specs.CookieReaders.{pair_said, utf8_text};

use crate::attributes::read_attributes;
use crate::cookie_pair::CookiePair;
use crate::cookie_parse_error::CookieParseError;
use crate::response_cookie::Cookie;
use memchr::memchr;
use percent_encoding::{DecodeError, percent_decode};
use std::alloc::Global;
use std::borrow::CowStr;
use web_texts::{Fail, Pair, cut_at, trim};

impl Cookie {
    /// Reads a cookie as a response sets it (RFC 6265, section 5.2): a name and a value with `=`
    /// between them, which are trimmed of blanks, and attributes after semicolons. An attribute
    /// that is unknown or cannot be read is left out, and a later one replaces an earlier one.
    ///
    /// Returns `MissingPair` where the part before the first semicolon has no `=`, `EmptyName`
    /// where its name is empty, and `NoMemory` where allocation failed.
    pub fn parse(alloc: Global, text: &str) -> Result<Cookie, Fail<CookieParseError>>
        ensures { Returns result (cookie_said false text.now) }
    {
        read_cookie(alloc, text, false)
    }

    /// As `parse`, with name and value percent-decoded. Returns `Utf8` where one of them is not
    /// UTF-8 then.
    pub fn parse_encoded(alloc: Global, text: &str) -> Result<Cookie, Fail<CookieParseError>>
        ensures { Returns result (cookie_said true text.now) }
    {
        read_cookie(alloc, text, true)
    }
}

/// Reads a cookie, with its name and value percent-decoded where `encoded`.
fn read_cookie(alloc: Global, text: &str, encoded: bool) -> Result<Cookie, Fail<CookieParseError>>
    ensures { Returns result (cookie_said encoded text.now) }
{
    match cut_at(text, b';') {
        Some((pair, attributes)) => {
            let mut cookie = read_pair(alloc, pair, encoded)?.to_cookie(alloc)?;
            read_attributes(alloc, &mut cookie, attributes)?;
            Ok(cookie)
        }
        None => Ok(read_pair(alloc, text, encoded)?.to_cookie(alloc)?),
    }
}

/// Reads a name and a value with `=` between them.
pub(crate) fn read_pair(
    alloc: Global,
    part: &str,
    encoded: bool,
) -> Result<CookiePair, Fail<CookieParseError>>
    ensures { Returns result (pair_said encoded part.now) }
{
    match cut_at(part, b'=') {
        Some((name, value)) => named(alloc, trim(name), trim(value), encoded),
        None => Err(Fail::Of(CookieParseError::MissingPair)),
    }
}

fn named(
    alloc: Global,
    name: &str,
    value: &str,
    encoded: bool,
) -> Result<CookiePair, Fail<CookieParseError>>
    ensures { Returns result (named encoded name.now value.now) }
{
    if name.is_empty() {
        return Err(Fail::Of(CookieParseError::EmptyName));
    }
    let name = decoded(alloc, name, encoded)?;
    let value = decoded(alloc, value, encoded)?;
    let pair = Pair::new(alloc, name.as_str(), value.as_str())?;
    Ok(CookiePair::new(pair))
}

/// A text as it is, or percent-decoded. It is copied only where something was decoded.
fn decoded(
    alloc: Global,
    text: &str,
    encoded: bool,
) -> Result<CowStr<'_, Global>, Fail<CookieParseError>>
    ensures { ReturnsBy cow_str_bytes result (decoded_text encoded text.now) }
{
    if encoded {
        percent_decoded(alloc, text)
    } else {
        Ok(CowStr::Borrowed(text))
    }
}

fn percent_decoded(alloc: Global, text: &str) -> Result<CowStr<'_, Global>, Fail<CookieParseError>>
    ensures { ReturnsBy cow_str_bytes result (utf8_text (percent_decode text.now)) }
{
    let bytes = text.as_bytes();
    if memchr(b'%', bytes).is_none() {
        return Ok(CowStr::Borrowed(text));
    }
    match percent_decode(bytes).decode_utf8(alloc) {
        Ok(text) => Ok(text),
        Err(DecodeError::Utf8(_)) => Err(Fail::Of(CookieParseError::Utf8)),
        Err(DecodeError::OutOfMemory) => Err(Fail::NoMemory),
    }
}
