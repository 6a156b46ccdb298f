//! The cookies of a request.
ghost use Rattle.std.specs.Prelude.{◌≡◌, ◌++◌, IfOk, IsOk, OnOk, codes, true, false, None};
ghost use Rattle.std.specs.List.{find};
ghost use Rattle.std.specs.Option.{option_map};
ghost use Rattle.std.specs.Str.{bytes_eq};
ghost use Rattle.http_header.specs.HeaderMap.{get_all};
ghost use Rattle.web_texts.specs.Returns.{ReturnsBy};
ghost use Rattle.web_cookies.specs.CookieFields.{cookie_of_pair};
ghost use Rattle.web_cookies.specs.HeaderCookies.{cookie_of_part, cookies_in, cookies_said};

use crate::cookie_pair::CookiePair;
use crate::cookie_parse_error::CookieParseError;
use crate::cookie_reader::read_pair;
use crate::response_cookie::Cookie;
use http_header::{COOKIE, HeaderMap, HeaderValue};
use std::alloc::Global;
use std::str;
use web_texts::{Fail, NoMemory, first_part, push_compact, trim};

/// The cookies that a client sends back in the header Cookie (RFC 6265, section 5.4), in their
/// order, with names and values percent-decoded. Each part between semicolons is trimmed and read
/// by itself; one that is blank or no cookie is left out.
///
/// Returns `Utf8` where a value of the header is not UTF-8, and `NoMemory` where allocation failed.
pub fn decoded_cookies(
    alloc: Global,
    headers: &HeaderMap<HeaderValue>,
) -> Result<Vec<CookiePair>, Fail<CookieParseError>>
    ensures { ReturnsBy (λ cookies. cookies.items) result
        (cookies_said true (get_all headers.now (codes "cookie"))) }
{
    read_cookies(alloc, headers, true)
}

/// As `decoded_cookies`, with names and values as they are.
pub fn raw_cookies(
    alloc: Global,
    headers: &HeaderMap<HeaderValue>,
) -> Result<Vec<CookiePair>, Fail<CookieParseError>>
    ensures { ReturnsBy (λ cookies. cookies.items) result
        (cookies_said false (get_all headers.now (codes "cookie"))) }
{
    read_cookies(alloc, headers, false)
}

fn read_cookies(
    alloc: Global,
    headers: &HeaderMap<HeaderValue>,
    encoded: bool,
) -> Result<Vec<CookiePair>, Fail<CookieParseError>>
    ensures { ReturnsBy (λ cookies. cookies.items) result
        (cookies_said encoded (get_all headers.now (codes "cookie"))) }
{
    let mut cookies = Vec::new(alloc);
    for value in headers.get_all(COOKIE) {
        match str::from_utf8(value.as_bytes()) {
            Ok(text) => add_cookies(alloc, &mut cookies, text, encoded)?,
            Err(_) => return Err(Fail::Of(CookieParseError::Utf8)),
        }
    }
    Ok(cookies)
}

/// Adds the cookies that the parts between the semicolons of a text say.
fn add_cookies(
    alloc: Global,
    cookies: &mut Vec<CookiePair>,
    text: &str,
    encoded: bool,
) -> Result<(), NoMemory>
    ensures { OnOk result
        (cookies.new.items ≡ cookies.old.items ++ cookies_in encoded text.now) }
{
    let mut rest = text;
    'parts: loop {
        let (part, behind) = first_part(rest, b';');
        add_cookie(alloc, cookies, part, encoded)?;
        match behind {
            Some(behind) => rest = behind,
            None => return Ok(()),
        }
    }
}

fn add_cookie(
    alloc: Global,
    cookies: &mut Vec<CookiePair>,
    part: &str,
    encoded: bool,
) -> Result<(), NoMemory>
    ensures { OnOk result
        (cookies.new.items ≡ cookies.old.items ++ cookie_of_part encoded part.now) }
{
    let text = trim(part);
    if text.is_empty() {
        return Ok(());
    }
    match read_pair(alloc, text, encoded) {
        Ok(pair) => push_compact(cookies, pair),
        Err(Fail::NoMemory) => Err(NoMemory),
        Err(Fail::Of(_)) => Ok(()),
    }
}

/// The first of these cookies that has this name, as a copy. Returns `NoMemory` where allocation
/// failed, which it does not where no cookie has it.
pub fn cookie_named(
    alloc: Global,
    cookies: &[CookiePair],
    name: &str,
) -> Result<Option<Cookie>, NoMemory>
    ensures value { IfOk result (λ found.
        found ≡ option_map cookie_of_pair
        (find (λ pair. bytes_eq pair.name name.now) cookies.now)) }
    ensures memory { find (λ pair. bytes_eq pair.name name.now) cookies.now ≡ None
        → IsOk result }
{
    for pair in cookies {
        if pair.name() == name {
            return Ok(Some(pair.to_cookie(alloc)?));
        }
    }
    Ok(None)
}
