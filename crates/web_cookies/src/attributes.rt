//! Reading the attributes of a cookie.
ghost use Rattle.std.specs.Prelude.{◌≡◌, ◌∷◌, [], OnOk, option_map};
ghost use Rattle.std.specs.Char.{is_ascii_digit};
ghost use Rattle.std.specs.List.{list_all};
ghost use Rattle.std.specs.Str.{str_eq_ignore_ascii_case};
ghost use Rattle.web_texts.specs.Digits.{are_digits};
ghost use Rattle.web_cookies.specs.CookieFields.{date_parts};
ghost use Rattle.web_cookies.specs.Attributes.{age_of, attribute_of, attributes_of};
ghost use Rattle.web_cookies.specs.Attributes.{bare_attribute, date_of, named_attribute, site_of};
ghost use Rattle.web_cookies.specs.Attributes.{with_attributes, without_dot};

use crate::response_cookie::Cookie;
use crate::same_site::SameSite;
use httpdate::HttpDate;
use std::alloc::Global;
use web_texts::{NoMemory, Text, cut_at, first_part, number_of, trim};

/// The longest age, in seconds.
const LONGEST_AGE: u64 = 9_223_372_036_854_775_807;

/// Sets what the parts between the semicolons of a text say.
pub fn read_attributes(alloc: Global, cookie: &mut Cookie, text: &str) -> Result<(), NoMemory>
    ensures { OnOk result (cookie.new ≡ with_attributes (attributes_of text.now) cookie.old) }
{
    let mut rest = text;
    'parts: loop {
        let (part, behind) = first_part(rest, b';');
        read_attribute(alloc, cookie, part)?;
        match behind {
            Some(behind) => rest = behind,
            None => return Ok(()),
        }
    }
}

fn read_attribute(alloc: Global, cookie: &mut Cookie, part: &str) -> Result<(), NoMemory>
    ensures { OnOk result
        (cookie.new ≡ with_attributes (attribute_of part.now ∷ []) cookie.old) }
{
    match cut_at(part, b'=') {
        Some((name, value)) => set_attribute(alloc, cookie, trim(name), trim(value)),
        None => {
            set_flag(cookie, trim(part));
            Ok(())
        }
    }
}

/// Sets what an attribute without a value says.
fn set_flag(cookie: &mut Cookie, name: &str)
    ensures { cookie.new ≡ with_attributes (bare_attribute name.now ∷ []) cookie.old }
{
    if is_word(name, "httponly") {
        cookie.set_http_only(true);
    } else if is_word(name, "secure") {
        cookie.set_secure(Some(true));
    }
}

fn is_word(text: &str, word: &str) -> bool
    ensures { result ≡ str_eq_ignore_ascii_case text.now word.now }
{
    text.eq_ignore_ascii_case(word)
}

fn set_attribute(
    alloc: Global,
    cookie: &mut Cookie,
    name: &str,
    value: &str,
) -> Result<(), NoMemory>
    ensures { OnOk result (cookie.new
        ≡ with_attributes (named_attribute name.now value.now ∷ []) cookie.old) }
{
    if is_word(name, "httponly") {
        cookie.set_http_only(true);
    } else if is_word(name, "secure") {
        cookie.set_secure(Some(true));
    } else if is_word(name, "samesite") {
        if let Some(site) = site_of(value) {
            cookie.set_same_site(Some(site));
        }
    } else if is_word(name, "path") {
        cookie.set_path(Some(Text::of(alloc, value)?));
    } else if is_word(name, "domain") {
        if !value.is_empty() {
            cookie.set_domain(Some(Text::of(alloc, without_dot(value))?));
        }
    } else if is_word(name, "max-age") {
        if let Some(age) = age_of(value) {
            cookie.set_max_age(Some(age));
        }
    } else if is_word(name, "expires") {
        if let Some(date) = date_of(value) {
            cookie.set_expires(Some(date));
        }
    }
    Ok(())
}

fn site_of(value: &str) -> Option<SameSite>
    ensures { result ≡ site_of value.now }
{
    if is_word(value, "strict") {
        Some(SameSite::Strict)
    } else if is_word(value, "lax") {
        Some(SameSite::Lax)
    } else if is_word(value, "none") {
        Some(SameSite::None)
    } else {
        None
    }
}

fn without_dot(value: &str) -> &str
    ensures { result.now ≡ without_dot value.now }
{
    if value.starts_with('.') {
        &value[1..]
    } else {
        value
    }
}

fn are_digits(text: &[u8]) -> bool
    ensures { result ≡ are_digits text.now }
{
    if text.is_empty() {
        return false;
    }
    all_digits(text)
}

fn all_digits(text: &[u8]) -> bool
    ensures { result ≡ list_all is_ascii_digit text.now }
{
    text.iter().all(|b| b.is_ascii_digit())
}

fn age_of(value: &str) -> Option<u64>
    ensures { result ≡ age_of value.now }
{
    let bytes = value.as_bytes();
    if value.starts_with('-') {
        return if are_digits(&bytes[1..]) {
            Some(0)
        } else {
            None
        };
    }
    if !are_digits(bytes) {
        return None;
    }
    match number_of(bytes, LONGEST_AGE) {
        Some(age) => Some(age),
        None => Some(LONGEST_AGE),
    }
}

fn date_of(value: &str) -> Option<HttpDate>
    ensures { option_map date_parts result ≡ date_of value.now }
{
    match HttpDate::parse_ascii(value.as_bytes()) {
        Ok(date) => Some(date),
        Err(_) => None,
    }
}
