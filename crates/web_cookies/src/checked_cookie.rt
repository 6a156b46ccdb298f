//! Cookies whose text reads back.
ghost use Rattle.std.specs.Prelude.{◌≡◌, ◌↔◌, IsTrue};
ghost use Rattle.web_cookies.specs.CookieChecks.{GivesChecked};
ghost use Rattle.web_cookies.specs.CookieFields.{plain_cookie};

use crate::response_cookie::Cookie;
use std::alloc::Global;
use web_texts::{Fail, InvalidHeaderValue, Text};

fn has_no_attribute(cookie: &Cookie) -> bool
    ensures { IsTrue result
        ↔ (cookie.now ≡ plain_cookie cookie.now.name cookie.now.value) }
{
    cookie.path().is_none()
        && cookie.domain().is_none()
        && cookie.max_age().is_none()
        && cookie.expires().is_none()
        && cookie.secure().is_none()
        && !cookie.http_only()
        && cookie.same_site().is_none()
}

/// Whether the cookie has this name, this value, and no attribute.
fn is_plain(cookie: &Cookie, name: &str, value: &str) -> bool
    ensures { IsTrue result ↔ (cookie.now ≡ plain_cookie name.now value.now) }
{
    cookie.name() == name && cookie.value() == value && has_no_attribute(cookie)
}

impl Cookie {
    /// A cookie with this name and value, and no attribute, where what it prints reads back as it.
    /// `InvalidHeaderValue` comes exactly where it does not: where the name is empty or has a `=`,
    /// where one of them has a semicolon, or a blank at either end. So a value from outside sets no
    /// attribute.
    pub fn checked(
        alloc: Global,
        name: &str,
        value: &str,
    ) -> Result<Cookie, Fail<InvalidHeaderValue>>
        ensures { GivesChecked (λ cookie. cookie) name.now value.now result }
    {
        let cookie = Cookie::new(Text::of(alloc, name)?, Text::of(alloc, value)?);
        let text = format!(in alloc; "{cookie}")?;
        match Cookie::parse(alloc, text.as_str()) {
            Ok(read) if is_plain(&read, name, value) => Ok(read),
            Err(Fail::NoMemory) => Err(Fail::NoMemory),
            _ => Err(Fail::Of(InvalidHeaderValue)),
        }
    }
}
