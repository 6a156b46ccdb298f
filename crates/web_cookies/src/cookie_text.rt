//! The text of a cookie.
ghost use Rattle.std.specs.Prelude.{◌≡◌, [], if◌then◌else◌};
ghost use Rattle.web_cookies.specs.CookieTexts.{prints_secure};

use crate::response_cookie::Cookie;
use crate::same_site::SameSite;
use httpdate::HttpDate;
use std::fmt;

/// A text after a label, where there is one.
#[derive(Drop)]
struct LabelledText<'a>(&'a str, Option<&'a str>);

impl fmt::Display for LabelledText<'_> {
    ghost use Rattle.std.specs.Prelude.{Some};
    ghost use Rattle.web_cookies.specs.CookieTexts.{labelled};

    ghost output = { λ l. Some (labelled l.0.now (λ text. text.now) l.1) };

    fn fmt<W: fmt::Write>(&self, f: &mut fmt::Formatter<W>) -> fmt::Result {
        match self.1 {
            Some(text) => write!(f, "{}{}", self.0, text),
            None => Ok(()),
        }
    }
}

#[derive(Drop)]
struct LabelledNumber<'a>(&'a str, Option<u64>);

impl fmt::Display for LabelledNumber<'_> {
    ghost use Rattle.std.specs.Prelude.{Some, decimal};
    ghost use Rattle.web_cookies.specs.CookieTexts.{labelled};

    ghost output = { λ l. Some (labelled l.0.now decimal l.1) };

    fn fmt<W: fmt::Write>(&self, f: &mut fmt::Formatter<W>) -> fmt::Result {
        match self.1 {
            Some(number) => write!(f, "{}{}", self.0, number),
            None => Ok(()),
        }
    }
}

#[derive(Drop)]
struct LabelledDate<'a>(&'a str, Option<HttpDate>);

impl fmt::Display for LabelledDate<'_> {
    ghost use Rattle.std.specs.Prelude.{Some};
    ghost use Rattle.httpdate.specs.Date.{date_text};
    ghost use Rattle.web_cookies.specs.CookieTexts.{labelled};

    ghost output = { λ l. Some (labelled l.0.now date_text l.1) };

    fn fmt<W: fmt::Write>(&self, f: &mut fmt::Formatter<W>) -> fmt::Result {
        match self.1 {
            Some(date) => write!(f, "{}{}", self.0, date),
            None => Ok(()),
        }
    }
}

#[derive(Drop)]
struct LabelledSite<'a>(&'a str, Option<SameSite>);

impl fmt::Display for LabelledSite<'_> {
    ghost use Rattle.std.specs.Prelude.{Some};
    ghost use Rattle.web_cookies.specs.CookieTexts.{labelled, site_name};

    ghost output = { λ l. Some (labelled l.0.now site_name l.1) };

    fn fmt<W: fmt::Write>(&self, f: &mut fmt::Formatter<W>) -> fmt::Result {
        match self.1 {
            Some(site) => write!(f, "{}{}", self.0, site),
            None => Ok(()),
        }
    }
}

/// Whether `; Secure` is printed.
fn prints_secure(secure: Option<bool>, same_site: Option<SameSite>) -> bool
    ensures { result ≡ prints_secure secure same_site }
{
    match secure {
        Some(secure) => secure,
        None => match same_site {
            Some(SameSite::None) => true,
            Some(SameSite::Strict) => false,
            Some(SameSite::Lax) => false,
            None => false,
        },
    }
}

/// The text where the flag is set, else nothing.
fn flag(is_set: bool, text: &str) -> &str
    ensures { result.now ≡ if is_set then text.now else [] }
{
    if is_set { text } else { "" }
}

#[derive(Drop)]
struct Flags<'a>(&'a Cookie);

impl fmt::Display for Flags<'_> {
    ghost use Rattle.std.specs.Prelude.{Some};
    ghost use Rattle.web_cookies.specs.CookieTexts.{flags_text};

    ghost output = { λ c. Some (flags_text c.0.now) };

    fn fmt<W: fmt::Write>(&self, f: &mut fmt::Formatter<W>) -> fmt::Result {
        let http_only = flag(self.0.http_only(), "; HttpOnly");
        let site = LabelledSite("; SameSite=", self.0.same_site());
        let secure = flag(
            prints_secure(self.0.secure(), self.0.same_site()),
            "; Secure",
        );
        write!(f, "{http_only}{site}{secure}")
    }
}

#[derive(Drop)]
struct Places<'a>(&'a Cookie);

impl fmt::Display for Places<'_> {
    ghost use Rattle.std.specs.Prelude.{Some};
    ghost use Rattle.web_cookies.specs.CookieTexts.{places_text};

    ghost output = { λ c. Some (places_text c.0.now) };

    fn fmt<W: fmt::Write>(&self, f: &mut fmt::Formatter<W>) -> fmt::Result {
        let path = LabelledText("; Path=", self.0.path());
        let domain = LabelledText("; Domain=", self.0.domain());
        write!(f, "{path}{domain}")
    }
}

#[derive(Drop)]
struct Ages<'a>(&'a Cookie);

impl fmt::Display for Ages<'_> {
    ghost use Rattle.std.specs.Prelude.{Some};
    ghost use Rattle.web_cookies.specs.CookieTexts.{ages_text};

    ghost output = { λ c. Some (ages_text c.0.now) };

    fn fmt<W: fmt::Write>(&self, f: &mut fmt::Formatter<W>) -> fmt::Result {
        let age = LabelledNumber("; Max-Age=", self.0.max_age());
        let expires = LabelledDate("; Expires=", self.0.expires());
        write!(f, "{age}{expires}")
    }
}

/// Prints the cookie as a response sets it (RFC 6265, section 4.1.1), with the attributes that are
/// set. `; Secure` is also printed where `secure` is absent and SameSite is `None`.
impl fmt::Display for Cookie {
    ghost use Rattle.std.specs.Prelude.{Some};
    ghost use Rattle.web_cookies.specs.CookieTexts.{cookie_text};

    ghost output = { λ c. Some (cookie_text c) };

    fn fmt<W: fmt::Write>(&self, f: &mut fmt::Formatter<W>) -> fmt::Result {
        let name = self.name();
        let value = self.value();
        let flags = Flags(self);
        let places = Places(self);
        let ages = Ages(self);
        write!(f, "{name}={value}{flags}{places}{ages}")
    }
}
