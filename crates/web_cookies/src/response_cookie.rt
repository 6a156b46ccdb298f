//! A cookie with its attributes.
ghost use Rattle.std.specs.Prelude.{◌≡◌, IfOk, option_map, option_copied};
ghost use Rattle.httpdate.specs.Date.{unix_secs};
ghost use Rattle.web_cookies.specs.CookieFields.{date_parts, plain_cookie};
ghost use Rattle.web_cookies.specs.CookieRemoval.{IsRemoval};

use crate::same_site::SameSite;
use httpdate::HttpDate;
use std::alloc::Global;
use std::marker::Model;
use web_texts::{Duplicate, NoMemory, Text};

/// How long before the moment of its removal a cookie expires, in seconds: a year of 365 days.
const REMOVAL_AGE: u64 = 31_536_000;

const _: () = prove!(REMOVAL_AGE == 365 * 24 * 60 * 60);

/// A cookie (RFC 6265, section 4.1): a name, a value, and the attributes that are set. Its name and
/// value are kept and printed as they are, without escapes: a semicolon in a value from outside
/// ends it, and what follows becomes attributes. `Cookie::checked` refuses such a value.
///
/// Contracts see its fields. They see a date by the numbers that it shows.
#[derive(Drop)]
pub struct Cookie {
    name: Text,
    /// A `String`, which a removal empties in place.
    value: String,
    path: Option<Text>,
    domain: Option<Text>,
    max_age: Option<u64>,
    expires: Option<HttpDate>,
    secure: Option<bool>,
    http_only: bool,
    same_site: Option<SameSite>,
}

impl Model for Cookie {
    ghost use Rattle.std.specs.Prelude.{option_map, string_bytes};
    ghost use Rattle.web_cookies.specs.CookieFields.{CookieFields, date_parts};

    ghost Value = { CookieFields };

    ghost view = { λ c. record {
      name = c.name;
      value = string_bytes c.value;
      path = c.path;
      domain = c.domain;
      max_age = c.max_age;
      expires = option_map date_parts c.expires;
      secure = c.secure;
      http_only = c.http_only;
      same_site = c.same_site;
    } };
}

impl Cookie {
    /// A cookie with this name and value, and no attribute.
    pub fn new(name: Text, value: Text) -> Cookie
        ensures { result ≡ plain_cookie name value }
    {
        Cookie {
            name,
            value: value.into_string(),
            path: None,
            domain: None,
            max_age: None,
            expires: None,
            secure: None,
            http_only: false,
            same_site: None,
        }
    }

    /// The name.
    pub fn name(&self) -> &str
        ensures { result.now ≡ self.now.name }
    {
        self.name.as_str()
    }

    /// The value.
    pub fn value(&self) -> &str
        ensures { result.now ≡ self.now.value }
    {
        self.value.as_str()
    }

    /// The path below which the cookie is sent back.
    pub fn path(&self) -> Option<&str>
        ensures { option_copied result ≡ self.now.path }
    {
        match &self.path {
            Some(path) => Some(path.as_str()),
            None => None,
        }
    }

    /// The domain whose hosts get the cookie back.
    pub fn domain(&self) -> Option<&str>
        ensures { option_copied result ≡ self.now.domain }
    {
        match &self.domain {
            Some(domain) => Some(domain.as_str()),
            None => None,
        }
    }

    /// How long the cookie lasts, in seconds.
    pub fn max_age(&self) -> Option<u64>
        ensures { result ≡ self.now.max_age }
    {
        self.max_age
    }

    /// When the cookie ends.
    pub fn expires(&self) -> Option<HttpDate>
        ensures { option_map date_parts result ≡ self.now.expires }
    {
        self.expires
    }

    /// Whether the cookie is sent back over secure connections alone, where that is said.
    pub fn secure(&self) -> Option<bool>
        ensures { result ≡ self.now.secure }
    {
        self.secure
    }

    /// Whether the cookie is kept from scripts.
    pub fn http_only(&self) -> bool
        ensures { result ≡ self.now.http_only }
    {
        self.http_only
    }

    /// With which requests the cookie is sent back, where that is said.
    pub fn same_site(&self) -> Option<SameSite>
        ensures { result ≡ self.now.same_site }
    {
        self.same_site
    }

    /// Sets the value.
    pub fn set_value(&mut self, value: Text)
        ensures { self.new ≡ record self.old { value = value } }
    {
        self.value = value.into_string();
    }

    /// Sets the path, or takes it away.
    pub fn set_path(&mut self, path: Option<Text>)
        ensures { self.new ≡ record self.old { path = path } }
    {
        self.path = path;
    }

    /// Sets the domain, or takes it away.
    pub fn set_domain(&mut self, domain: Option<Text>)
        ensures { self.new ≡ record self.old { domain = domain } }
    {
        self.domain = domain;
    }

    /// Sets how long the cookie lasts, in seconds, or takes that away.
    pub fn set_max_age(&mut self, max_age: Option<u64>)
        ensures { self.new ≡ record self.old { max_age = max_age } }
    {
        self.max_age = max_age;
    }

    /// Sets when the cookie ends, or takes that away.
    pub fn set_expires(&mut self, expires: Option<HttpDate>)
        ensures { self.new ≡ record self.old { expires = option_map date_parts expires } }
    {
        self.expires = expires;
    }

    /// Sets whether the cookie is sent back over secure connections alone, or takes that away.
    pub fn set_secure(&mut self, secure: Option<bool>)
        ensures { self.new ≡ record self.old { secure = secure } }
    {
        self.secure = secure;
    }

    /// Sets whether the cookie is kept from scripts.
    pub fn set_http_only(&mut self, http_only: bool)
        ensures { self.new ≡ record self.old { http_only = http_only } }
    {
        self.http_only = http_only;
    }

    /// Sets with which requests the cookie is sent back, or takes that away.
    pub fn set_same_site(&mut self, same_site: Option<SameSite>)
        ensures { self.new ≡ record self.old { same_site = same_site } }
    {
        self.same_site = same_site;
    }

    /// Makes a cookie with which a client forgets the one of this name, path and domain: its value
    /// is empty, it lasts 0 seconds, and it ended a year of 365 days before the moment, or at the
    /// start of 1970 where that is later.
    pub fn make_removal(&mut self, moment: HttpDate)
        ensures { IsRemoval (unix_secs moment) self.old self.new }
    {
        let ended = match HttpDate::from_unix_secs(moment.unix_secs().saturating_sub(REMOVAL_AGE)) {
            Ok(ended) => ended,
            Err(_) => unreachable!(),
        };
        self.value.clear();
        self.max_age = Some(0);
        self.expires = Some(ended);
    }
}

impl Duplicate for Cookie {
    fn duplicate(&self, alloc: Global) -> Result<Cookie, NoMemory> {
        let name = self.name.duplicate(alloc)?;
        let value = Text::of(alloc, self.value())?;
        let mut copy = Cookie::new(name, value);
        copy.path = self.path.duplicate(alloc)?;
        copy.domain = self.domain.duplicate(alloc)?;
        copy.max_age = self.max_age;
        copy.expires = self.expires;
        copy.secure = self.secure;
        copy.http_only = self.http_only;
        copy.same_site = self.same_site;
        Ok(copy)
    }
}

impl PartialEq for Cookie {
    ghost use Rattle.std.specs.Cmp.{partial_equiv_from_equiv};
    ghost use Rattle.web_cookies.specs.CookieEquality.{cookie_eq, cookie_eq_law};

    ghost eq = { cookie_eq };

    ghost laws = { partial_equiv_from_equiv cookie_eq_law };

    fn eq(&self, other: &Cookie) -> bool {
        self.name == other.name
            && self.value == other.value
            && self.path == other.path
            && self.domain == other.domain
            && self.max_age == other.max_age
            && self.expires == other.expires
            && self.secure == other.secure
            && self.http_only == other.http_only
            && self.same_site == other.same_site
    }
}

impl Eq for Cookie {
    ghost use Rattle.web_cookies.specs.CookieEquality.{cookie_eq_law};

    ghost laws = { cookie_eq_law };
}
