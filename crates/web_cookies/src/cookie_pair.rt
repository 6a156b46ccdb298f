//! A cookie as a client sends it back.
ghost use Rattle.std.specs.Prelude.{◌≡◌, IfOk};
ghost use Rattle.web_cookies.specs.CookieFields.{cookie_of_pair};

use crate::response_cookie::Cookie;
use std::alloc::Global;
use std::fmt;
use std::marker::Model;
use web_texts::{NoMemory, Pair, Text};

/// A cookie as a client sends it back (RFC 6265, section 4.2.2): a name and a value. Attributes are
/// not sent back. So it takes a third of the memory of a `Cookie`, of which a header may have
/// thousands.
#[derive(Drop)]
pub struct CookiePair {
    pair: Pair,
}

impl Model for CookiePair {
    ghost use Rattle.web_texts.specs.Pairs.{Pair as NamedValue};

    ghost Value = { NamedValue };

    ghost view = { λ cookie. cookie.pair };
}

impl CookiePair {
    /// The cookie of a pair.
    pub fn new(pair: Pair) -> CookiePair
        ensures { result ≡ pair }
    {
        CookiePair { pair }
    }

    /// The name.
    pub fn name(&self) -> &str
        ensures { result.now ≡ self.now.name }
    {
        self.pair.name()
    }

    /// The value.
    pub fn value(&self) -> &str
        ensures { result.now ≡ self.now.value }
    {
        self.pair.value()
    }

    /// A cookie with copies of this name and this value, and no attribute. Returns `NoMemory` where
    /// allocation failed.
    pub fn to_cookie(&self, alloc: Global) -> Result<Cookie, NoMemory>
        ensures { IfOk result (λ cookie. cookie ≡ cookie_of_pair self.now) }
    {
        let name = Text::of(alloc, self.name())?;
        let value = Text::of(alloc, self.value())?;
        Ok(Cookie::new(name, value))
    }
}

/// Prints the pair as a client sends it: the name, `=` and the value.
impl fmt::Display for CookiePair {
    ghost use Rattle.std.specs.Prelude.{Some};
    ghost use Rattle.web_cookies.specs.CookieFields.{pair_text};

    ghost output = { λ p. Some (pair_text p) };

    fn fmt<W: fmt::Write>(&self, f: &mut fmt::Formatter<W>) -> fmt::Result {
        let name = self.name();
        let value = self.value();
        write!(f, "{name}={value}")
    }
}
