//! Where a client sends a cookie, by the site that a request came from.

use std::fmt;

/// With which requests a client sends a cookie back (RFC 6265bis, section 4.1.2.7).
#[derive(Clone, Copy, Debug, PartialEq, Eq)]
pub enum SameSite {
    /// With those of the same site alone.
    Strict,
    /// With those of the same site, and with the ones that follow a link to it.
    Lax,
    /// With all of them.
    None,
}

impl fmt::Display for SameSite {
    ghost use Rattle.std.specs.Prelude.{Some};
    ghost use Rattle.web_cookies.specs.CookieTexts.{site_name};

    ghost output = { λ site. Some (site_name site) };

    fn fmt<W: fmt::Write>(&self, f: &mut fmt::Formatter<W>) -> fmt::Result {
        f.write_str(match self {
            SameSite::Strict => "Strict",
            SameSite::Lax => "Lax",
            SameSite::None => "None",
        })
    }
}
