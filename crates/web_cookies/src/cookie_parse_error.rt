//! Why a text is no cookie.

use std::fmt;

/// Why a text is no cookie.
#[derive(Clone, Copy, Debug, Drop, PartialEq, Eq)]
pub enum CookieParseError {
    /// The part before the first `;` has no `=`.
    MissingPair,
    /// The name is empty.
    EmptyName,
    /// The name or the value, percent-decoded, is not UTF-8; or the header is not.
    Utf8,
}

impl fmt::Display for CookieParseError {
    ghost use Rattle.std.specs.Prelude.{Some};
    ghost use Rattle.web_cookies.specs.CookieTexts.{cookie_error_text};

    ghost output = { λ error. Some (cookie_error_text error) };

    fn fmt<W: fmt::Write>(&self, f: &mut fmt::Formatter<W>) -> fmt::Result {
        f.write_str(match self {
            CookieParseError::MissingPair => "cookie has no pair",
            CookieParseError::EmptyName => "cookie name is empty",
            CookieParseError::Utf8 => "cookie is not UTF-8",
        })
    }
}
