//! The header that sets a cookie.
ghost use Rattle.std.specs.Prelude.{◌≡◌, IfOk};
ghost use Rattle.web_reply.specs.CookieHeaders.{cookie_header};

use crate::errors::cause::HttpError;
use crate::header_setting::valued;
use http_header::{HeaderName, HeaderValue, SET_COOKIE};
use std::alloc::Global;
use web_cookies::Cookie;
use web_texts::{NoMemory, Text};

/// The header that sets a cookie (RFC 6265, section 4.1), or `HttpError::Value` where its text may
/// stand in no header (RFC 9110, section 5.5).
pub fn cookie_header(
    alloc: Global,
    cookie: &Cookie,
) -> Result<Result<(HeaderName, HeaderValue), HttpError>, NoMemory>
    ensures { IfOk result (λ header. header ≡ cookie_header cookie.now) }
{
    let text = Text::from(cookie.to_string(alloc)?);
    valued(alloc, SET_COOKIE, text)
}
