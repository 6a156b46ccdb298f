//! Cookies: their attributes, what they are read from, and what they print (RFC 6265).
#![tactic(auto)]

mod attributes;
mod checked_cookie;
mod cookie_pair;
mod cookie_parse_error;
mod cookie_reader;
mod cookie_text;
mod header_cookies;
mod response_cookie;
mod same_site;

pub use cookie_pair::CookiePair;
pub use cookie_parse_error::CookieParseError;
pub use header_cookies::{cookie_named, decoded_cookies, raw_cookies};
pub use response_cookie::Cookie;
pub use same_site::SameSite;
