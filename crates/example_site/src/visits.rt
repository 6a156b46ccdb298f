//! `GET /visits`: counts in a cookie how often a client was here.
use crate::reply::{Plain, Reply};
use http::StatusCode;
use std::alloc::Global;
use web_build::prelude::*;
use web_cookies::{Cookie, SameSite};
use web_reply::HttpResponse;
use web_request::HttpRequest;
use web_texts::{NoMemory, Text, read_digits};

/// The greatest count.
const MOST_VISITS: u64 = 1_000_000;

/// The count of the cookie that the client sent, or 0 where it sent none that is one.
fn count_sent(alloc: Global, request: HttpRequest<Plain>) -> Result<u64, NoMemory> {
    let mut request = request;
    match request.cookie(alloc, "visits")? {
        Some(cookie) => Ok(read_digits(cookie.value(), MOST_VISITS).unwrap_or(0)),
        None => Ok(0),
    }
}

/// The cookie that keeps a count.
fn cookie_of(alloc: Global, visits: u64) -> Result<Cookie, NoMemory> {
    let value = Text::from(format!(in alloc; "{visits}")?);
    let mut cookie = Cookie::new(Text::of(alloc, "visits")?, value);
    cookie.set_path(Some(Text::of(alloc, "/")?));
    cookie.set_http_only(true);
    cookie.set_same_site(Some(SameSite::Lax));
    Ok(cookie)
}

/// Counts this visit.
pub fn count_visit(alloc: Global, request: HttpRequest<Plain>) -> Result<Reply, NoMemory> {
    let visits = count_sent(alloc, request)?.saturating_add(1);
    let mut builder = HttpResponse::build(alloc, StatusCode::OK);
    builder.cookie(&cookie_of(alloc, visits)?)?;
    builder.content_type("text/plain; charset=utf-8")?;
    builder.take().body(format!(in alloc; "visit {visits}\n")?)
}
