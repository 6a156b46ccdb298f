//! The cookies of a response.
ghost use Rattle.std.specs.Prelude.{◌≡◌, ◌+◌, ◌≤◌, IfOk, List, OnErr, Result, codes, length};
ghost use Rattle.http_header.specs.FieldValue.{FieldValue};
ghost use Rattle.http_header.specs.HeaderMap.{get_all};
ghost use Rattle.httpdate.specs.Date.{unix_secs};
ghost use Rattle.web_cookies.specs.CookieFields.{CookieFields};
ghost use Rattle.web_reply.specs.ResponseCookies.{AddsCookie, AddsRemoval};
ghost use Rattle.web_reply.specs.ResponseCookies.{DeletesCookies, GivesCookies};
ghost use Rattle.web_reply.specs.ResponseCookies.{HasCookies, NextCookie};
ghost use Rattle.web_reply.specs.ResponseCookies.{deleted_count, deletes};
ghost use Rattle.web_reply.specs.ResponseCookies.{kept_cookies, with_cookies};

use crate::cookie_setting::cookie_header;
use crate::errors::cause::HttpError;
use crate::head::copy_headers;
use crate::header_setting::{Placing, place_one};
use crate::response::HttpResponse;
use http_header::{HeaderMap, HeaderValue, SET_COOKIE, ValueIter};
use httpdate::HttpDate;
use std::alloc::Global;
use std::marker::Model;
use web_cookies::Cookie;
use web_texts::{Duplicate, Fail, NoMemory, header_text};

/// The cookies that a response sets (RFC 6265, section 4.1), percent-decoded.
///
/// A value of Set-Cookie that is no cookie is passed over. The iterator ends at the first value
/// that is no header text, and after an item `NoMemory`. Contracts see the values that are left.
#[derive(Drop)]
pub struct CookieIter<'a> {
    alloc: Global,
    values: Option<ValueIter<'a, HeaderValue>>,
}

impl<'a> Model for CookieIter<'a> {
    ghost use Rattle.std.specs.Prelude.{List, []};
    ghost use Rattle.std.specs.Option.{unwrap_or};
    ghost use Rattle.http_header.specs.FieldValue.{FieldValue};

    ghost Value = { List FieldValue };

    ghost view = { λ it. unwrap_or it.values [] };
}

/// The next cookie of these values.
fn next_cookie(
    alloc: Global,
    values: &mut ValueIter<'_, HeaderValue>,
) -> Option<Result<Cookie, NoMemory>>
    ensures { NextCookie values.old result values.new }
{
    while let Some(value) = values.next() {
        let Some(text) = header_text(value) else {
            return None;
        };
        match Cookie::parse_encoded(alloc, text) {
            Ok(cookie) => return Some(Ok(cookie)),
            Err(Fail::NoMemory) => return Some(Err(NoMemory)),
            Err(Fail::Of(_)) => {}
        }
    }
    None
}

impl<'a> Iterator for CookieIter<'a> {
    ghost use Rattle.std.specs.Iterator.{item_count};
    ghost use Rattle.web_reply.specs.ResponseCookies.{GivesCookie};

    type Item = Result<Cookie, NoMemory>;

    ghost next_gives = { GivesCookie };

    ghost remaining = { item_count (λ it. it) };

    fn next(&mut self) -> Option<Result<Cookie, NoMemory>> {
        let Some(values) = &mut self.values else {
            return None;
        };
        match next_cookie(self.alloc, values) {
            Some(Ok(cookie)) => Some(Ok(cookie)),
            ended => {
                self.values = None;
                ended
            }
        }
    }
}

/// Whether a value of Set-Cookie is a cookie of this name.
fn is_named(alloc: Global, value: &HeaderValue, name: &str) -> Result<bool, NoMemory>
    ensures { IfOk result (λ is. is ≡ deletes name.now value.now) }
{
    let Some(text) = header_text(value) else {
        return Ok(false);
    };
    match Cookie::parse_encoded(alloc, text) {
        Ok(cookie) => Ok(cookie.name() == name),
        Err(Fail::NoMemory) => Err(NoMemory),
        Err(Fail::Of(_)) => Ok(false),
    }
}

/// Copies of the values of Set-Cookie that are no cookie of this name, in their order, and the
/// number of the others.
fn kept_cookies(
    alloc: Global,
    headers: &HeaderMap<HeaderValue>,
    name: &str,
) -> Result<(Vec<HeaderValue>, usize), NoMemory>
    ensures kept { IfOk result (λ found. found.0.items
        ≡ kept_cookies name.now (get_all headers.now (codes "set-cookie"))) }
    ensures count { IfOk result (λ found. found.1
        ≡ deleted_count name.now (get_all headers.now (codes "set-cookie"))) }
{
    let mut kept = Vec::new(alloc);
    let mut count = 0;
    for value in headers.get_all(SET_COOKIE) {
        if is_named(alloc, value, name)? {
            count += 1;
        } else {
            kept.push(value.clone()?)?;
        }
    }
    Ok((kept, count))
}

/// A copy of the headers with these values of Set-Cookie in place of its own.
fn with_cookies(
    headers: &HeaderMap<HeaderValue>,
    cookies: Vec<HeaderValue>,
) -> Result<HeaderMap<HeaderValue>, NoMemory>
    ensures cookies { IfOk result (λ changed. HasCookies headers.now cookies.items changed) }
    ensures entries { IfOk result (λ changed.
        changed ≡ with_cookies headers.now cookies.items) }
{
    let mut changed = copy_headers(headers)?;
    // It says that each name stands once.
    let _count = changed.len();
    changed.remove(SET_COOKIE);
    for cookie in cookies {
        match changed.append(SET_COOKIE, cookie) {
            Ok(_) => {}
            Err(_) => return Err(NoMemory),
        }
    }
    Ok(changed)
}

/// States that the iterator gives at most as many items as there are values.
///
/// The contract is a law, for callers to cite in proofs; a call of it has no effect.
pub fn cookie_items_law()
    ensures { (old new : List FieldValue) (items : List (Result CookieFields NoMemory))
        → GivesCookies old items new → length items + length new ≤ length old }
{}

impl<B> HttpResponse<B> {
    /// The cookies that the response sets.
    pub fn cookies(&self, alloc: Global) -> CookieIter<'_>
        ensures { result ≡ get_all self.now.head.headers (codes "set-cookie") }
    {
        CookieIter {
            alloc,
            values: Some(self.headers().get_all(SET_COOKIE).iter()),
        }
    }

    /// Sets a cookie, after those that the response sets already. Returns `Value` where its text
    /// may stand in no header (RFC 9110, section 5.5), and `MaxSize` where the headers have no room
    /// for it; the response is then unchanged, and so it is where allocation fails.
    pub fn add_cookie(&mut self, alloc: Global, cookie: &Cookie) -> Result<(), Fail<HttpError>>
        ensures { AddsCookie cookie.now self.old result self.new }
    {
        let header = cookie_header(alloc, cookie)?;
        place_one(self.headers_mut(), Placing::Append, header)
    }

    /// Sets a cookie with which a client forgets the one of this name, path and domain: one without
    /// a value that ended a year before the moment. Fails as `add_cookie` does.
    pub fn add_removal_cookie(
        &mut self,
        alloc: Global,
        cookie: &Cookie,
        moment: HttpDate,
    ) -> Result<(), Fail<HttpError>>
        ensures { AddsRemoval (unix_secs moment) cookie.now self.old result self.new }
    {
        let mut removal = cookie.duplicate(alloc)?;
        removal.make_removal(moment);
        self.add_cookie(alloc, &removal)
    }

    /// Takes back each cookie of this name, percent-decoded, and returns how many. All other
    /// headers stay, and so do values of Set-Cookie that are no cookie. Where a cookie was taken
    /// back and values are left, Set-Cookie is the last of the names. Where allocation fails, the
    /// response is unchanged.
    pub fn del_cookie(&mut self, alloc: Global, name: &str) -> Result<usize, NoMemory>
        ensures ok { IfOk result (λ count. DeletesCookies name.now self.old count self.new) }
        ensures err { OnErr result (self.new ≡ self.old) }
    {
        let (kept, count) = kept_cookies(alloc, self.headers(), name)?;
        if count > 0 {
            let headers = with_cookies(self.headers(), kept)?;
            *self.headers_mut() = headers;
        }
        Ok(count)
    }
}
