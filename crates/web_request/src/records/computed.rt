//! What is computed of a request once and then kept.
ghost use Rattle.std.specs.Prelude.{◌≡◌, IfOk, IsOk, IsSome, None, OnErr, OnOk, option_copied};
ghost use Rattle.std.specs.Borrow.{sem};
ghost use Rattle.std.specs.Io.BufRead.{Rests};
ghost use Rattle.web_texts.specs.Returns.{ReturnsBy};
ghost use Rattle.web_request.specs.Computed.{KeepsConnection, KeepsCookies, KeepsRawCookies};
ghost use Rattle.web_request.specs.Computed.{KeepsUrlConnection};
ghost use Rattle.web_request.specs.FullUrls.{ReadsUrl, url_said};
ghost use Rattle.web_request.specs.KeptValues.{cookie_named, known_connection, known_cookies};
ghost use Rattle.web_request.specs.KeptValues.{known_raw_cookies, some_said, with_connection};
ghost use Rattle.web_request.specs.KeptValues.{with_cookies, with_raw_cookies};
ghost use Rattle.web_request.specs.contracts.request.HttpRequest.{the_row};

use crate::app::App;
use crate::peers::connection_info::ConnectionInfo;
use crate::peers::full_url::read_full_url;
use crate::request::HttpRequest;
use std::alloc::Global;
use url::{ParseError, Url};
use web_cookies::{
    Cookie, CookiePair, CookieParseError, cookie_named, decoded_cookies, raw_cookies,
};
use web_texts::{Fail, NoMemory};

impl<A: App> HttpRequest<A> {
    fn keep_connection(&mut self, alloc: Global) -> Result<(), NoMemory>
        ensures ok { OnOk result (self.new ≡ with_connection self.old) }
        ensures err { OnErr result (self.new ≡ self.old) }
        ensures memory { IsSome self.old.kept.connection → IsOk result }
    {
        if self.kept.connection().is_none() {
            let info = ConnectionInfo::new(alloc, &self.head, &self.config)?;
            self.kept.keep_connection(alloc, info)?;
        }
        Ok(())
    }

    fn kept_connection(&self) -> Option<&ConnectionInfo>
        ensures { option_copied result ≡ self.now.kept.connection }
    {
        self.kept.connection()
    }

    /// Where the request came from and was sent to, by its head at the first call of this or of
    /// `full_url`, which is kept; once it is, this takes no memory. Returns `NoMemory` where
    /// allocation failed; the request is then as before.
    pub fn connection_info(&mut self, alloc: Global) -> Result<&ConnectionInfo, NoMemory>
        ensures value { IfOk result (λ info. info.now ≡ known_connection self.old) }
        ensures memory { IsSome self.old.kept.connection → IsOk result }
        ensures* after { sem 𝓛 (Rests
            (the_row A.row A.Layer.row A.Local.row A.Conn.row A.Source.row
            A.Layer.AppLayer A.Source.Source)
            self.entry (λ new. KeepsConnection self.old result new)) }
    {
        self.keep_connection(alloc)?;
        match self.kept_connection() {
            Some(info) => Ok(info),
            None => unreachable!(),
        }
    }

    /// The URL of the request: the scheme and the host of `connection_info`, and the path with the
    /// query of the target, or `/` where it has no path, read by the URL Standard. The connection
    /// information is kept as by `connection_info`, also where the URL is refused.
    ///
    /// Returns the parser's error where it refuses the text. `NoMemory` where allocation failed or
    /// the text has no room, from some 4 GB on; after that alone the request is as before.
    pub fn full_url(&mut self, alloc: Global) -> Result<Url, Fail<ParseError>>
        ensures value { ReadsUrl result (url_said self.old) }
        ensures after { KeepsUrlConnection self.old result self.new }
    {
        if let Some(info) = self.kept.connection() {
            return read_full_url(alloc, info, &self.head.uri);
        }
        let info = ConnectionInfo::new(alloc, &self.head, &self.config)?;
        match read_full_url(alloc, &info, &self.head.uri) {
            Err(Fail::NoMemory) => Err(Fail::NoMemory),
            result => {
                self.kept.keep_connection(alloc, info)?;
                result
            }
        }
    }

    fn keep_cookies(&mut self, alloc: Global) -> Result<(), Fail<CookieParseError>>
        ensures said { ReturnsBy (λ _. self.new.kept.decoded) result
            (some_said (known_cookies self.old)) }
        ensures after { self.new ≡ record self.old {
          kept = record self.old.kept { decoded = self.new.kept.decoded };
        } }
        ensures err { OnErr result (self.new ≡ self.old) }
        ensures memory { IsSome self.old.kept.decoded → IsOk result }
    {
        if self.kept.decoded().is_none() {
            let cookies = decoded_cookies(alloc, &self.head.headers)?;
            self.kept.keep_decoded(alloc, cookies)?;
        }
        Ok(())
    }

    fn kept_cookies(&self) -> Option<&[CookiePair]>
        ensures { option_copied result ≡ self.now.kept.decoded }
    {
        self.kept.decoded()
    }

    /// The cookies of the request, with names and values percent-decoded, in their order, by its
    /// head at the first call of this or of `cookie` in which they could be read; they are kept,
    /// and from then on this takes no memory. What is no cookie is left out.
    ///
    /// Returns `CookieParseError::Utf8` where a value of the header Cookie is not UTF-8 and no
    /// cookies are kept, and `NoMemory` where allocation failed; the request is then as before.
    pub fn cookies(&mut self, alloc: Global) -> Result<&[CookiePair], Fail<CookieParseError>>
        ensures value { ReturnsBy (λ cookies. cookies.now) result (known_cookies self.old) }
        ensures memory { IsSome self.old.kept.decoded → IsOk result }
        ensures* after { sem 𝓛 (Rests
            (the_row A.row A.Layer.row A.Local.row A.Conn.row A.Source.row
            A.Layer.AppLayer A.Source.Source)
            self.entry (λ new. KeepsCookies self.old result new)) }
    {
        self.keep_cookies(alloc)?;
        match self.kept_cookies() {
            Some(cookies) => Ok(cookies),
            None => unreachable!(),
        }
    }

    /// A copy of the first of `cookies` that has this name, which are read and kept as by that
    /// call. `None` also where they cannot be read. Returns `NoMemory` where allocation failed, but
    /// not where none of those that are kept has the name; the request is then as before.
    pub fn cookie(&mut self, alloc: Global, name: &str) -> Result<Option<Cookie>, NoMemory>
        ensures value { IfOk result (λ found.
            found ≡ cookie_named name.now (known_cookies self.old)) }
        ensures memory { IsSome self.old.kept.decoded
            → cookie_named name.now (known_cookies self.old) ≡ None → IsOk result }
        ensures after { OnOk result (self.new ≡ with_cookies (known_cookies self.old) self.old) }
        ensures err { OnErr result (self.new ≡ self.old) }
    {
        if let Some(cookies) = self.kept.decoded() {
            return cookie_named(alloc, cookies, name);
        }
        match decoded_cookies(alloc, &self.head.headers) {
            Ok(cookies) => {
                let found = cookie_named(alloc, cookies.as_slice(), name)?;
                self.kept.keep_decoded(alloc, cookies)?;
                Ok(found)
            }
            Err(Fail::NoMemory) => Err(NoMemory),
            Err(Fail::Of(_)) => Ok(None),
        }
    }

    fn keep_raw_cookies(&mut self, alloc: Global) -> Result<(), Fail<CookieParseError>>
        ensures said { ReturnsBy (λ _. self.new.kept.raw) result
            (some_said (known_raw_cookies self.old)) }
        ensures after { self.new ≡ record self.old {
          kept = record self.old.kept { raw = self.new.kept.raw };
        } }
        ensures err { OnErr result (self.new ≡ self.old) }
        ensures memory { IsSome self.old.kept.raw → IsOk result }
    {
        if self.kept.raw().is_none() {
            let cookies = raw_cookies(alloc, &self.head.headers)?;
            self.kept.keep_raw(alloc, cookies)?;
        }
        Ok(())
    }

    fn kept_raw_cookies(&self) -> Option<&[CookiePair]>
        ensures { option_copied result ≡ self.now.kept.raw }
    {
        self.kept.raw()
    }

    /// As `cookies`, with names and values as they are. The two lists are kept apart.
    pub fn cookies_raw(&mut self, alloc: Global) -> Result<&[CookiePair], Fail<CookieParseError>>
        ensures value { ReturnsBy (λ cookies. cookies.now) result (known_raw_cookies self.old) }
        ensures memory { IsSome self.old.kept.raw → IsOk result }
        ensures* after { sem 𝓛 (Rests
            (the_row A.row A.Layer.row A.Local.row A.Conn.row A.Source.row
            A.Layer.AppLayer A.Source.Source)
            self.entry (λ new. KeepsRawCookies self.old result new)) }
    {
        self.keep_raw_cookies(alloc)?;
        match self.kept_raw_cookies() {
            Some(cookies) => Ok(cookies),
            None => unreachable!(),
        }
    }

    /// As `cookie`, of `cookies_raw`.
    pub fn cookie_raw(&mut self, alloc: Global, name: &str) -> Result<Option<Cookie>, NoMemory>
        ensures value { IfOk result (λ found.
            found ≡ cookie_named name.now (known_raw_cookies self.old)) }
        ensures memory { IsSome self.old.kept.raw
            → cookie_named name.now (known_raw_cookies self.old) ≡ None → IsOk result }
        ensures after { OnOk result
            (self.new ≡ with_raw_cookies (known_raw_cookies self.old) self.old) }
        ensures err { OnErr result (self.new ≡ self.old) }
    {
        if let Some(cookies) = self.kept.raw() {
            return cookie_named(alloc, cookies, name);
        }
        match raw_cookies(alloc, &self.head.headers) {
            Ok(cookies) => {
                let found = cookie_named(alloc, cookies.as_slice(), name)?;
                self.kept.keep_raw(alloc, cookies)?;
                Ok(found)
            }
            Err(Fail::NoMemory) => Err(NoMemory),
            Err(Fail::Of(_)) => Ok(None),
        }
    }
}
