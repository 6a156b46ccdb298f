//! What is read of the request of a `ServiceRequest`. Each call is that of the request.
ghost use Rattle.std.specs.Prelude.{◌≡◌, IfOk, IsOk, IsSome, None, OnErr, OnOk, option_copied};
ghost use Rattle.std.specs.Option.{option_and_then};
ghost use Rattle.std.specs.Borrow.{sem};
ghost use Rattle.std.specs.Io.BufRead.{Rests};
ghost use Rattle.web_request.specs.Computed.{KeepsConnection, KeepsCookies, KeepsRawCookies};
ghost use Rattle.web_request.specs.Head.{head_path, head_query, head_target, head_view, uri_view};
ghost use Rattle.web_request.specs.KeptValues.{cookie_named, known_connection, known_cookies};
ghost use Rattle.web_request.specs.KeptValues.{known_raw_cookies, with_cookies};
ghost use Rattle.web_request.specs.KeptValues.{with_raw_cookies};
ghost use Rattle.web_request.specs.Nearest.{nearest};
ghost use Rattle.web_texts.specs.Returns.{ReturnsBy};
ghost use Rattle.web_service.specs.contracts.service_request.ServiceRequest.{the_row};

use crate::service_request::ServiceRequest;
use http::{Method, Version};
use http_header::{HeaderMap, HeaderValue};
use http_uri::Uri;
use std::alloc::Global;
use web_request::cookies::{Cookie, CookiePair, CookieParseError};
use web_request::{
    App, AppConfig, ConnectionInfo, Fail, Holds, NoMemory, Pair, RequestHead, SocketAddr,
};

impl<A: App> ServiceRequest<A> {
    /// The head.
    pub fn head(&self) -> &RequestHead
        ensures { head_view result.now ≡ self.now.request.request.head }
    {
        self.request.head()
    }

    /// The request target.
    pub fn uri(&self) -> &Uri
        ensures { uri_view result.now ≡ head_target self.now.request.request.head }
    {
        self.request.uri()
    }

    /// The method.
    pub fn method(&self) -> &Method
        ensures { result.now ≡ self.now.request.request.head.method }
    {
        self.request.method()
    }

    /// The header fields.
    pub fn headers(&self) -> &HeaderMap<HeaderValue>
        ensures { result.now ≡ self.now.request.request.head.headers }
    {
        self.request.headers()
    }

    /// The HTTP version.
    pub fn version(&self) -> Version
        ensures { result ≡ self.now.request.request.head.version }
    {
        self.request.version()
    }

    /// The path of the target without the query.
    pub fn path(&self) -> &str
        ensures { result.now ≡ head_path self.now.request.request.head }
    {
        self.request.path()
    }

    /// The query of the target without its question mark, empty where there is none.
    pub fn query_string(&self) -> &str
        ensures { result.now ≡ head_query self.now.request.request.head }
    {
        self.request.query_string()
    }

    /// The address that the request came from, if it is known.
    pub fn peer_addr(&self) -> Option<SocketAddr>
        ensures { result ≡ self.now.request.request.head.peer }
    {
        self.request.peer_addr()
    }

    /// The parameters that a router matched in the path, not decoded.
    pub fn match_info(&self) -> &[Pair]
        ensures { result.now ≡ self.now.request.request.params }
    {
        self.request.match_info()
    }

    /// The `T` of the last layer that holds one.
    pub fn app_data<T>(&self) -> Option<&T>
    where
        A::Layer: Holds<T>,
        ensures { option_copied result
            ≡ nearest A.Layer.Holds.held self.now.request.request.layers }
    {
        self.request.app_data()
    }

    /// The `T` that the data of the connection holds.
    pub fn conn_data<T>(&self) -> Option<&T>
    where
        A::Conn: Holds<T>,
        ensures { option_copied result
            ≡ option_and_then A.Conn.Holds.held self.now.request.request.conn }
    {
        self.request.conn_data()
    }

    /// The settings of the worker.
    pub fn app_config(&self) -> &AppConfig
        ensures { result.now ≡ self.now.request.request.config }
    {
        self.request.app_config()
    }

    /// Where the request came from and was sent to, which is kept. Returns `NoMemory` where
    /// allocation failed; the request is then as before.
    pub fn connection_info(&mut self, alloc: Global) -> Result<&ConnectionInfo, NoMemory>
        ensures value { IfOk result (λ info. info.now ≡ known_connection self.old.request) }
        ensures memory { IsSome self.old.request.kept.connection → IsOk result }
        ensures* after { sem 𝓛 (Rests
            (the_row A.row A.Layer.row A.Local.row A.Conn.row A.Source.row
            A.Layer.AppLayer A.Source.Source)
            self.entry (λ new. KeepsConnection self.old.request result new.request
            × (new.payload ≡ self.old.payload))) }
    {
        self.request.connection_info(alloc)
    }

    /// The cookies of the request, percent-decoded, which are kept. Returns
    /// `CookieParseError::Utf8` where a value of the header Cookie is not UTF-8 and no cookies are
    /// kept, and `NoMemory` where allocation failed; the request is then as before.
    pub fn cookies(&mut self, alloc: Global) -> Result<&[CookiePair], Fail<CookieParseError>>
        ensures value { ReturnsBy (λ cookies. cookies.now) result
            (known_cookies self.old.request) }
        ensures memory { IsSome self.old.request.kept.decoded → IsOk result }
        ensures* after { sem 𝓛 (Rests
            (the_row A.row A.Layer.row A.Local.row A.Conn.row A.Source.row
            A.Layer.AppLayer A.Source.Source)
            self.entry (λ new. KeepsCookies self.old.request result new.request
            × (new.payload ≡ self.old.payload))) }
    {
        self.request.cookies(alloc)
    }

    /// As `cookies`, with names and values as they are. The two lists are kept apart.
    pub fn cookies_raw(&mut self, alloc: Global) -> Result<&[CookiePair], Fail<CookieParseError>>
        ensures value { ReturnsBy (λ cookies. cookies.now) result
            (known_raw_cookies self.old.request) }
        ensures memory { IsSome self.old.request.kept.raw → IsOk result }
        ensures* after { sem 𝓛 (Rests
            (the_row A.row A.Layer.row A.Local.row A.Conn.row A.Source.row
            A.Layer.AppLayer A.Source.Source)
            self.entry (λ new. KeepsRawCookies self.old.request result new.request
            × (new.payload ≡ self.old.payload))) }
    {
        self.request.cookies_raw(alloc)
    }

    /// A copy of the first of `cookies` that has this name, which are read and kept as by that
    /// call. `None` also where they cannot be read. Returns `NoMemory` where allocation failed, but
    /// not where none of those that are kept has the name; the request is then as before.
    pub fn cookie(&mut self, alloc: Global, name: &str) -> Result<Option<Cookie>, NoMemory>
        ensures value { IfOk result (λ found.
            found ≡ cookie_named name.now (known_cookies self.old.request)) }
        ensures memory { IsSome self.old.request.kept.decoded
            → cookie_named name.now (known_cookies self.old.request) ≡ None → IsOk result }
        ensures after { OnOk result (self.new ≡ record self.old {
          request = with_cookies (known_cookies self.old.request) self.old.request;
        }) }
        ensures err { OnErr result (self.new ≡ self.old) }
    {
        self.request.cookie(alloc, name)
    }

    /// As `cookie`, of `cookies_raw`.
    pub fn cookie_raw(&mut self, alloc: Global, name: &str) -> Result<Option<Cookie>, NoMemory>
        ensures value { IfOk result (λ found.
            found ≡ cookie_named name.now (known_raw_cookies self.old.request)) }
        ensures memory { IsSome self.old.request.kept.raw
            → cookie_named name.now (known_raw_cookies self.old.request) ≡ None → IsOk result }
        ensures after { OnOk result (self.new ≡ record self.old {
          request = with_raw_cookies (known_raw_cookies self.old.request) self.old.request;
        }) }
        ensures err { OnErr result (self.new ≡ self.old) }
    {
        self.request.cookie_raw(alloc, name)
    }
}
