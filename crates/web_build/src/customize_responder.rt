//! Responders whose response is changed.
ghost use Rattle.std.specs.Prelude.{◌≡◌, [], Ok as ok, IfOk, IsOk, IsSome, OnOk};
ghost use Rattle.http_header.specs.FieldValue.{plain_value};
ghost use Rattle.http_header.specs.HeaderMap.{pairs};
ghost use Rattle.web_reply.specs.Replies.{Reply, error_reply, fault_of, plain_reply};
ghost use Rattle.web_reply.specs.declared.errors.cause.Cause.TheVariants.{Http};
ghost use Rattle.web_reply.specs.HeaderSteps.{AllStepTo, named, place_each};
ghost use Rattle.web_build.specs.Customized.{append_to, layer_headers, new_customized};
ghost use Rattle.web_build.specs.Customized.{put_override, set_customized_status};
ghost use Rattle.web_build.specs.Customized.{Customized, Fits, layered, stacked};
ghost use Rattle.web_reply.specs.ResponseBodies.{Plain, either_plain, whole_plain};
ghost use Rattle.web_build.specs.Customized.{Changes, LayersOwn, either_reply, with_status};
ghost use Rattle.web_reply.specs.CookieHeaders.{cookie_header};

use http::StatusCode;
use http_header::{HeaderMap, HeaderName, HeaderValue};
use std::alloc::Global;
use std::marker::Model;
use web_cookies::Cookie;
use web_reply::header_setting::{Placing, named, place_each, place_one};
use web_reply::{EitherBody, Error, HttpError, HttpResponse, Responder, WholeBody, cookie_header};
use web_request::{App, HttpRequest};
use web_texts::{Fail, NoMemory};

/// A responder whose response is changed: its status is replaced, headers are replaced by the
/// overrides, and then headers are added.
///
/// A call that refuses a name, a value or one more header keeps the error. While an error is kept,
/// no call changes anything, and the response is the reply to that error.
#[derive(Drop)]
pub struct CustomizeResponder<R> {
    alloc: Global,
    responder: R,
    layers: Layers,
    error: Option<HttpError>,
}

/// What is laid over a response.
#[derive(Drop)]
struct Layers {
    status: Option<StatusCode>,
    overrides: HeaderMap<HeaderValue>,
    appended: HeaderMap<HeaderValue>,
}

impl<R> Model for CustomizeResponder<R> {
    ghost use Rattle.web_build.specs.Customized.{Customized};

    ghost Value = { Customized R };

    ghost view = { λ c. record {
      inner = c.responder;
      status = c.layers.status;
      overrides = c.layers.overrides;
      appended = c.layers.appended;
      error = c.error;
    } };
}

/// Changes the response of any responder.
pub trait Customize: Sized + Drop {
    /// The responder, whose response is not changed yet. This never lacks memory.
    fn customize(self, alloc: Global) -> Result<CustomizeResponder<Self>, NoMemory>
        ensures { result ≡ ok (new_customized self) };

    /// The responder with this status. This never lacks memory.
    fn with_status(
        self,
        alloc: Global,
        status: StatusCode,
    ) -> Result<CustomizeResponder<Self>, NoMemory>
        ensures { result ≡ ok (set_customized_status status (new_customized self)) };

    /// The responder with this header in place of those of its name.
    fn with_header(
        self,
        alloc: Global,
        name: HeaderName,
        value: HeaderValue,
    ) -> Result<CustomizeResponder<Self>, NoMemory>
        ensures { IfOk result (λ c.
            c ≡ put_override (ok (name, value)) (new_customized self)) };
}

impl<R: Drop> Customize for R {
    fn customize(self, alloc: Global) -> Result<CustomizeResponder<R>, NoMemory> {
        Ok(CustomizeResponder::new(alloc, self))
    }

    fn with_status(
        self,
        alloc: Global,
        status: StatusCode,
    ) -> Result<CustomizeResponder<R>, NoMemory> {
        Ok(CustomizeResponder::new(alloc, self).with_status(status))
    }

    fn with_header(
        self,
        alloc: Global,
        name: HeaderName,
        value: HeaderValue,
    ) -> Result<CustomizeResponder<R>, NoMemory> {
        CustomizeResponder::new(alloc, self).with_header(name, value)
    }
}

impl<R> CustomizeResponder<R> {
    fn new(alloc: Global, responder: R) -> CustomizeResponder<R>
        ensures { result ≡ new_customized responder }
    {
        CustomizeResponder {
            alloc,
            responder,
            layers: Layers {
                status: None,
                overrides: HeaderMap::empty(alloc),
                appended: HeaderMap::empty(alloc),
            },
            error: None,
        }
    }

    /// Replaces the status.
    pub fn with_status(self, status: StatusCode) -> CustomizeResponder<R>
        ensures { result ≡ set_customized_status status self }
    {
        let mut customized = self;
        match customized.error {
            Some(_) => {}
            None => customized.layers.status = Some(status),
        }
        customized
    }

    /// Puts a header that was not refused among the overrides, unless an error is kept, and keeps
    /// a refusal.
    fn put_override(
        &mut self,
        header: Result<(HeaderName, HeaderValue), HttpError>,
    ) -> Result<(), NoMemory>
        ensures ok { OnOk result (self.new ≡ put_override header self.old) }
        ensures memory { IsSome self.old.error → IsOk result }
    {
        match self.error {
            Some(_) => Ok(()),
            None => match place_one(&mut self.layers.overrides, Placing::Replace, header) {
                Ok(()) => Ok(()),
                Err(Fail::NoMemory) => Err(NoMemory),
                Err(Fail::Of(error)) => {
                    self.error = Some(error);
                    Ok(())
                }
            },
        }
    }

    /// Puts a header that was not refused after the headers that are added, unless an error is
    /// kept, and keeps a refusal.
    fn append_to(
        &mut self,
        header: Result<(HeaderName, HeaderValue), HttpError>,
    ) -> Result<(), NoMemory>
        ensures ok { OnOk result (self.new ≡ append_to header self.old) }
        ensures memory { IsSome self.old.error → IsOk result }
    {
        match self.error {
            Some(_) => Ok(()),
            None => match place_one(&mut self.layers.appended, Placing::Append, header) {
                Ok(()) => Ok(()),
                Err(Fail::NoMemory) => Err(NoMemory),
                Err(Fail::Of(error)) => {
                    self.error = Some(error);
                    Ok(())
                }
            },
        }
    }
}

impl<R: Drop> CustomizeResponder<R> {
    /// Overrides a header: it stands in place of all those of its name. Where an error is kept,
    /// this takes no memory.
    pub fn insert_header(
        self,
        name: HeaderName,
        value: HeaderValue,
    ) -> Result<CustomizeResponder<R>, NoMemory>
        ensures value { IfOk result (λ c. c ≡ put_override (ok (name, value)) self) }
        ensures memory { IsSome self.error → IsOk result }
    {
        let mut customized = self;
        customized.put_override(Ok((name, value)))?;
        Ok(customized)
    }

    /// Adds a header after those of its name. Where an error is kept, this takes no memory.
    pub fn append_header(
        self,
        name: HeaderName,
        value: HeaderValue,
    ) -> Result<CustomizeResponder<R>, NoMemory>
        ensures value { IfOk result (λ c. c ≡ append_to (ok (name, value)) self) }
        ensures memory { IsSome self.error → IsOk result }
    {
        let mut customized = self;
        customized.append_to(Ok((name, value)))?;
        Ok(customized)
    }

    /// As `insert_header`.
    pub fn with_header(
        self,
        name: HeaderName,
        value: HeaderValue,
    ) -> Result<CustomizeResponder<R>, NoMemory>
        ensures value { IfOk result (λ c. c ≡ put_override (ok (name, value)) self) }
        ensures memory { IsSome self.error → IsOk result }
    {
        self.insert_header(name, value)
    }

    /// As `insert_header`, of texts. `HttpError::Name` is kept for a name that is none (RFC 9110,
    /// section 5.1), `HttpError::Value` for a value that is none (section 5.5).
    pub fn try_insert_header(
        self,
        name: &str,
        value: &str,
    ) -> Result<CustomizeResponder<R>, NoMemory>
        ensures { IfOk result (λ c.
            c ≡ put_override (named name.now (plain_value value.now)) self) }
    {
        let mut customized = self;
        let header = named(customized.alloc, name, value)?;
        customized.put_override(header)?;
        Ok(customized)
    }

    /// As `append_header`, of texts, which are refused as by `try_insert_header`.
    pub fn try_append_header(
        self,
        name: &str,
        value: &str,
    ) -> Result<CustomizeResponder<R>, NoMemory>
        ensures { IfOk result (λ c.
            c ≡ append_to (named name.now (plain_value value.now)) self) }
    {
        let mut customized = self;
        let header = named(customized.alloc, name, value)?;
        customized.append_to(header)?;
        Ok(customized)
    }

    /// Adds Set-Cookie with the text of a cookie. `HttpError::Value` is kept where that is no field
    /// value.
    pub fn add_cookie(self, cookie: &Cookie) -> Result<CustomizeResponder<R>, NoMemory>
        ensures { IfOk result (λ c. c ≡ append_to (cookie_header cookie.now) self) }
    {
        let mut customized = self;
        let header = cookie_header(customized.alloc, cookie)?;
        customized.append_to(header)?;
        Ok(customized)
    }

    /// As `try_insert_header`.
    pub fn try_with_header(self, name: &str, value: &str) -> Result<CustomizeResponder<R>, NoMemory>
        ensures { IfOk result (λ c.
            c ≡ put_override (named name.now (plain_value value.now)) self) }
    {
        self.try_insert_header(name, value)
    }
}

/// States that customizing is layering: where the headers have room, the response that a customized
/// responder makes of its responder's own is that one with the status, then the overrides, then the
/// added headers.
///
/// The contract is a law, for callers to cite in proofs; a call of it has no effect.
pub fn layering_law<R>()
    ensures { (c : Customized R) (own : Reply Plain) → Fits c own
        → layered c own ≡ stacked c own }
{}

/// Sets copies of all headers of a map, in their order, up to the first that has no room. Where
/// there are none, this takes no memory.
fn place_all(
    headers: &mut HeaderMap<HeaderValue>,
    placing: Placing,
    added: &HeaderMap<HeaderValue>,
) -> Result<(), Fail<HttpError>>
    ensures headers { AllStepTo (place_each placing (pairs added.now) headers.old)
        result headers.new }
    ensures memory { added.now ≡ [] → IsOk result }
{
    if added.is_empty() {
        return Ok(());
    }
    place_each(headers, placing, added)
}

/// Changes the headers of a response: first those that are overridden, then those that are added.
/// Where there are none, this takes no memory.
fn layer_headers(
    headers: &mut HeaderMap<HeaderValue>,
    overrides: &HeaderMap<HeaderValue>,
    appended: &HeaderMap<HeaderValue>,
) -> Result<(), Fail<HttpError>>
    ensures headers { AllStepTo (layer_headers overrides.now appended.now headers.old)
        result headers.new }
    ensures memory { overrides.now ≡ [] → appended.now ≡ [] → IsOk result }
{
    place_all(headers, Placing::Replace, overrides)?;
    place_all(headers, Placing::Append, appended)
}

/// Sets the status of a response, if there is one to set.
fn set_status<B>(reply: &mut HttpResponse<B>, status: Option<StatusCode>)
    ensures { reply.new ≡ with_status status reply.old }
{
    match status {
        Some(status) => *reply.status_mut() = status,
        None => {}
    }
}

impl Layers {
    /// Changes a response: its status, then the headers that are overridden, then those that are
    /// added.
    fn change<B>(&self, reply: &mut HttpResponse<B>) -> Result<(), Fail<HttpError>>
        ensures changes { Changes self.now.status
            (layer_headers self.now.overrides self.now.appended reply.old.head.headers)
            reply.old result reply.new }
        ensures memory { self.now.overrides ≡ [] → self.now.appended ≡ [] → IsOk result }
    {
        set_status(reply, self.status);
        layer_headers(reply.headers_mut(), &self.overrides, &self.appended)
    }
}

/// A response with these layers, or the reply to `MaxSize`.
fn with_layers<B: Drop>(
    alloc: Global,
    own: HttpResponse<B>,
    layers: &Layers,
) -> Result<HttpResponse<EitherBody<B, WholeBody>>, NoMemory>
    ensures value { IfOk result (λ reply. reply ≡ either_reply own layers.now.status
        (layer_headers layers.now.overrides layers.now.appended own.head.headers)) }
    ensures memory { layers.now.overrides ≡ [] → layers.now.appended ≡ [] → IsOk result }
{
    let mut reply = own;
    match layers.change(&mut reply) {
        Ok(()) => Ok(reply.map_into_left_body()),
        Err(Fail::Of(error)) => Ok(refusal(alloc, error)?.map_into_right_body()),
        Err(Fail::NoMemory) => Err(NoMemory),
    }
}

/// The response of the responder, with the status and the headers, or the reply to `MaxSize`.
fn layered<A: App, R: Responder<A>>(
    alloc: Global,
    req: &HttpRequest<A>,
    customized: CustomizeResponder<R>,
) -> Result<HttpResponse<EitherBody<R::Body, WholeBody>>, NoMemory>
    ensures value { IfOk result (λ reply. LayersOwn R.responds customized req.now.request
        (plain_reply (λ body. either_plain R.Body.plain whole_plain body) reply)) }
    ensures memory { customized.overrides ≡ [] → customized.appended ≡ []
        → R.needs_no_memory customized.inner → IsOk result }
{
    let CustomizeResponder {
        responder,
        layers,
        ..
    } = customized;
    let own = responder.respond_to(alloc, req)?;
    with_layers(alloc, own, &layers)
}

/// The reply to an error that was kept.
fn refusal(alloc: Global, error: HttpError) -> Result<HttpResponse<WholeBody>, NoMemory>
    ensures { IfOk result (λ reply. reply ≡ error_reply (fault_of (Http error))) }
{
    HttpResponse::from_error(alloc, Error::from(error))
}

/// The response of the responder, with the status, then the overrides, then the added headers; the
/// reply to the kept error, or to `MaxSize` where the headers have no room for one. A status alone
/// takes no memory beside that of the responder.
impl<A: App, R: Responder<A>> Responder<A> for CustomizeResponder<R> {
    ghost use Rattle.web_build.specs.Customized.{CustomizeResponds, CustomizedNeedsNoMemory};

    type Body = EitherBody<R::Body, WholeBody>;

    ghost responds = { λ c q r. CustomizeResponds R.responds c.error c q r };

    ghost needs_no_memory = { λ c. CustomizedNeedsNoMemory R.needs_no_memory c };

    fn respond_to(
        self,
        alloc: Global,
        req: &HttpRequest<A>,
    ) -> Result<HttpResponse<EitherBody<R::Body, WholeBody>>, NoMemory> {
        match self.error {
            Some(error) => Ok(refusal(alloc, error)?.map_into_right_body()),
            None => layered(alloc, req, self),
        }
    }
}
