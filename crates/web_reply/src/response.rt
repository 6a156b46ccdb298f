//! Responses.
ghost use Rattle.std.specs.Prelude.{◌≡◌, ◌↔◌, IsTrue, IsOk, IfOk, None, Some};
ghost use Rattle.std.specs.Option.{option_copied, option_map};
ghost use Rattle.std.specs.Borrow.{sem};
ghost use Rattle.web_reply.specs.ResponseBodies.{box_plain};
ghost use Rattle.web_reply.specs.ResponseHeads.{KeepsAlive, Upgrades};
ghost use Rattle.web_reply.specs.LentParts.{lends_head, lends_headers, lends_status};
ghost use Rattle.web_reply.specs.BodyMaps.{MapsBody};
ghost use Rattle.web_reply.specs.Replies.{bare_reply, error_reply, plain_reply, with_body};

use crate::body::{BoxBody, EitherBody, MessageBody, WholeBody};
use crate::errors::cause::Cause;
use crate::errors::error::Error;
use crate::head::{ConnectionType, ResponseHead};
use http::{StatusCode, Version};
use http_header::{HeaderMap, HeaderValue};
use std::alloc::Global;
use std::marker::Model;
use std::rc::Rc;
use web_request::Source;
use web_texts::{Duplicate, NoMemory};

/// A response: a head, a body and, for the reply to an error, the cause.
///
/// The cause is in an `Rc`, since few responses have one, and copies share it.
#[derive(Drop)]
pub struct HttpResponse<B> {
    head: ResponseHead,
    body: B,
    error: Option<Rc<Cause>>,
}

impl<B> Model for HttpResponse<B> {
    ghost use Rattle.std.specs.Option.{option_map};
    ghost use Rattle.web_reply.specs.Replies.{Reply};

    ghost Value = { Reply B };

    ghost view = { λ r. record {
      head = r.head;
      body = r.body;
      error = option_map (λ cause. cause.value) r.error;
    } };
}

/// The same cause, shared.
fn copy_cause(cause: &Option<Rc<Cause>>) -> Result<Option<Rc<Cause>>, NoMemory>
    ensures { IfOk result (λ copy. option_map (λ c. c.value) copy
        ≡ option_map (λ c. c.value) cause.now) }
{
    match cause {
        Some(cause) => Ok(Some(cause.clone()?)),
        None => Ok(None),
    }
}

impl HttpResponse<WholeBody> {
    /// An HTTP/1.1 response with this status, no header and an empty body.
    pub fn new(alloc: Global, status: StatusCode) -> HttpResponse<WholeBody>
        ensures { result ≡ bare_reply status WholeBody.Empty }
    {
        HttpResponse::with_body(alloc, status, WholeBody::Empty)
    }

    /// The reply to an error: the status of its cause, and its text as `text/plain; charset=utf-8`.
    /// The response keeps the cause.
    pub fn from_error(alloc: Global, error: Error) -> Result<HttpResponse<WholeBody>, NoMemory>
        ensures { IfOk result (λ reply. reply ≡ error_reply error) }
    {
        let mut error = error;
        let HttpResponse { head, body, .. } = error.error_response(alloc)?;
        Ok(HttpResponse {
            head,
            body,
            error: Some(Rc::new(alloc, error.into_cause())?),
        })
    }

    /// A copy of the response, which shares the cause.
    pub(crate) fn copy(&self, alloc: Global) -> Result<HttpResponse<WholeBody>, NoMemory>
        ensures { IfOk result (λ copy. copy ≡ self.now) }
    {
        let error = copy_cause(&self.error)?;
        let body = self.body.duplicate(alloc)?;
        Ok(HttpResponse {
            head: self.head.duplicate(alloc)?,
            body,
            error,
        })
    }
}

impl<B> HttpResponse<B> {
    /// An HTTP/1.1 response with this status and body, and no header.
    pub fn with_body(alloc: Global, status: StatusCode, body: B) -> HttpResponse<B>
        ensures { result ≡ bare_reply status body }
    {
        HttpResponse {
            head: ResponseHead {
                version: Version::HTTP_11,
                status,
                headers: HeaderMap::empty(alloc),
                reason: None,
                connection: None,
                no_chunking: false,
            },
            body,
            error: None,
        }
    }

    pub fn head(&self) -> &ResponseHead
        ensures { result.now ≡ self.now.head }
    {
        &self.head
    }

    pub fn head_mut(&mut self) -> &mut ResponseHead
        ensures* writes_back { sem 𝓛 (lends_head B.row self.entry result) }
        ensures value { result.now ≡ self.old.head }
    {
        &mut self.head
    }

    pub fn status(&self) -> StatusCode
        ensures { result ≡ self.now.head.status }
    {
        self.head.status
    }

    pub fn status_mut(&mut self) -> &mut StatusCode
        ensures* writes_back { sem 𝓛 (lends_status B.row self.entry result) }
        ensures value { result.now ≡ self.old.head.status }
    {
        let head = &mut self.head;
        &mut head.status
    }

    pub fn headers(&self) -> &HeaderMap<HeaderValue>
        ensures { result.now ≡ self.now.head.headers }
    {
        &self.head.headers
    }

    pub fn headers_mut(&mut self) -> &mut HeaderMap<HeaderValue>
        ensures* writes_back { sem 𝓛 (lends_headers B.row self.entry result) }
        ensures value { result.now ≡ self.old.head.headers }
    {
        let head = &mut self.head;
        &mut head.headers
    }

    pub fn body(&self) -> &B
        ensures { result.now ≡ self.now.body }
    {
        &self.body
    }

    /// The cause, if the response was made from an error.
    pub fn error(&self) -> Option<&Cause>
        ensures { option_copied result ≡ self.now.error }
    {
        match &self.error {
            Some(cause) => Some(cause.as_ref()),
            None => None,
        }
    }

    /// Whether the connection is upgraded to another protocol (RFC 9110, section 7.8).
    pub fn upgrade(&self) -> bool
        ensures { IsTrue result ↔ Upgrades self.now.head }
    {
        matches!(self.head.connection, Some(ConnectionType::Upgrade))
    }

    /// Whether the connection is kept open. Where the head leaves it to the version, only HTTP/1.1
    /// keeps it open (RFC 9112, section 9.3).
    pub fn keep_alive(&self) -> bool
        ensures { IsTrue result ↔ KeepsAlive self.now.head }
    {
        match self.head.connection {
            Some(connection) => matches!(connection, ConnectionType::KeepAlive),
            None => self.head.version == Version::HTTP_11,
        }
    }

    /// The same response with this body in place of its own.
    pub fn set_body<B2>(self, body: B2) -> HttpResponse<B2>
    where
        B: Drop,
        ensures { result ≡ with_body body self }
    {
        HttpResponse {
            head: self.head,
            body,
            error: self.error,
        }
    }

    /// Splits the response into its head, with the empty body `()`, and its body.
    pub fn into_parts(self) -> (HttpResponse<()>, B)
        ensures rest { result.0 ≡ with_body tt self }
        ensures body { result.1 ≡ self.body }
    {
        let HttpResponse { head, body, error } = self;
        let rest = HttpResponse {
            head,
            body: (),
            error,
        };
        (rest, body)
    }

    /// The same response with the empty body `()`.
    pub fn drop_body(self) -> HttpResponse<()>
    where
        B: Drop,
        ensures { result ≡ with_body tt self }
    {
        self.set_body(())
    }

    /// Passes the head and the body to `f`. The result has the body that `f` returns, and the head
    /// as `f` leaves it.
    pub fn map_body<F: FnOnce(&mut ResponseHead, B) -> B2, B2>(self, f: F) -> HttpResponse<B2>
        requires callable { F.IsAlwaysCallable f }
        ensures parts { MapsBody F.FnOnce f self.head self.body result.head result.body }
        ensures error { result.error ≡ self.error }
    {
        let HttpResponse {
            mut head,
            body,
            error,
        } = self;
        let body = f(&mut head, body);
        HttpResponse { head, body, error }
    }

    /// The same response with its body as `EitherBody::Left`.
    pub fn map_into_left_body<R>(self) -> HttpResponse<EitherBody<B, R>>
        ensures { result ≡ with_body (EitherBody.Left self.body) self }
    {
        HttpResponse {
            head: self.head,
            body: EitherBody::Left(self.body),
            error: self.error,
        }
    }

    /// The same response with its body as `EitherBody::Right`.
    pub fn map_into_right_body<L>(self) -> HttpResponse<EitherBody<L, B>>
        ensures { result ≡ with_body (EitherBody.Right self.body) self }
    {
        HttpResponse {
            head: self.head,
            body: EitherBody::Right(self.body),
            error: self.error,
        }
    }

    /// The same response with its body in the common form.
    pub fn map_into_boxed_body<S: Source>(
        self,
        alloc: Global,
    ) -> Result<HttpResponse<BoxBody<S>>, NoMemory>
    where
        B: MessageBody<S>,
        ensures value { IfOk result (λ boxed.
            plain_reply (λ b. box_plain S.feed b) boxed ≡ plain_reply B.plain self) }
        ensures memory { B.needs_no_memory self.body → IsOk result }
    {
        let HttpResponse { head, body, error } = self;
        Ok(HttpResponse {
            head,
            body: body.boxed(alloc)?,
            error,
        })
    }

    pub fn into_body(self) -> B
        ensures { result ≡ self.body }
    {
        self.body
    }
}
