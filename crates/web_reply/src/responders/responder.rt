//! Types that a handler can return.
ghost use Rattle.std.specs.Prelude.{◌≡◌, IfOk, IsOk, ⊤};
ghost use Rattle.web_request.specs.Request.{Request};
ghost use Rattle.web_reply.specs.ResponseBodies.{Plain};
ghost use Rattle.web_reply.specs.Replies.{Reply, plain_reply};

use crate::body::{EitherBody, MessageBody, WholeBody};
use crate::errors::error::Error;
use crate::response::HttpResponse;
use http::StatusCode;
use std::alloc::Global;
use web_request::{App, HttpRequest};
use web_texts::NoMemory;

/// A type that a handler can return: each of its values becomes a response.
pub trait Responder<A: App>: Sized + Drop {
    type Body: MessageBody<A::Source>;

    /// Whether this value may become this response to this request. The body is seen as a plain
    /// value.
    ghost responds: { Self → Request A.Layer A.Local A.Conn → Reply Plain → Type 0 };

    /// The values that become a response without an allocation.
    ghost needs_no_memory: { Self → Type 0 } = { λ _. ⊥ };

    /// The response of this value.
    fn respond_to(
        self,
        alloc: Global,
        req: &HttpRequest<A>,
    ) -> Result<HttpResponse<Self::Body>, NoMemory>
        ensures responds { IfOk result (λ reply.
            responds self req.now.request (plain_reply Self.Body.plain reply)) }
        ensures memory { needs_no_memory self → IsOk result };
}

/// A response is its own response.
impl<A: App, B: MessageBody<A::Source>> Responder<A> for HttpResponse<B> {
    type Body = B;

    ghost responds = { λ v q r. r ≡ plain_reply B.plain v };

    ghost needs_no_memory = { λ _. ⊤ };

    fn respond_to(self, _alloc: Global, _req: &HttpRequest<A>) -> Result<HttpResponse<B>, NoMemory>
        ensures value { IfOk result (λ reply. reply ≡ self) }
        ensures memory { IsOk result }
    {
        Ok(self)
    }
}

/// `Some` becomes the response of its value. `None` becomes an empty 404, and takes no memory.
impl<A: App, R: Responder<A>> Responder<A> for Option<R> {
    ghost use Rattle.std.specs.Prelude.{MatchOption};
    ghost use Rattle.web_reply.specs.Responders.{OptionResponds};

    type Body = EitherBody<R::Body, WholeBody>;

    ghost responds = { λ v q r. OptionResponds R.responds v q r };

    ghost needs_no_memory = { λ v. MatchOption v ⊤ R.needs_no_memory };

    fn respond_to(
        self,
        alloc: Global,
        req: &HttpRequest<A>,
    ) -> Result<HttpResponse<EitherBody<R::Body, WholeBody>>, NoMemory> {
        match self {
            Some(value) => Ok(value.respond_to(alloc, req)?.map_into_left_body()),
            None => Ok(HttpResponse::new(alloc, StatusCode::NOT_FOUND).map_into_right_body()),
        }
    }
}

/// `Ok` becomes the response of its value, `Err` the reply to the error.
impl<A: App, R: Responder<A>, E: Into<Error> + Drop> Responder<A> for Result<R, E> {
    ghost use Rattle.std.specs.Prelude.{IsOkAnd};
    ghost use Rattle.web_reply.specs.Responders.{ResultResponds};

    type Body = EitherBody<R::Body, WholeBody>;

    ghost responds = { λ v q r. ResultResponds R.responds E.converts v q r };

    ghost needs_no_memory = { λ v. IsOkAnd v R.needs_no_memory };

    fn respond_to(
        self,
        alloc: Global,
        req: &HttpRequest<A>,
    ) -> Result<HttpResponse<EitherBody<R::Body, WholeBody>>, NoMemory> {
        match self {
            Ok(value) => Ok(value.respond_to(alloc, req)?.map_into_left_body()),
            Err(error) => Ok(HttpResponse::from_error(alloc, error.into())?.map_into_right_body()),
        }
    }
}
