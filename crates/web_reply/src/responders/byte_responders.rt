//! Byte types as responders: 200 with the bytes as `application/octet-stream`, uncopied.
ghost use Rattle.std.specs.Prelude.{◌≡◌, IfOk};
ghost use Rattle.web_reply.specs.ResponseBodies.{whole_plain};
ghost use Rattle.web_reply.specs.Replies.{plain_reply};
ghost use Rattle.web_reply.specs.Responders.{bytes_reply};

use crate::body::WholeBody;
use crate::responders::responder::Responder;
use crate::response::HttpResponse;
use crate::typed::{OCTET_STREAM, typed};
use bytes::{Bytes, BytesMut};
use http::StatusCode;
use std::alloc::Global;
use web_request::{App, HttpRequest};
use web_texts::NoMemory;

/// 200 with these bytes as `application/octet-stream`.
fn bytes(alloc: Global, bytes: Bytes) -> Result<HttpResponse<WholeBody>, NoMemory>
    ensures { IfOk result (λ reply. plain_reply whole_plain reply ≡ bytes_reply bytes) }
{
    typed(alloc, StatusCode::OK, OCTET_STREAM, bytes)
}

impl<A: App> Responder<A> for &'static [u8] {
    type Body = WholeBody;

    ghost responds = { λ s q r. r ≡ bytes_reply s.now };

    fn respond_to(
        self,
        alloc: Global,
        _req: &HttpRequest<A>,
    ) -> Result<HttpResponse<WholeBody>, NoMemory> {
        bytes(alloc, Bytes::from_static(self))
    }
}

impl<A: App> Responder<A> for Vec<u8> {
    type Body = WholeBody;

    ghost responds = { λ v q r. r ≡ bytes_reply v.items };

    fn respond_to(
        self,
        alloc: Global,
        _req: &HttpRequest<A>,
    ) -> Result<HttpResponse<WholeBody>, NoMemory> {
        bytes(alloc, Bytes::from_vec(self)?)
    }
}

impl<A: App> Responder<A> for Bytes {
    type Body = WholeBody;

    ghost responds = { λ b q r. r ≡ bytes_reply b };

    fn respond_to(
        self,
        alloc: Global,
        _req: &HttpRequest<A>,
    ) -> Result<HttpResponse<WholeBody>, NoMemory> {
        bytes(alloc, self)
    }
}

impl<A: App> Responder<A> for BytesMut {
    type Body = WholeBody;

    ghost responds = { λ b q r. r ≡ bytes_reply b.items };

    fn respond_to(
        self,
        alloc: Global,
        _req: &HttpRequest<A>,
    ) -> Result<HttpResponse<WholeBody>, NoMemory> {
        bytes(alloc, self.freeze()?)
    }
}
