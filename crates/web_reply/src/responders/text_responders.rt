//! Text types as responders: 200 with the text as `text/plain; charset=utf-8`. Only text that is
//! borrowed for less than `'static` is copied.
ghost use Rattle.std.specs.Prelude.{◌≡◌, IfOk};
ghost use Rattle.web_reply.specs.ResponseBodies.{whole_plain};
ghost use Rattle.web_reply.specs.Replies.{plain_reply};
ghost use Rattle.web_reply.specs.Responders.{text_reply};

use crate::body::WholeBody;
use crate::byte_str::ByteStr;
use crate::cow_str::CowStr;
use crate::responders::responder::Responder;
use crate::response::HttpResponse;
use crate::typed::{PLAIN_TEXT, typed};
use bytes::Bytes;
use http::StatusCode;
use std::alloc::Global;
use web_request::{App, HttpRequest};
use web_texts::{NoMemory, Text};

/// 200 with these bytes as `text/plain; charset=utf-8`.
fn text(alloc: Global, bytes: Bytes) -> Result<HttpResponse<WholeBody>, NoMemory>
    ensures { IfOk result (λ reply. plain_reply whole_plain reply ≡ text_reply bytes) }
{
    typed(alloc, StatusCode::OK, PLAIN_TEXT, bytes)
}

impl<A: App> Responder<A> for &'static str {
    type Body = WholeBody;

    ghost responds = { λ s q r. r ≡ text_reply s.now };

    fn respond_to(
        self,
        alloc: Global,
        _req: &HttpRequest<A>,
    ) -> Result<HttpResponse<WholeBody>, NoMemory> {
        text(alloc, Bytes::from_static(self.as_bytes()))
    }
}

impl<A: App> Responder<A> for &String {
    ghost use Rattle.std.specs.Prelude.{string_bytes};

    type Body = WholeBody;

    ghost responds = { λ s q r. r ≡ text_reply (string_bytes s.now) };

    fn respond_to(
        self,
        alloc: Global,
        _req: &HttpRequest<A>,
    ) -> Result<HttpResponse<WholeBody>, NoMemory> {
        text(alloc, Bytes::copy_from_slice(alloc, self.as_bytes())?)
    }
}

impl<A: App> Responder<A> for String {
    ghost use Rattle.std.specs.Prelude.{string_bytes};

    type Body = WholeBody;

    ghost responds = { λ s q r. r ≡ text_reply (string_bytes s) };

    fn respond_to(
        self,
        alloc: Global,
        _req: &HttpRequest<A>,
    ) -> Result<HttpResponse<WholeBody>, NoMemory> {
        text(alloc, Bytes::from_string(self)?)
    }
}

impl<A: App> Responder<A> for Text {
    type Body = WholeBody;

    ghost responds = { λ t q r. r ≡ text_reply t };

    fn respond_to(
        self,
        alloc: Global,
        _req: &HttpRequest<A>,
    ) -> Result<HttpResponse<WholeBody>, NoMemory> {
        text(alloc, Bytes::from_string(self.into_string())?)
    }
}

impl<A: App> Responder<A> for CowStr<'_> {
    ghost use Rattle.web_reply.specs.CowTexts.{cow_bytes};

    type Body = WholeBody;

    ghost responds = { λ s q r. r ≡ text_reply (cow_bytes s) };

    fn respond_to(
        self,
        alloc: Global,
        _req: &HttpRequest<A>,
    ) -> Result<HttpResponse<WholeBody>, NoMemory> {
        match self {
            CowStr::Borrowed(borrowed) => {
                text(alloc, Bytes::copy_from_slice(alloc, borrowed.as_bytes())?)
            }
            CowStr::Owned(owned) => text(alloc, Bytes::from_string(owned.into_string())?),
        }
    }
}

impl<A: App> Responder<A> for ByteStr {
    type Body = WholeBody;

    ghost responds = { λ s q r. r ≡ text_reply s };

    fn respond_to(
        self,
        alloc: Global,
        _req: &HttpRequest<A>,
    ) -> Result<HttpResponse<WholeBody>, NoMemory> {
        text(alloc, self.into_bytes())
    }
}
