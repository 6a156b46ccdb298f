//! Values with an explicit status.

use crate::responders::responder::Responder;
use crate::response::HttpResponse;
use http::StatusCode;
use std::alloc::Global;
use web_request::{App, HttpRequest};
use web_texts::NoMemory;

/// The response of the value, with this status in place of its own.
impl<A: App, R: Responder<A>> Responder<A> for (R, StatusCode) {
    ghost use Rattle.web_reply.specs.Responders.{StatusResponds};

    type Body = R::Body;

    ghost responds = { λ v q r. StatusResponds R.responds v.0 v.1 q r };

    ghost needs_no_memory = { λ v. R.needs_no_memory v.0 };

    fn respond_to(
        self,
        alloc: Global,
        req: &HttpRequest<A>,
    ) -> Result<HttpResponse<R::Body>, NoMemory> {
        let (value, status) = self;
        let mut reply = value.respond_to(alloc, req)?;
        *reply.status_mut() = status;
        Ok(reply)
    }
}
