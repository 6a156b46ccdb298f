//! Replies without content.

use crate::body::WholeBody;
use crate::errors::error::Error;
use crate::responders::responder::Responder;
use crate::response::HttpResponse;
use http::StatusCode;
use std::alloc::Global;
use web_request::{App, HttpRequest};
use web_texts::NoMemory;

/// The result of an action that has nothing to return. `Ok` becomes an empty 204 (RFC 9110, section
/// 15.3.5), and takes no memory; `Err` becomes the reply to the error.
#[derive(Debug, Drop)]
pub struct Done<E>(pub Result<(), E>);

impl<A: App, E: Into<Error> + Drop> Responder<A> for Done<E> {
    ghost use Rattle.std.specs.Prelude.{IsOk};
    ghost use Rattle.web_reply.specs.Responders.{DoneResponds};

    type Body = WholeBody;

    ghost responds = { λ v q r. DoneResponds E.converts v.0 r };

    ghost needs_no_memory = { λ v. IsOk v.0 };

    fn respond_to(
        self,
        alloc: Global,
        _req: &HttpRequest<A>,
    ) -> Result<HttpResponse<WholeBody>, NoMemory> {
        match self.0 {
            Ok(()) => Ok(HttpResponse::new(alloc, StatusCode::NO_CONTENT)),
            Err(error) => HttpResponse::from_error(alloc, error.into()),
        }
    }
}
