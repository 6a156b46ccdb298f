//! Errors of any type that prints.
ghost use Rattle.std.specs.Prelude.{◌≡◌, IfOk, OnErr, OnOk};
ghost use Rattle.web_reply.specs.InternalErrors.{BecomesFault, IsCustom, new_internal};
ghost use Rattle.web_reply.specs.InternalErrors.{prepared_internal};

use crate::body::WholeBody;
use crate::errors::cause::Cause;
use crate::errors::error::{Error, ResponseError};
use crate::errors::prepared::Prepared;
use crate::responders::responder::Responder;
use crate::response::HttpResponse;
use http::StatusCode;
use std::alloc::Global;
use std::fmt;
use std::fmt::Display;
use std::marker::Model;
use web_request::{App, HttpRequest};
use web_texts::{NoMemory, Text};

/// An error of any type that prints, with the status of its reply or with the reply itself.
///
/// A reply that was prepared is given once; after that the reply is an empty 500.
#[derive(Debug, Drop)]
pub struct InternalError<T> {
    cause: T,
    status: StatusCode,
    prepared: Prepared<HttpResponse<WholeBody>>,
}

impl<T> Model for InternalError<T> {
    ghost use Rattle.web_reply.specs.InternalErrors.{Internal};

    ghost Value = { Internal T };

    ghost view = { λ e. record {
      cause = e.cause;
      status = e.status;
      prepared = e.prepared;
    } };
}

/// The cause of this status, with what the value prints.
fn printed_cause<T: Display>(
    alloc: Global,
    status: StatusCode,
    value: &T,
) -> Result<Cause, NoMemory>
    ensures { IfOk result (λ cause. IsCustom (T.output value.now) status cause) }
{
    let text = Text::from(value.to_string(alloc)?);
    Ok(Cause::Custom { status, text })
}

impl<T> InternalError<T> {
    /// The reply has this status, and what the value prints as `text/plain; charset=utf-8`.
    pub fn new(cause: T, status: StatusCode) -> InternalError<T>
        ensures { result ≡ new_internal cause status }
    {
        InternalError {
            cause,
            status,
            prepared: Prepared::Never,
        }
    }

    /// The reply is this one.
    pub fn from_response(cause: T, response: HttpResponse<WholeBody>) -> InternalError<T>
        ensures { result ≡ prepared_internal cause response }
    {
        InternalError {
            cause,
            status: response.status(),
            prepared: Prepared::Held(response),
        }
    }
}

impl<T: Display + Drop> InternalError<T> {
    /// The error with this reply. Its cause is `Custom`, with the status and what the value prints.
    pub fn into_error(self, alloc: Global) -> Result<Error, NoMemory>
        ensures { IfOk result (λ error. BecomesFault T.output self error) }
    {
        let InternalError {
            cause,
            status,
            prepared,
        } = self;
        let prepared = prepared.boxed(alloc)?;
        let cause = printed_cause(alloc, status, &cause)?;
        Ok(Error::with_prepared(cause, prepared))
    }
}

impl<T: Display + Drop> ResponseError for InternalError<T> {
    ghost use Rattle.web_reply.specs.InternalErrors.{InternalReplies, after_internal};
    ghost use Rattle.web_reply.specs.InternalErrors.{internal_status};

    ghost status = { internal_status };

    ghost replies = { InternalReplies T.output };

    ghost after = { after_internal };

    fn status_code(&self) -> StatusCode {
        match &self.prepared {
            Prepared::Never | Prepared::Held(_) => self.status,
            Prepared::Given => StatusCode::INTERNAL_SERVER_ERROR,
        }
    }

    fn error_response(&mut self, alloc: Global) -> Result<HttpResponse<WholeBody>, NoMemory> {
        match self.prepared.give() {
            Prepared::Never => printed_cause(alloc, self.status, &self.cause)?.reply(alloc),
            Prepared::Held(reply) => Ok(reply),
            Prepared::Given => Ok(HttpResponse::new(alloc, StatusCode::INTERNAL_SERVER_ERROR)),
        }
    }
}

impl<T: Display> fmt::Display for InternalError<T> {
    ghost output = { λ e. T.output e.cause };

    fn fmt<W: fmt::Write>(&self, f: &mut fmt::Formatter<W>) -> fmt::Result {
        self.cause.fmt(f)
    }
}

/// The reply to the error that it becomes.
impl<A: App, T: Display + Drop> Responder<A> for InternalError<T> {
    ghost use Rattle.web_reply.specs.InternalErrors.{InternalResponds};

    type Body = WholeBody;

    ghost responds = { λ v q r. InternalResponds T.output v r };

    fn respond_to(
        self,
        alloc: Global,
        _req: &HttpRequest<A>,
    ) -> Result<HttpResponse<WholeBody>, NoMemory> {
        HttpResponse::from_error(alloc, self.into_error(alloc)?)
    }
}
