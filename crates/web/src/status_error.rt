//! Errors of an application.
ghost use Rattle.web.specs.ErrorReplies.{Replied};

use http::StatusCode;
use std::alloc::Global;
use std::fmt;
use web_reply::{Error, InternalError};
use web_texts::Fail;

/// An error of an application. What it prints is the text of its reply.
pub trait StatusError: fmt::Display + Drop {
    ghost use Rattle.std.specs.Prelude.{ℕ, ⊤};

    /// Whether its reply may have this status. By default it may have any.
    ghost may_have: { Self → ℕ → Type 0 } = { λ _ _. ⊤ };

    /// The status of its reply.
    fn status(&self) -> StatusCode
        ensures { may_have self.now result };
}

/// The result of a handler: in place of an error of the application one that is answered, with its
/// status and with what it prints as `text/plain; charset=utf-8`.
pub fn replied<T: Drop, E: StatusError>(
    alloc: Global,
    answer: Result<T, Fail<E>>,
) -> Result<T, Fail<Error>>
    ensures { Replied E.output E.may_have answer result }
{
    match answer {
        Ok(value) => Ok(value),
        Err(Fail::NoMemory) => Err(Fail::NoMemory),
        Err(Fail::Of(error)) => {
            let status = error.status();
            match InternalError::new(error, status).into_error(alloc) {
                Ok(error) => Err(Fail::Of(error)),
                Err(_) => Err(Fail::NoMemory),
            }
        }
    }
}
