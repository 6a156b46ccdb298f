//! Refusals with the status 500.
ghost use Rattle.std.specs.Prelude.{◌≡◌, IfOk};
ghost use Rattle.web_extract.specs.DataArguments.{internal_error};

use http::StatusCode;
use std::alloc::Global;
use web_reply::{Cause, Error};
use web_request::NoMemory;
use web_texts::Text;

/// The error of status 500 with this text.
pub(crate) fn internal_error(alloc: Global, text: &str) -> Result<Error, NoMemory>
    ensures { IfOk result (λ e. e ≡ internal_error text.now) }
{
    Ok(Error::from(Cause::Custom {
        status: StatusCode::INTERNAL_SERVER_ERROR,
        text: Text::of(alloc, text)?,
    }))
}
