//! Refusals with the status 400.
ghost use Rattle.std.specs.Prelude.{◌≡◌, IfOk};
ghost use Rattle.web_extract.specs.BodyArguments.{bad_request};

use http::StatusCode;
use std::alloc::Global;
use web_reply::{Cause, Error};
use web_request::NoMemory;
use web_texts::Text;

/// The error of status 400 with this text.
pub(crate) fn bad_request(alloc: Global, text: &str) -> Result<Error, NoMemory>
    ensures { IfOk result (λ e. e ≡ bad_request text.now) }
{
    Ok(Error::from(Cause::Custom {
        status: StatusCode::BAD_REQUEST,
        text: Text::of(alloc, text)?,
    }))
}
