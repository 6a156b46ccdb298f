//! The request of an argument whose refusal a handler answers.
ghost use Rattle.std.specs.Prelude.{◌≡◌, IfOk, IsOk, None, option_copied};
ghost use Rattle.web_extract_body.specs.HandledBodies.{IsKept};

use std::alloc::Global;
use web_request::{App, HttpRequest, NoMemory};

/// The request again, where there is a handler. Without one nothing is allocated.
pub fn kept_request<A: App, H>(
    alloc: Global,
    req: &HttpRequest<A>,
    handler: Option<&H>,
) -> Result<Option<HttpRequest<A>>, NoMemory>
    ensures kept { IfOk result (λ kept.
        IsKept (option_copied handler.entry) req.now.request kept) }
    ensures memory { option_copied handler.entry ≡ None → IsOk result }
{
    match handler {
        Some(_) => Ok(Some(req.duplicate(alloc)?)),
        None => Ok(None),
    }
}
