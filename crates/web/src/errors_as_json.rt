//! Replies to errors as JSON.
use std::alloc::Global;
use web_reply::{BoxBody, HttpResponse};
use web_request::{App, HttpRequest};
use web_routing::Change;
use web_status::json_error_reply;
use web_texts::{NoMemory, Text};

/// Makes `{"error":TEXT}` of each reply to an error, with the text of the error and the status of
/// the reply. Its headers are dropped, and `content-type` is `application/json`.
///
/// A reply that was not made from an error stays as it is, whatever its status.
#[derive(Drop)]
pub struct ErrorsAsJson;

impl<A: App> Change<A> for ErrorsAsJson {
    ghost use Rattle.std.specs.Prelude.{◌≡◌};
    ghost use Rattle.web.specs.ErrorReplies.{json_of_error};

    ghost changes = { λ c q s r. r ≡ json_of_error s.error s };

    fn change(
        &self,
        alloc: Global,
        _request: &HttpRequest<A>,
        reply: &mut HttpResponse<BoxBody<A::Source>>,
    ) -> Result<(), NoMemory> {
        let Some(cause) = reply.error() else {
            return Ok(());
        };
        let text = Text::from(cause.to_string(alloc)?);
        let json = json_error_reply(alloc, reply.status(), text.as_str())?;
        *reply = json.map_into_boxed_body(alloc)?;
        Ok(())
    }
}
