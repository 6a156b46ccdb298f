//! A value as a JSON response.
use crate::json_value::Json;
use crate::typed_response::text_response;
use std::alloc::Global;
use web_body::JsonPayloadError;
use web_codec::{WriteJson, write_value};
use web_reply::{Error, HttpResponse, Responder, WholeBody};
use web_request::{App, HttpRequest, NoMemory};
use web_texts::{APPLICATION_JSON, Fail};

/// 200 with the JSON text of the value as `application/json`. A value that its writer refuses, or
/// that is written with a float, becomes the reply to `JsonPayloadError::Serialize`.
impl<A: App, T: WriteJson + Drop> Responder<A> for Json<T> {
    ghost use Rattle.web_extract_body.specs.ValueReplies.{JsonResponds};

    type Body = WholeBody;

    ghost responds = { λ json q r. JsonResponds (T.writes json.0) r };

    fn respond_to(
        self,
        alloc: Global,
        _req: &HttpRequest<A>,
    ) -> Result<HttpResponse<WholeBody>, NoMemory> {
        match write_value(alloc, &self.0) {
            Ok(text) => text_response(alloc, APPLICATION_JSON, text),
            Err(Fail::Of(fault)) => {
                let error = Error::from(JsonPayloadError::Serialize(fault));
                HttpResponse::from_error(alloc, error)
            }
            Err(Fail::NoMemory) => Err(NoMemory),
        }
    }
}
