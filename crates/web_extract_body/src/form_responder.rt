//! A value as a form in a response.
use crate::form_value::Form;
use crate::typed_response::text_response;
use std::alloc::Global;
use web_body::UrlencodedError;
use web_codec::{WritePairs, write_form};
use web_reply::{Error, HttpResponse, Responder, WholeBody};
use web_request::{App, HttpRequest, NoMemory};
use web_texts::{APPLICATION_WWW_FORM_URLENCODED, Fail};

/// 200 with the form of the value as `application/x-www-form-urlencoded`. A value that its writer
/// refuses becomes the reply to `UrlencodedError::Serialize`.
impl<A: App, T: WritePairs + Drop> Responder<A> for Form<T> {
    ghost use Rattle.web_extract_body.specs.ValueReplies.{FormResponds};

    type Body = WholeBody;

    ghost responds = { λ form q r. FormResponds (T.writes_pairs form.0) r };

    fn respond_to(
        self,
        alloc: Global,
        _req: &HttpRequest<A>,
    ) -> Result<HttpResponse<WholeBody>, NoMemory> {
        match write_form(alloc, &self.0) {
            Ok(text) => text_response(alloc, APPLICATION_WWW_FORM_URLENCODED, text),
            Err(Fail::Of(fault)) => {
                let error = Error::from(UrlencodedError::Serialize(fault));
                HttpResponse::from_error(alloc, error)
            }
            Err(Fail::NoMemory) => Err(NoMemory),
        }
    }
}
