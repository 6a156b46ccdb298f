//! Refusals of arguments as JSON: `{"error":TEXT}`.
ghost use Rattle.std.specs.Prelude.{◌≡◌, ◌∷◌, [], IfOk, OnOk, codes};
ghost use Rattle.http_header.specs.FieldValue.{plain_value};
ghost use Rattle.serde_json.specs.View.{view};
ghost use Rattle.web_reply.specs.Causes.{cause_text};
ghost use Rattle.web_status.specs.JsonErrors.{
  body_error,
  error_data,
  error_json,
  json_error,
  json_error_reply,
  json_error_with,
};

use bytes::Bytes;
use http::StatusCode;
use http_header::{CONTENT_TYPE, HeaderMap, HeaderMapError, HeaderValue};
use serde_json::{Value, json};
use std::alloc::Global;
use web_body::{JsonPayloadError, PathError, QueryPayloadError, UrlencodedError};
use web_codec::JsonFault;
use web_extract::Refuse;
use web_reply::{
    Cause, Error, HttpResponse, InternalError, NoMemory, ResponseError, Text, WholeBody,
};
use web_request::RequestHead;

fn put_type(headers: &mut HeaderMap<HeaderValue>) -> Result<(), HeaderMapError>
    requires none { headers.old ≡ [] }
    ensures { OnOk result
        (headers.new ≡ (codes "content-type", plain_value (codes "application/json") ∷ []) ∷ []) }
{
    headers.reserve(1)?;
    headers.insert(CONTENT_TYPE, HeaderValue::from_static("application/json"))?;
    Ok(())
}

/// An object whose one member is `error`.
fn error_value(alloc: Global, text: &str) -> Result<Value, NoMemory>
    ensures { IfOk result (λ v. view v ≡ error_data text.now) }
{
    Ok(json!(in alloc; {"error": text})?)
}

/// The JSON of a text.
fn error_json(alloc: Global, text: &str) -> Result<Text, NoMemory>
    ensures { IfOk result (λ t. t ≡ error_json text.now) }
{
    let value = error_value(alloc, text)?;
    Ok(Text::from(value.to_string(alloc)?))
}

/// The reply of this status whose body is `{"error":TEXT}` with this text, as `application/json`.
/// Returns `NoMemory` where allocation failed.
pub fn json_error_reply(
    alloc: Global,
    status: StatusCode,
    text: &str,
) -> Result<HttpResponse<WholeBody>, NoMemory>
    ensures { IfOk result (λ reply. reply ≡ json_error_reply status text.now) }
{
    let bytes = Bytes::from_string(error_json(alloc, text)?.into_string())?;
    let mut reply = HttpResponse::with_body(alloc, status, WholeBody::Bytes(bytes));
    match put_type(reply.headers_mut()) {
        Ok(()) => Ok(reply),
        Err(_) => Err(NoMemory),
    }
}

/// An error of this status, whose reply is the text of the cause as JSON.
fn json_error_with(alloc: Global, status: StatusCode, cause: Cause) -> Result<Error, NoMemory>
    ensures { IfOk result (λ e. e ≡ json_error_with status (cause_text cause)) }
{
    let text = Text::from(cause.to_string(alloc)?);
    let reply = json_error_reply(alloc, status, text.as_str())?;
    InternalError::from_response(text, reply).into_error(alloc)
}

/// An error of the status and the text of a cause, whose reply is that text as JSON. Returns
/// `NoMemory` where allocation failed.
pub fn json_error(alloc: Global, cause: Cause) -> Result<Error, NoMemory>
    ensures { IfOk result (λ e. e ≡ json_error cause) }
{
    let status = cause.status_code();
    json_error_with(alloc, status, cause)
}

/// A handler of refusals for `JsonConfig`, `FormConfig`, `PathConfig` and `QueryConfig`: each has
/// the status that it has without a handler, and its text as JSON.
#[derive(Drop)]
pub struct JsonErrors;

impl Refuse<JsonPayloadError> for JsonErrors {
    ghost use Rattle.std.specs.Prelude.{◌≡◌};
    ghost use Rattle.web_reply.specs.declared.errors.cause.Cause.TheVariants.{Json};
    ghost use Rattle.web_status.specs.JsonErrors.{json_error};

    ghost refuses = { λ h e head x. x ≡ json_error (Json e) };

    fn refuse(
        &self,
        alloc: Global,
        fault: JsonPayloadError,
        _head: &RequestHead,
    ) -> Result<Error, NoMemory> {
        json_error(alloc, Cause::Json(fault))
    }
}

impl Refuse<UrlencodedError> for JsonErrors {
    ghost use Rattle.std.specs.Prelude.{◌≡◌};
    ghost use Rattle.web_reply.specs.declared.errors.cause.Cause.TheVariants.{Form};
    ghost use Rattle.web_status.specs.JsonErrors.{json_error};

    ghost refuses = { λ h e head x. x ≡ json_error (Form e) };

    fn refuse(
        &self,
        alloc: Global,
        fault: UrlencodedError,
        _head: &RequestHead,
    ) -> Result<Error, NoMemory> {
        json_error(alloc, Cause::Form(fault))
    }
}

/// 404 with the reader's text, as without a handler.
impl Refuse<PathError> for JsonErrors {
    ghost use Rattle.std.specs.Prelude.{◌≡◌};
    ghost use Rattle.web_reply.specs.declared.errors.cause.Cause.TheVariants.{Custom};
    ghost use Rattle.web_status.specs.JsonErrors.{json_error, path_text};

    ghost refuses = { λ h e head x. x ≡ json_error (Custom 404 (path_text e)) };

    fn refuse(
        &self,
        alloc: Global,
        fault: PathError,
        _head: &RequestHead,
    ) -> Result<Error, NoMemory> {
        let PathError::Deserialize(fault) = fault;
        let status = StatusCode::NOT_FOUND;
        json_error(
            alloc,
            Cause::Custom {
                status,
                text: fault.text,
            },
        )
    }
}

impl Refuse<QueryPayloadError> for JsonErrors {
    ghost use Rattle.std.specs.Prelude.{◌≡◌};
    ghost use Rattle.web_reply.specs.declared.errors.cause.Cause.TheVariants.{Query};
    ghost use Rattle.web_status.specs.JsonErrors.{json_error};

    ghost refuses = { λ h e head x. x ≡ json_error (Query e) };

    fn refuse(
        &self,
        alloc: Global,
        fault: QueryPayloadError,
        _head: &RequestHead,
    ) -> Result<Error, NoMemory> {
        json_error(alloc, Cause::Query(fault))
    }
}

/// An error whose reply is the text of the cause as JSON: 422 where a reader refused the body,
/// otherwise the status of the cause.
fn body_error(alloc: Global, is_refused: bool, cause: Cause) -> Result<Error, NoMemory>
    ensures { IfOk result (λ e. e ≡ body_error is_refused cause) }
{
    let status = if is_refused {
        StatusCode::UNPROCESSABLE_ENTITY
    } else {
        cause.status_code()
    };
    json_error_with(alloc, status, cause)
}

/// A handler of refusals for `JsonConfig` and `FormConfig`: as `JsonErrors`, but that the status is
/// 422 (RFC 9110, section 15.5.21) where the reader refused the value or the pairs of the body.
#[derive(Drop)]
pub struct UnprocessableJson;

impl Refuse<JsonPayloadError> for UnprocessableJson {
    ghost use Rattle.std.specs.Prelude.{◌≡◌};
    ghost use Rattle.web_reply.specs.declared.errors.cause.Cause.TheVariants.{Json};
    ghost use Rattle.web_status.specs.JsonErrors.{body_error, json_is_refused};

    ghost refuses = { λ h e head x. x ≡ body_error (json_is_refused e) (Json e) };

    fn refuse(
        &self,
        alloc: Global,
        fault: JsonPayloadError,
        _head: &RequestHead,
    ) -> Result<Error, NoMemory> {
        let is_refused = matches!(&fault, JsonPayloadError::Deserialize(JsonFault::Target(_)));
        body_error(alloc, is_refused, Cause::Json(fault))
    }
}

impl Refuse<UrlencodedError> for UnprocessableJson {
    ghost use Rattle.std.specs.Prelude.{◌≡◌};
    ghost use Rattle.web_reply.specs.declared.errors.cause.Cause.TheVariants.{Form};
    ghost use Rattle.web_status.specs.JsonErrors.{body_error, form_is_refused};

    ghost refuses = { λ h e head x. x ≡ body_error (form_is_refused e) (Form e) };

    fn refuse(
        &self,
        alloc: Global,
        fault: UrlencodedError,
        _head: &RequestHead,
    ) -> Result<Error, NoMemory> {
        let is_refused = matches!(&fault, UrlencodedError::Parse(_));
        body_error(alloc, is_refused, Cause::Form(fault))
    }
}
