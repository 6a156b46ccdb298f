//! The tests of a head before the body is read as an argument. They leave the payload.
ghost use Rattle.std.specs.Prelude.{◌≡◌, IfOk, IsOk, None, Ok, Some, option_copied, true};
ghost use Rattle.std.specs.Option.{option_or, unwrap_or};
ghost use Rattle.std.specs.Str.{str_eq_ignore_ascii_case};
ghost use Rattle.web_request.specs.MessageFields.{first_content_type, is_utf8_name};
ghost use Rattle.web_request.specs.MessageFields.{mime_type_of, type_in, type_test};
ghost use Rattle.web_body.specs.PayloadSettings.{default_payload_settings};
ghost use Rattle.web_extract.specs.BodyArguments.{charset_refusal, error_of, type_refusal};
ghost use Rattle.web_extract.specs.BodyArguments.{unexpected_type};
ghost use Rattle.web_extract.specs.CappedArguments.{capped_settings};
ghost use Rattle.web_extract.specs.LayerConfigurations.{payload_settings};

use crate::bad_request::bad_request;
use crate::config::config_choices::PayloadChoice;
use crate::config::layer_configs::Configs;
use http_header::{CONTENT_TYPE, HeaderValue};
use std::alloc::Global;
use web_body::{DEFAULT_LIMIT, PayloadConfig};
use web_reply::Error;
use web_request::{App, HttpMessage, HttpRequest, NoMemory};
use web_texts::{ContentTypeError, Fail, Mime, header_text};

/// The configuration of payloads for a request, or `None` where it is the default.
pub(crate) fn payload_config<A: App>(req: &HttpRequest<A>) -> Option<&PayloadConfig>
where
    A::Layer: Configs,
    ensures { unwrap_or (option_copied result) default_payload_settings
        ≡ payload_settings A.Layer.Configs.configurations req.now.request.layers }
{
    req.nearest_config::<PayloadChoice>()
}

/// The limit of a configuration, in bytes.
pub(crate) fn limit_of(config: Option<&PayloadConfig>) -> usize
    ensures { result ≡ (unwrap_or (option_copied config.entry) default_payload_settings).limit }
{
    match config {
        Some(config) => config.max_len(),
        None => DEFAULT_LIMIT,
    }
}

/// The lesser of the limit of a configuration and a cap, in bytes.
pub(crate) fn capped_limit(config: Option<&PayloadConfig>, cap: usize) -> usize
    ensures { result ≡ (capped_settings cap
        (unwrap_or (option_copied config.entry) default_payload_settings)).limit }
{
    limit_of(config).min(cap)
}

/// The media type that a configuration requires.
pub(crate) fn required_type(config: Option<&PayloadConfig>) -> Option<&Mime>
    ensures { option_copied result
        ≡ (unwrap_or (option_copied config.entry) default_payload_settings).required_type }
{
    match config {
        Some(config) => config.required_type(),
        None => None,
    }
}

/// The refusal of a Content-Type other than the required one. It allocates nothing where none is
/// required.
// Inlined as `BytesExtractFut::new` is.
#[inline(always)]
#[tactic(auto, using(crate::proofs::RequiredTypesLemmas::required_type))]
pub(crate) fn type_refusal<M: HttpMessage>(
    alloc: Global,
    message: &M,
    required: Option<&Mime>,
) -> Result<Option<Error>, NoMemory>
    ensures value { IfOk result (λ refusal. refusal
        ≡ type_refusal (option_copied required.entry) (M.fields message.now)) }
    ensures memory { option_copied required.entry ≡ None → IsOk result }
{
    let Some(required) = required else {
        return Ok(None);
    };
    if is_written(message, required) {
        return Ok(None);
    }
    match message.mime_type(alloc) {
        Ok(found) => unexpected_type(alloc, &found, required),
        Err(Fail::Of(error)) => Ok(Some(Error::from(error))),
        Err(Fail::NoMemory) => Err(NoMemory),
    }
}

/// The refusal of a media type other than the required one, or of none.
fn unexpected_type(
    alloc: Global,
    found: &Option<Mime>,
    required: &Mime,
) -> Result<Option<Error>, NoMemory>
    ensures { IfOk result (λ refusal. refusal ≡ unexpected_type required.now (Ok found.now)) }
{
    let text = match found {
        Some(found) if found == required => return Ok(None),
        Some(_) => "Unexpected Content-Type",
        None => "Content-Type is expected",
    };
    Ok(Some(bad_request(alloc, text)?))
}

/// The first refusal of these two tests. Content-Type is read once. It allocates nothing where no
/// type is required and there is no Content-Type.
#[tactic(auto, using(crate::proofs::RequiredTypesLemmas::required_text))]
pub(crate) fn text_refusal<M: HttpMessage>(
    alloc: Global,
    message: &M,
    required: Option<&Mime>,
) -> Result<Option<Error>, NoMemory>
    ensures value { IfOk result (λ refusal. refusal ≡ option_or
        (type_refusal (option_copied required.entry) (M.fields message.now))
        (charset_refusal (M.fields message.now))) }
    ensures memory { option_copied required.entry ≡ None
        → first_content_type (M.fields message.now) ≡ None → IsOk result }
{
    let Some(required) = required else {
        return charset_refusal(alloc, message);
    };
    if is_written(message, required) {
        return Ok(charset_of_type(required));
    }
    match message.mime_type(alloc) {
        Ok(found) => refusal_of_text(alloc, &found, required),
        Err(Fail::Of(error)) => Ok(Some(Error::from(error))),
        Err(Fail::NoMemory) => Err(NoMemory),
    }
}

/// The first refusal of a media type: one other than the required one, and one of a charset other
/// than UTF-8.
fn refusal_of_text(
    alloc: Global,
    found: &Option<Mime>,
    required: &Mime,
) -> Result<Option<Error>, NoMemory>
    ensures { IfOk result (λ refusal. refusal ≡ option_or
        (unexpected_type required.now (Ok found.now)) (error_of (type_test (Ok found.now)))) }
{
    match unexpected_type(alloc, found, required)? {
        Some(refusal) => Ok(Some(refusal)),
        None => Ok(refusal_of_charset(found)),
    }
}

/// The refusal of a media type with a charset other than UTF-8.
fn charset_of_type(found: &Mime) -> Option<Error>
    ensures { result ≡ error_of (type_test (Ok (Some found.now))) }
{
    match found.charset() {
        Some(charset) if !is_utf8_name(charset) => {
            Some(Error::from(ContentTypeError::UnknownEncoding))
        }
        _ => None,
    }
}

fn refusal_of_charset(found: &Option<Mime>) -> Option<Error>
    ensures { result ≡ error_of (type_test (Ok found.now)) }
{
    match found {
        Some(found) => charset_of_type(found),
        None => None,
    }
}

fn is_value(value: &HeaderValue, required: &Mime) -> bool
    ensures { result ≡ true → type_in (Some value.now) ≡ Ok (Some required.now) }
{
    match header_text(value) {
        Some(text) => required.is_written(text),
        None => false,
    }
}

/// Whether the first Content-Type is this media type in its plainest spelling, which takes no
/// memory. Another text may name the same media type.
fn is_written<M: HttpMessage>(message: &M, required: &Mime) -> bool
    ensures { result ≡ true → mime_type_of (M.fields message.now) ≡ Ok (Some required.now) }
{
    match message.headers().get(CONTENT_TYPE) {
        Some(value) => is_value(value, required),
        None => false,
    }
}

fn is_word(text: &[u8], word: &[u8]) -> bool
    ensures { result ≡ str_eq_ignore_ascii_case text.now word.now }
{
    text.eq_ignore_ascii_case(word)
}

fn is_utf8_name(charset: &str) -> bool
    ensures { result ≡ is_utf8_name charset.now }
{
    is_word(charset.as_bytes(), b"utf-8") || is_word(charset.as_bytes(), b"utf8")
}

/// The refusal of an unreadable Content-Type, and of a charset other than UTF-8. It allocates
/// nothing where there is no Content-Type.
fn charset_refusal<M: HttpMessage>(alloc: Global, message: &M) -> Result<Option<Error>, NoMemory>
    ensures value { IfOk result (λ refusal. refusal ≡ charset_refusal (M.fields message.now)) }
    ensures memory { first_content_type (M.fields message.now) ≡ None → IsOk result }
{
    match message.encoding(alloc) {
        Ok(()) => Ok(None),
        Err(Fail::Of(error)) => Ok(Some(Error::from(error))),
        Err(Fail::NoMemory) => Err(NoMemory),
    }
}
