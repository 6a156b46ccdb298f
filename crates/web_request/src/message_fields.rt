//! What the header fields of a message say of its body.
ghost use Rattle.std.specs.Prelude.{◌≡◌, None, Ok, Some};
ghost use Rattle.std.specs.Str.{str_eq_ignore_ascii_case};
ghost use Rattle.web_texts.specs.MediaTypes.{charset_of};
ghost use Rattle.web_request.specs.MessageFields.{before_semicolon, charset_test};
ghost use Rattle.web_request.specs.MessageFields.{content_type_of, first_content_type};
ghost use Rattle.web_request.specs.MessageFields.{contains_word, encoding_of};
ghost use Rattle.web_request.specs.MessageFields.{is_chunked_of, is_utf8_name, mime_type_of};
ghost use Rattle.web_request.specs.MessageFields.{starts_with_word, type_in};
ghost use Rattle.web_texts.specs.Returns.{Returns};

use http_header::{CONTENT_TYPE, HeaderMap, HeaderValue, TRANSFER_ENCODING};
use std::alloc::Global;
use web_texts::{ContentTypeError, Fail, Mime, ParseError, cut_at, header_text, trim};

fn before_semicolon(text: &str) -> &str
    ensures { result.now ≡ before_semicolon text.now }
{
    match cut_at(text, b';') {
        Some((front, _)) => front,
        None => text,
    }
}

/// See `HttpMessage::content_type`.
pub fn content_type_in(fields: &HeaderMap<HeaderValue>) -> &str
    ensures { result.now ≡ content_type_of fields.now }
{
    let Some(value) = fields.get(CONTENT_TYPE) else {
        return "";
    };
    match header_text(value) {
        Some(text) => trim(before_semicolon(text)),
        None => "",
    }
}

fn read_type(alloc: Global, value: &HeaderValue) -> Result<Option<Mime>, Fail<ContentTypeError>>
    ensures { Returns result (type_in (Some value.now)) }
{
    let Some(text) = header_text(value) else {
        return Err(Fail::Of(ContentTypeError::ParseError));
    };
    match Mime::parse(alloc, text) {
        Ok(mime) => Ok(Some(mime)),
        Err(Fail::NoMemory) => Err(Fail::NoMemory),
        Err(Fail::Of(_)) => Err(Fail::Of(ContentTypeError::ParseError)),
    }
}

/// See `HttpMessage::mime_type`.
pub fn mime_type_in(
    alloc: Global,
    fields: &HeaderMap<HeaderValue>,
) -> Result<Option<Mime>, Fail<ContentTypeError>>
    ensures value { Returns result (mime_type_of fields.now) }
    ensures untyped { first_content_type fields.now ≡ None → result ≡ Ok None }
{
    match fields.get(CONTENT_TYPE) {
        Some(value) => read_type(alloc, value),
        None => Ok(None),
    }
}

fn is_word(text: &[u8], word: &[u8]) -> bool
    ensures { result ≡ str_eq_ignore_ascii_case text.now word.now }
{
    text.eq_ignore_ascii_case(word)
}

fn is_utf8_name(charset: &str) -> bool
    ensures { result ≡ is_utf8_name charset.now }
{
    is_word(charset.as_bytes(), b"utf-8") || is_word(charset.as_bytes(), b"utf8")
}

fn test_charset(mime: &Mime) -> Result<(), ContentTypeError>
    ensures { result ≡ charset_test (charset_of mime.now) }
{
    match mime.charset() {
        Some(charset) if !is_utf8_name(charset) => Err(ContentTypeError::UnknownEncoding),
        _ => Ok(()),
    }
}

/// See `HttpMessage::encoding`.
pub fn encoding_in(
    alloc: Global,
    fields: &HeaderMap<HeaderValue>,
) -> Result<(), Fail<ContentTypeError>>
    ensures value { Returns result (encoding_of fields.now) }
    ensures untyped { first_content_type fields.now ≡ None → result ≡ Ok tt }
{
    let Some(mime) = mime_type_in(alloc, fields)? else {
        return Ok(());
    };
    match test_charset(&mime) {
        Ok(()) => Ok(()),
        Err(error) => Err(Fail::Of(error)),
    }
}

fn starts_with_word(text: &[u8], word: &[u8]) -> bool
    ensures { result ≡ starts_with_word word.now text.now }
{
    word.len() <= text.len() && is_word(&text[..word.len()], word)
}

fn contains_word(text: &[u8], word: &[u8]) -> bool
    ensures { result ≡ contains_word word.now text.now }
{
    let mut left = text;
    while let Some((_, behind)) = left.split_first() {
        if starts_with_word(left, word) {
            return true;
        }
        left = behind;
    }
    false
}

/// See `HttpMessage::chunked`.
pub fn chunked_in(fields: &HeaderMap<HeaderValue>) -> Result<bool, ParseError>
    ensures { result ≡ is_chunked_of fields.now }
{
    let Some(value) = fields.get(TRANSFER_ENCODING) else {
        return Ok(false);
    };
    match header_text(value) {
        Some(text) => Ok(contains_word(text.as_bytes(), b"chunked")),
        None => Err(ParseError::Header),
    }
}
