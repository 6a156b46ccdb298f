//! The headers that a variant is sent with.
ghost use Rattle.std.specs.Prelude.{◌≡◌, IfOk, IfSome, OnOk, codes};
ghost use Rattle.http_header.specs.FieldValue.{plain_value};
ghost use Rattle.http_header.specs.HeaderMap.{insert};
ghost use Rattle.web_headers.specs.Codings.{encoding_text};
ghost use Rattle.web_reply.specs.HeaderSteps.{is_field_value};
ghost use Rattle.web_variants.specs.PrintedHeaders.{OkWhere, insert_some};
ghost use Rattle.web_variants.specs.StoredVariants.{content_encoding, is_language_value};
ghost use Rattle.web_variants.specs.StoredVariants.{is_printable, variant_headers};
ghost use Rattle.web_variants.specs.StoredVariants.{vary as vary_headers};

use crate::coding_quality::is_identity;
use crate::stored_variants::Variant;
use http_header::{
    CONTENT_ENCODING, CONTENT_LANGUAGE, CONTENT_TYPE, HeaderMap, HeaderName, HeaderValue, VARY,
};
use std::alloc::Global;
use std::fmt;
use web_headers::{Encoding, printed_value};
use web_texts::{Fail, InvalidHeaderValue, LanguageTag, NoMemory};

/// Sets a header. A map without room returns the same as one without memory.
fn put(
    headers: &mut HeaderMap<HeaderValue>,
    name: HeaderName,
    value: HeaderValue,
) -> Result<(), NoMemory>
    ensures { OnOk result (headers.new ≡ insert headers.old name value) }
{
    match headers.insert(name, value) {
        Ok(_) => Ok(()),
        Err(_) => Err(NoMemory),
    }
}

/// The value that an item prints. `InvalidHeaderValue` comes where no header may hold it.
fn value_of<T: fmt::Display>(
    alloc: Global,
    item: &T,
) -> Result<HeaderValue, Fail<InvalidHeaderValue>>
    ensures { IfSome (T.output item.now) (λ text.
        OkWhere (is_field_value text) (λ value. value ≡ plain_value text) result) }
{
    match printed_value(alloc, item) {
        Ok(value) => {
            // It says that a header may hold the value.
            let _bytes = value.as_bytes();
            Ok(value)
        }
        Err(error) => Err(error),
    }
}

/// Sets a header to the text that an item prints.
fn put_printed<T: fmt::Display>(
    alloc: Global,
    headers: &mut HeaderMap<HeaderValue>,
    name: HeaderName,
    item: &T,
) -> Result<(), Fail<InvalidHeaderValue>>
    ensures { IfSome (T.output item.now) (λ text. OkWhere (is_field_value text)
        (λ _. headers.new ≡ insert headers.old name (plain_value text)) result) }
{
    let value = value_of(alloc, item)?;
    put(headers, name, value)?;
    Ok(())
}

/// Says the coding, but not identity.
#[tactic(auto, using(crate::proofs::PrintedHeaderLemmas::identity_fits))]
fn put_coding(
    alloc: Global,
    headers: &mut HeaderMap<HeaderValue>,
    coding: &Encoding,
) -> Result<(), Fail<InvalidHeaderValue>>
    ensures { OkWhere (is_field_value (encoding_text coding.now)) (λ _. headers.new
        ≡ insert_some headers.old (codes "content-encoding") (content_encoding coding.now)) result }
{
    if is_identity(coding) {
        Ok(())
    } else {
        put_printed(alloc, headers, CONTENT_ENCODING, coding)
    }
}

fn put_language(
    alloc: Global,
    headers: &mut HeaderMap<HeaderValue>,
    language: &Option<LanguageTag>,
) -> Result<(), Fail<InvalidHeaderValue>>
    ensures { OkWhere (is_language_value language.now) (λ _. headers.new
        ≡ insert_some headers.old (codes "content-language") language.now) result }
{
    match language {
        Some(tag) => put_printed(alloc, headers, CONTENT_LANGUAGE, tag),
        None => Ok(()),
    }
}

/// Says by which headers of a request a variant is chosen (RFC 9110, section 12.5.5).
fn put_vary(headers: &mut HeaderMap<HeaderValue>) -> Result<(), NoMemory>
    ensures { OnOk result (headers.new ≡ insert headers.old (codes "vary")
        (plain_value (codes "accept, accept-language, accept-encoding"))) }
{
    let names = HeaderValue::from_static("accept, accept-language, accept-encoding");
    put(headers, VARY, names)
}

/// The headers of a reply without a variant.
pub(crate) fn vary(alloc: Global) -> Result<HeaderMap<HeaderValue>, NoMemory>
    ensures { IfOk result (λ headers. headers ≡ vary_headers) }
{
    let mut headers = HeaderMap::empty(alloc);
    put_vary(&mut headers)?;
    Ok(headers)
}

/// The headers that a variant is sent with. `InvalidHeaderValue` comes where its media type, its
/// language or its coding can be no header's value.
pub(crate) fn printed_headers(
    alloc: Global,
    variant: &Variant,
) -> Result<HeaderMap<HeaderValue>, Fail<InvalidHeaderValue>>
    ensures { OkWhere (is_printable variant.now)
        (λ headers. headers ≡ variant_headers variant.now) result }
{
    let mut headers = HeaderMap::empty(alloc);
    put_coding(alloc, &mut headers, &variant.coding)?;
    put_language(alloc, &mut headers, &variant.language)?;
    put_printed(alloc, &mut headers, CONTENT_TYPE, &variant.media_type)?;
    put_vary(&mut headers)?;
    Ok(headers)
}
