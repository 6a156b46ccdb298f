//! How a file is to be shown or saved.
ghost use Rattle.std.specs.Prelude.{◌≡◌, ◌∷◌, [], IfOk};
ghost use Rattle.std.specs.List.{list_all};
ghost use Rattle.std.specs.Char.{is_ascii};
ghost use Rattle.web_folders.specs.FileDispositions.{disposition_value as disposition_value_lem};
ghost use Rattle.web_folders.specs.FileDispositions.{file_disposition as file_disposition_lem};
ghost use Rattle.web_folders.specs.FileDispositions.{file_name as file_name_lem};
ghost use Rattle.web_folders.specs.FileDispositions.{is_shown as is_shown_lem, is_shown_type};
ghost use Rattle.web_folders.specs.FileDispositions.{filename_params as filename_params_lem};
ghost use Rattle.web_folders.specs.FileDispositions.{disposition_type as disposition_type_lem};
ghost use Rattle.web_folders.specs.FileDispositions.{utf8_value as utf8_value_lem};
ghost use Rattle.web_docs.specs.Documents.{field_value_of};
ghost use Rattle.web_entities.specs.DispositionTexts.{disposition_text};

use crate::media_type::media_type_of;
use http_header::HeaderValue;
use std::alloc::Global;
use web_entities::{ContentDisposition, DispositionParam, DispositionType};
use web_headers::printed_value;
use web_texts::{Charset, ExtendedValue, Fail, Items, NoMemory, Text, cut_at, cut_at_last};

/// The last name of a path.
fn file_name(path: &str) -> &str
    ensures { result.now ≡ file_name_lem path.now }
{
    match cut_at_last(path, b'/') {
        Some((_, name)) => name,
        None => path,
    }
}

fn is_shown_type(type_: &str, media_type: &str) -> bool
    ensures { result ≡ is_shown_type type_.now media_type.now }
{
    type_ == "text"
        || type_ == "image"
        || type_ == "audio"
        || type_ == "video"
        || media_type == "application/json"
        || media_type == "application/wasm"
}

/// Whether a browser shows content of this type, and does not save it.
fn is_shown(media_type: &str) -> bool
    ensures { result ≡ is_shown_lem media_type.now }
{
    match cut_at(media_type, b'/') {
        Some((type_, _)) => is_shown_type(type_, media_type),
        None => false,
    }
}

fn disposition_type(media_type: &str) -> DispositionType
    ensures { result ≡ disposition_type_lem media_type.now }
{
    if is_shown(media_type) {
        DispositionType::Inline
    } else {
        DispositionType::Attachment
    }
}

fn is_ascii_text(name: &str) -> bool
    ensures { result ≡ list_all is_ascii name.now }
{
    name.as_bytes().iter().all(|b| *b < 128)
}

fn utf8_value(alloc: Global, name: &str) -> Result<ExtendedValue, NoMemory>
    ensures { IfOk result (λ value. value ≡ utf8_value_lem name.now) }
{
    let value = Items::of(Vec::from_slice(alloc, name.as_bytes())?);
    match Charset::parse(alloc, "UTF-8") {
        Ok(charset) => Ok(ExtendedValue {
            charset,
            language_tag: None,
            value,
        }),
        Err(_) => Err(NoMemory),
    }
}

/// The name as `filename`, and beside it as `filename*` if it is not ASCII.
fn filename_params(alloc: Global, name: &str) -> Result<Items<DispositionParam>, NoMemory>
    ensures { IfOk result (λ params. params ≡ filename_params_lem name.now) }
{
    let mut params = Items::of(Vec::new(alloc));
    params.push(DispositionParam::Filename(Text::of(alloc, name)?))?;
    if !is_ascii_text(name) {
        params.push(DispositionParam::FilenameExt(utf8_value(alloc, name)?))?;
    }
    Ok(params)
}

/// The disposition of the file at this path.
fn file_disposition(alloc: Global, path: &str) -> Result<ContentDisposition, NoMemory>
    ensures { IfOk result (λ d. d ≡ file_disposition_lem path.now) }
{
    let parameters = filename_params(alloc, file_name(path))?;
    Ok(ContentDisposition {
        disposition: disposition_type(media_type_of(path)),
        parameters,
    })
}

/// The value that a disposition prints, if it may stand in a header.
fn printed(alloc: Global, disposition: &ContentDisposition) -> Result<Option<HeaderValue>, NoMemory>
    ensures { IfOk result (λ value. value ≡ field_value_of (disposition_text disposition.now)) }
{
    match printed_value(alloc, disposition) {
        Ok(value) => {
            // It says that a header may hold the value.
            let _bytes = value.as_bytes();
            Ok(Some(value))
        }
        Err(Fail::Of(_)) => Ok(None),
        Err(Fail::NoMemory) => Err(NoMemory),
    }
}

/// The value of Content-Disposition (RFC 6266) for the file at this path. None if its name can be
/// in no header, as one with a line break.
pub(crate) fn disposition_value(alloc: Global, path: &str) -> Result<Option<HeaderValue>, NoMemory>
    ensures { IfOk result (λ value. value ≡ disposition_value_lem path.now) }
{
    let disposition = file_disposition(alloc, path)?;
    let value = printed(alloc, &disposition)?;
    Ok(value)
}
