//! The headers of a reply with a file beside those of its description.
ghost use Rattle.std.specs.Prelude.{◌≡◌, ◌&&◌, IfOk, OnOk};
ghost use Rattle.web_folders.specs.FileDispositions.{disposition_value as disposition_value_lem};
ghost use Rattle.web_folders.specs.FileReplies.{added_headers, content_headers};
ghost use Rattle.web_folders.specs.FileReplies.{has_content as has_content_lem};
ghost use Rattle.web_folders.specs.FileReplies.{if_allowed as if_allowed_lem, with_header};
ghost use Rattle.web_folders.specs.FileReplies.{is_kept as is_kept_lem};

use crate::coding::FileCoding;
use crate::disposition::disposition_value;
use crate::settings::FolderSettings;
use http::StatusCode;
use http_header::{
    CACHE_CONTROL, CONTENT_DISPOSITION, CONTENT_ENCODING, HeaderMap, HeaderName, HeaderValue, VARY,
    X_CONTENT_TYPE_OPTIONS,
};
use std::alloc::Global;
use web_texts::NoMemory;

/// Sets a header, if there is a value. A map without room counts as one without memory: no reply
/// has so many headers.
pub(crate) fn put(
    headers: &mut HeaderMap<HeaderValue>,
    name: HeaderName,
    value: Option<HeaderValue>,
) -> Result<(), NoMemory>
    ensures { OnOk result (headers.new ≡ with_header headers.old name value) }
{
    let Some(value) = value else {
        return Ok(());
    };
    match headers.insert(name, value) {
        Ok(_) => Ok(()),
        Err(_) => Err(NoMemory),
    }
}

fn if_allowed(allowed: bool, value: Option<HeaderValue>) -> Option<HeaderValue>
    ensures { result ≡ if_allowed_lem allowed value }
{
    if allowed { value } else { None }
}

/// Whether a reply of this status has content of a file.
fn has_content(status: StatusCode) -> bool
    ensures { result ≡ has_content_lem status }
{
    status == StatusCode::OK || status == StatusCode::PARTIAL_CONTENT
}

/// Whether a cache stores what a reply of this status says.
fn is_kept(status: StatusCode) -> bool
    ensures { result ≡ is_kept_lem status }
{
    has_content(status) || status == StatusCode::NOT_MODIFIED
}

fn disposition(
    alloc: Global,
    content: bool,
    wanted: bool,
    path: &str,
) -> Result<Option<HeaderValue>, NoMemory>
    ensures { IfOk result (λ value.
        value ≡ if_allowed_lem (content && wanted) (disposition_value_lem path.now)) }
{
    if content && wanted {
        return disposition_value(alloc, path);
    }
    Ok(None)
}

fn cache_control(wanted: bool, settings: &FolderSettings) -> Result<Option<HeaderValue>, NoMemory>
    ensures { IfOk result (λ value. value ≡ if_allowed_lem wanted settings.now.cache_control) }
{
    match &settings.cache_control {
        Some(value) if wanted => Ok(Some(value.clone()?)),
        _ => Ok(None),
    }
}

/// Adds what the content is, if there is some.
fn add_content_headers(
    alloc: Global,
    headers: &mut HeaderMap<HeaderValue>,
    settings: &FolderSettings,
    path: &str,
    coding: FileCoding,
    content: bool,
) -> Result<(), NoMemory>
    ensures { OnOk result (headers.new
        ≡ content_headers settings.now path.now coding content headers.old) }
{
    let shown = disposition(alloc, content, settings.dispositions, path)?;
    let coded = if_allowed(content, coding.value());
    let nosniff = if_allowed(content, Some(HeaderValue::from_static("nosniff")));
    put(headers, CONTENT_ENCODING, coded)?;
    put(headers, CONTENT_DISPOSITION, shown)?;
    put(headers, X_CONTENT_TYPE_OPTIONS, nosniff)?;
    Ok(())
}

/// Adds the headers of a reply of this status with the file at this path, in this coding.
pub(crate) fn add_headers(
    alloc: Global,
    headers: &mut HeaderMap<HeaderValue>,
    settings: &FolderSettings,
    path: &str,
    coding: FileCoding,
    status: StatusCode,
) -> Result<(), NoMemory>
    ensures { OnOk result (headers.new
        ≡ added_headers settings.now path.now coding status headers.old) }
{
    let kept = cache_control(is_kept(status), settings)?;
    let accept = Some(HeaderValue::from_static("accept-encoding"));
    let vary = if_allowed(settings.compressed, accept);
    add_content_headers(alloc, headers, settings, path, coding, has_content(status))?;
    put(headers, CACHE_CONTROL, kept)?;
    put(headers, VARY, vary)?;
    Ok(())
}
