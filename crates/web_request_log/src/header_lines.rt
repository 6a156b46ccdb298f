//! The lines of header fields.
ghost use Rattle.std.specs.Prelude.{◌≡◌, ◌++◌, OnOk, flat_map, map, string_bytes};
ghost use Rattle.http_header.specs.Token.{is_visible_or_blank};
ghost use Rattle.web_request_log.specs.HeaderDescriptions.{header_line, header_lines, is_secret};
ghost use Rattle.web_request_log.specs.HeaderDescriptions.{name_lines, shown_byte, shown_bytes};
ghost use Rattle.web_request_log.specs.HeaderDescriptions.{shown_value};

use crate::header_names::sorted_names;
use http_header::{HeaderMap, HeaderName, HeaderValue};
use std::alloc::Global;
use web_texts::NoMemory;

fn is_header_text(byte: u8) -> bool
    ensures { result ≡ is_visible_or_blank byte }
{
    byte == b'\t' || (b' ' <= byte && byte < 0x7F)
}

fn push_byte(alloc: Global, out: &mut String, byte: u8) -> Result<(), NoMemory>
    ensures { OnOk result (string_bytes out.new ≡ string_bytes out.old ++ shown_byte byte) }
{
    if is_header_text(byte) {
        return Ok(out.push(char::from(byte))?);
    }
    let digits = hex::encode(alloc, [byte])?;
    out.push_str("\\x")?;
    Ok(out.push_str(digits.as_str())?)
}

fn push_bytes(alloc: Global, out: &mut String, bytes: &[u8]) -> Result<(), NoMemory>
    ensures { OnOk result (string_bytes out.new ≡ string_bytes out.old ++ shown_bytes bytes.now) }
{
    for byte in bytes {
        push_byte(alloc, out, *byte)?;
    }
    Ok(())
}

/// Whether the values of a name stay secret.
fn is_secret(name: &str) -> bool
    ensures { result ≡ is_secret name.now }
{
    name == "authorization" || name == "proxy-authorization" || name == "cookie"
}

fn push_value(
    alloc: Global,
    out: &mut String,
    name: &HeaderName,
    value: &HeaderValue,
) -> Result<(), NoMemory>
    ensures { OnOk result (string_bytes out.new
        ≡ string_bytes out.old ++ shown_value name.now value.now.bytes) }
{
    if is_secret(name.as_str()) {
        return Ok(out.push_str("*redacted*")?);
    }
    push_bytes(alloc, out, value.as_bytes())
}

fn push_line(
    alloc: Global,
    out: &mut String,
    name: &HeaderName,
    value: &HeaderValue,
) -> Result<(), NoMemory>
    ensures { OnOk result (string_bytes out.new
        ≡ string_bytes out.old ++ header_line name.now value.now) }
{
    out.push_str("    ")?;
    out.push_str(name.as_str())?;
    out.push_str(": ")?;
    push_value(alloc, out, name, value)?;
    Ok(out.push_str("\n")?)
}

/// The lines of the values of one name.
fn push_name(
    alloc: Global,
    out: &mut String,
    headers: &HeaderMap<HeaderValue>,
    name: &HeaderName,
) -> Result<(), NoMemory>
    ensures { OnOk result (string_bytes out.new
        ≡ string_bytes out.old ++ name_lines headers.now name.now) }
{
    for value in headers.get_all(name) {
        push_line(alloc, out, name, value)?;
    }
    Ok(())
}

fn push_names(
    alloc: Global,
    out: &mut String,
    headers: &HeaderMap<HeaderValue>,
    names: Vec<&HeaderName>,
) -> Result<(), NoMemory>
    ensures { OnOk result (string_bytes out.new
        ≡ string_bytes out.old
        ++ flat_map (name_lines headers.now) (map (λ n. n.now) names.entry.items)) }
{
    for name in names {
        push_name(alloc, out, headers, name)?;
    }
    Ok(())
}

/// Adds the lines of all header fields, sorted by the bytes of their names.
pub(crate) fn push_headers(
    alloc: Global,
    out: &mut String,
    headers: &HeaderMap<HeaderValue>,
) -> Result<(), NoMemory>
    ensures { OnOk result (string_bytes out.new
        ≡ string_bytes out.old ++ header_lines headers.now) }
{
    let names = sorted_names(alloc, headers)?;
    push_names(alloc, out, headers, names)
}
