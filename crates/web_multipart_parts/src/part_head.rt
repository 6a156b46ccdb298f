//! The head of a part.
ghost use Rattle.std.specs.Prelude.{◌≡◌, [], None, Some, if◌then◌else◌, IfOk, MatchBool};
ghost use Rattle.std.specs.Option.{option_copied, option_map};
ghost use Rattle.web_texts.specs.TextReaders.{Reads, ReadsBy};
ghost use Rattle.web_entities.specs.Dispositions.{raw_disposition_of};
ghost use Rattle.web_multipart_parts.specs.PartHeads.{field_of, field_of_parts, field_value};
ghost use Rattle.web_multipart_parts.specs.PartHeads.{fields_in};
ghost use Rattle.web_multipart_parts.specs.PartHeads.{form_name, head_of_disposition};
ghost use Rattle.web_multipart_parts.specs.PartHeads.{head_of_fields};
ghost use Rattle.web_multipart_parts.specs.PartHeads.{head_of_values, type_field};
ghost use Rattle.web_multipart_parts.specs.PartHeads.{is_name, is_value, line_parts, part_head_of};
ghost use Rattle.http_header.specs.FieldValue.{plain_value};
ghost use Rattle.http_header.specs.Token.{lowercase};

use crate::places::place_in;
use http_header::{
    CONTENT_DISPOSITION, CONTENT_TYPE, HeaderName, HeaderNameError, HeaderValue, HeaderValueError,
};
use std::alloc::Global;
use web_entities::ContentDisposition;
use web_texts::{Fail, Mime, NoMemory, ParseError, Text, header_text, split_once_at, trim_bytes};

/// The most lines of a head.
const LINES: usize = 16;

/// A line of a head.
#[derive(Drop)]
pub struct HeadField {
    /// The name, in lower case.
    pub name: HeaderName,
    /// The value, trimmed of spaces and tabs.
    pub value: HeaderValue,
}

/// What the head of a part says.
#[derive(Debug, Drop)]
pub struct PartHead {
    /// The name of the form's field.
    pub name: Text,
    /// The plain parameter `filename`.
    pub filename: Option<Text>,
    /// Content-Type, where there is one.
    pub media_type: Option<Mime>,
}

fn read_name(alloc: Global, text: &[u8]) -> Result<HeaderName, Fail<ParseError>>
    ensures { Reads result (if is_name text.now then Some (lowercase text.now) else None) }
{
    match HeaderName::from_bytes(alloc, text) {
        Ok(name) => Ok(name),
        Err(HeaderNameError::Invalid) => Err(Fail::Of(ParseError::Header)),
        Err(HeaderNameError::OutOfMemory) => Err(Fail::NoMemory),
    }
}

fn read_value(alloc: Global, text: &[u8]) -> Result<HeaderValue, Fail<ParseError>>
    ensures { Reads result (if is_value text.now then Some (plain_value text.now) else None) }
{
    match HeaderValue::from_bytes(alloc, text) {
        Ok(value) => Ok(value),
        Err(HeaderValueError::Invalid) => Err(Fail::Of(ParseError::Header)),
        Err(HeaderValueError::OutOfMemory) => Err(Fail::NoMemory),
    }
}

/// Reads the name and the value of a line.
fn read_parts(alloc: Global, name: &[u8], value: &[u8]) -> Result<HeadField, Fail<ParseError>>
    ensures { Reads result (field_of_parts (name.now, value.now)) }
{
    let name = read_name(alloc, name)?;
    let value = read_value(alloc, trim_bytes(value))?;
    Ok(HeadField { name, value })
}

/// Reads a line: a name, a colon and a value.
fn read_field(alloc: Global, line: &[u8]) -> Result<HeadField, Fail<ParseError>>
    ensures { Reads result (field_of line.now) }
{
    match split_once_at(line, b':') {
        Some((name, value)) => read_parts(alloc, name, value),
        None => Err(Fail::Of(ParseError::Header)),
    }
}

/// The first line, and what follows its end.
fn cut_line(text: &[u8]) -> Option<(&[u8], &[u8])>
    ensures { option_map (λ line. (line.0.now, line.1.now)) result ≡ line_parts text.now }
{
    match place_in(text, b"\r\n") {
        Some(end) => Some((&text[..end], &text[end + 2..])),
        None => None,
    }
}

/// Whether an empty line stands here, and so the fields end.
fn is_end(text: &[u8]) -> bool
    ensures { MatchBool result (fields_in 0 text.now ≡ Some []) (fields_in 0 text.now ≡ None) }
{
    match cut_line(text) {
        None => false,
        Some((line, _)) => line.is_empty(),
    }
}

/// Reads the lines up to the empty one.
fn read_fields(alloc: Global, text: &[u8]) -> Result<Vec<HeadField>, Fail<ParseError>>
    ensures { ReadsBy (λ v. v.items) result (fields_in 16 text.now) }
{
    let mut fields = Vec::new(alloc);
    let mut rest = text;
    for _ in 0..LINES {
        match cut_line(rest) {
            None => return Err(Fail::Of(ParseError::Header)),
            Some((line, later)) => {
                if line.is_empty() {
                    return Ok(fields);
                }
                fields.push(read_field(alloc, line)?)?;
                rest = later;
            }
        }
    }
    if is_end(rest) {
        Ok(fields)
    } else {
        Err(Fail::Of(ParseError::Header))
    }
}

/// The value of the first field of this name.
fn value_of<'a>(fields: &'a [HeadField], name: &HeaderName) -> Option<&'a HeaderValue>
    ensures { option_copied result ≡ field_value name.now fields.now }
{
    let mut rest = fields;
    while let Some((field, later)) = rest.split_first() {
        if field.name == *name {
            return Some(&field.value);
        }
        rest = later;
    }
    None
}

fn read_type(alloc: Global, value: Option<&HeaderValue>) -> Result<Option<Mime>, Fail<ParseError>>
    ensures { Reads result (type_field (option_copied value.entry)) }
{
    let Some(value) = value else {
        return Ok(None);
    };
    let Some(text) = header_text(value) else {
        return Err(Fail::Of(ParseError::Header));
    };
    match Mime::parse(alloc, text) {
        Ok(mime) => Ok(Some(mime)),
        Err(Fail::NoMemory) => Err(Fail::NoMemory),
        Err(Fail::Of(_)) => Err(Fail::Of(ParseError::Header)),
    }
}

/// The name of form data.
fn name_in(disposition: &ContentDisposition) -> Option<&str>
    ensures { option_map (λ text. text.now) result ≡ form_name disposition.now }
{
    if disposition.is_form_data() {
        disposition.get_name()
    } else {
        None
    }
}

fn copied(alloc: Global, text: Option<&str>) -> Result<Option<Text>, NoMemory>
    ensures { IfOk result (λ own. own ≡ option_map (λ text. text.now) text.entry) }
{
    match text {
        Some(text) => Ok(Some(Text::of(alloc, text)?)),
        None => Ok(None),
    }
}

/// The head of form data.
fn read_form_data(
    alloc: Global,
    disposition: &ContentDisposition,
    media_type: Option<&HeaderValue>,
) -> Result<PartHead, Fail<ParseError>>
    ensures { Reads result
        (head_of_disposition (option_copied media_type.entry) disposition.now) }
{
    let Some(name) = name_in(disposition) else {
        return Err(Fail::Of(ParseError::Header));
    };
    let media_type = read_type(alloc, media_type)?;
    let name = Text::of(alloc, name)?;
    let filename = copied(alloc, disposition.get_filename())?;
    Ok(PartHead {
        name,
        filename,
        media_type,
    })
}

fn read_head_values(
    alloc: Global,
    disposition: Option<&HeaderValue>,
    media_type: Option<&HeaderValue>,
) -> Result<PartHead, Fail<ParseError>>
    ensures { Reads result
        (head_of_values (option_copied disposition.entry) (option_copied media_type.entry)) }
{
    let Some(value) = disposition else {
        return Err(Fail::Of(ParseError::Header));
    };
    let disposition = ContentDisposition::from_raw(alloc, value)?;
    read_form_data(alloc, &disposition, media_type)
}

fn read_head_fields(alloc: Global, fields: &[HeadField]) -> Result<PartHead, Fail<ParseError>>
    ensures { Reads result (head_of_fields fields.now) }
{
    let disposition = value_of(fields, &CONTENT_DISPOSITION);
    let media_type = value_of(fields, &CONTENT_TYPE);
    read_head_values(alloc, disposition, media_type)
}

/// Reads the head of a part: its lines, each with its line end, and the empty line after them.
/// `ParseError::Header` comes where a line is no field, where there are more than 16, where it is
/// not form data with a name, and where its Content-Type is no media type.
pub fn read_part_head(alloc: Global, text: &[u8]) -> Result<PartHead, Fail<ParseError>>
    ensures { Reads result (part_head_of text.now) }
{
    let fields = read_fields(alloc, text)?;
    read_head_fields(alloc, &fields)
}
