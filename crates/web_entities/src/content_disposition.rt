//! Content-Disposition.
ghost use Rattle.std.specs.Prelude.{◌≡◌, IfOk, IsOk};
ghost use Rattle.std.specs.Option.{option_map, option_copied};
ghost use Rattle.http_header.specs.HeaderMap.{get_all};
ghost use Rattle.web_texts.specs.Cut.{split_once};
ghost use Rattle.web_texts.specs.TextReaders.{Reads};
ghost use Rattle.web_texts.specs.HeaderTexts.{value_bytes};
ghost use Rattle.web_entities.specs.Dispositions.{type_of, typed_disposition, disposition_of};
ghost use Rattle.web_entities.specs.Dispositions.{raw_disposition_of, parts_or_all};
ghost use Rattle.web_entities.specs.Dispositions.{TakesNoMemory, first_disposition};
ghost use Rattle.web_entities.specs.Dispositions.{attachment_of};
ghost use Rattle.web_entities.specs.DispositionParts as part;

use crate::disposition_param::{
    DispositionParam, FilenameExtPart, FilenamePart, NamePart, UnknownExtPart, UnknownPart,
    first_match, found_text,
};
use crate::disposition_places::ParameterState;
use http_header::{CONTENT_DISPOSITION, HeaderMap, HeaderName, HeaderValue};
use std::alloc::Global;
use std::str;
use web_headers::{Header, TryIntoHeaderValue, printed_value};
use web_texts::{
    Duplicate, ExtendedValue, Fail, InvalidHeaderValue, Items, NoMemory, ParseError, Text, cut_at,
    read_each, trim,
};

/// How a representation is to be shown, or which field of a form a part is. Known types are known
/// in any ASCII case.
#[derive(Debug, Drop, PartialEq, Eq)]
pub enum DispositionType {
    /// `inline`: shown in place.
    Inline,
    /// `attachment`: saved to a file.
    Attachment,
    /// `form-data`: a field of a form (RFC 7578, section 4.2).
    FormData,
    /// Another type.
    Ext(Text),
}

/// How a representation is to be shown or saved (RFC 6266), or which field of a form a part is. It
/// is read from the first value, which must be UTF-8: a type, and parameters after semicolons.
#[derive(Debug, Drop, PartialEq, Eq)]
pub struct ContentDisposition {
    /// The type.
    pub disposition: DispositionType,
    /// The parameters, in their order.
    pub parameters: Items<DispositionParam>,
}

impl DispositionType {
    /// The type of this name. One that is known takes no memory.
    pub fn of(alloc: Global, name: &str) -> Result<Self, NoMemory>
        ensures value { IfOk result (λ made. made ≡ type_of name.now) }
        ensures memory { TakesNoMemory (type_of name.now) → IsOk result }
    {
        if name.eq_ignore_ascii_case("inline") {
            return Ok(DispositionType::Inline);
        }
        if name.eq_ignore_ascii_case("attachment") {
            return Ok(DispositionType::Attachment);
        }
        if name.eq_ignore_ascii_case("form-data") {
            return Ok(DispositionType::FormData);
        }
        Ok(DispositionType::Ext(Text::of(alloc, name)?))
    }
}

/// The text before the first semicolon and the text after it, or all and nothing.
fn split_type(text: &str) -> (&str, &str)
    ensures { (result.0.now, result.1.now) ≡ parts_or_all text.now (split_once 59 text.now) }
{
    match cut_at(text, b';') {
        Some(parts) => parts,
        None => (text, ""),
    }
}

fn read_typed(
    alloc: Global,
    name: &str,
    params: &str,
) -> Result<ContentDisposition, Fail<ParseError>>
    ensures { Reads result (typed_disposition name.now params.now) }
{
    if name.is_empty() {
        return Err(Fail::Of(ParseError::Header));
    }
    let disposition = DispositionType::of(alloc, name)?;
    let parameters = read_each::<ParameterState, DispositionParam>(alloc, params)?;
    Ok(ContentDisposition {
        disposition,
        parameters: Items::of(parameters),
    })
}

fn read_text(alloc: Global, text: &str) -> Result<ContentDisposition, Fail<ParseError>>
    ensures { Reads result (disposition_of text.now) }
{
    let (name, params) = split_type(trim(text));
    read_typed(alloc, trim(name), params)
}

impl ContentDisposition {
    /// `attachment` with the one parameter `filename` of this text.
    pub fn attachment(alloc: Global, filename: &str) -> Result<Self, NoMemory>
        ensures { IfOk result (λ made. made ≡ attachment_of filename.now) }
    {
        let mut parameters = Items::of(Vec::new(alloc));
        parameters.push(DispositionParam::Filename(Text::of(alloc, filename)?))?;
        Ok(ContentDisposition {
            disposition: DispositionType::Attachment,
            parameters,
        })
    }

    /// Reads one value. `ParseError::Header` comes where it is not UTF-8 or outside the grammar:
    /// an empty type, a parameter without a name, without `=` or without a value, quoted text
    /// without a closing quote, and after `*=` what is no extended value.
    pub fn from_raw(alloc: Global, value: &HeaderValue) -> Result<Self, Fail<ParseError>>
        ensures { Reads result (raw_disposition_of value.now.bytes) }
    {
        match str::from_utf8(value.as_bytes()) {
            Ok(text) => read_text(alloc, text),
            Err(_) => Err(Fail::Of(ParseError::Header)),
        }
    }

    /// Whether the type is `Inline`.
    pub fn is_inline(&self) -> bool
        ensures { result ≡ part.is_inline self.now.disposition }
    {
        matches!(&self.disposition, DispositionType::Inline)
    }

    /// Whether the type is `Attachment`.
    pub fn is_attachment(&self) -> bool
        ensures { result ≡ part.is_attachment self.now.disposition }
    {
        matches!(&self.disposition, DispositionType::Attachment)
    }

    /// Whether the type is `FormData`.
    pub fn is_form_data(&self) -> bool
        ensures { result ≡ part.is_form_data self.now.disposition }
    {
        matches!(&self.disposition, DispositionType::FormData)
    }

    /// Whether the type is `Ext` of this name, in any ASCII case.
    pub fn is_ext(&self, name: &str) -> bool
        ensures { result ≡ part.is_ext name.now self.now.disposition }
    {
        match &self.disposition {
            DispositionType::Ext(own) => own.as_str().eq_ignore_ascii_case(name),
            _ => false,
        }
    }

    /// The value of the first `Name`.
    pub fn get_name(&self) -> Option<&str>
        ensures { option_map (λ text. text.now) result
            ≡ part.first_match part.name_of self.now.parameters }
    {
        found_text(first_match(self.parameters.as_slice(), &NamePart))
    }

    /// The value of the first `Filename`.
    pub fn get_filename(&self) -> Option<&str>
        ensures { option_map (λ text. text.now) result
            ≡ part.first_match part.filename_of self.now.parameters }
    {
        found_text(first_match(self.parameters.as_slice(), &FilenamePart))
    }

    /// The value of the first `Unknown` of this name, which is compared in any ASCII case.
    pub fn get_unknown(&self, name: &str) -> Option<&str>
        ensures { option_map (λ text. text.now) result
            ≡ part.first_match (part.unknown_of name.now) self.now.parameters }
    {
        found_text(first_match(self.parameters.as_slice(), &UnknownPart(name)))
    }

    /// The value of the first `FilenameExt`.
    pub fn get_filename_ext(&self) -> Option<&ExtendedValue>
        ensures { option_copied result
            ≡ part.first_match part.filename_ext_of self.now.parameters }
    {
        first_match(self.parameters.as_slice(), &FilenameExtPart)
    }

    /// The value of the first `UnknownExt` of this name, which is compared in any ASCII case.
    pub fn get_unknown_ext(&self, name: &str) -> Option<&ExtendedValue>
        ensures { option_copied result
            ≡ part.first_match (part.unknown_ext_of name.now) self.now.parameters }
    {
        first_match(self.parameters.as_slice(), &UnknownExtPart(name))
    }
}

/// Reads the first value of this name.
fn read_first(
    alloc: Global,
    headers: &HeaderMap<HeaderValue>,
    name: &HeaderName,
) -> Result<ContentDisposition, Fail<ParseError>>
    ensures { Reads result
        (first_disposition (value_bytes (get_all headers.now name.now))) }
{
    match headers.get(name) {
        Some(value) => ContentDisposition::from_raw(alloc, value),
        None => Err(Fail::Of(ParseError::Header)),
    }
}

impl Header for ContentDisposition {
    ghost use Rattle.std.specs.Prelude.{◌≡◌, codes};
    ghost use Rattle.web_entities.specs.Dispositions.{first_disposition};

    ghost says = { λ values said. first_disposition values ≡ said };

    ghost called = { codes "content-disposition" };

    fn name() -> HeaderName {
        CONTENT_DISPOSITION
    }

    fn parse(alloc: Global, headers: &HeaderMap<HeaderValue>) -> Result<Self, Fail<ParseError>> {
        read_first(alloc, headers, &CONTENT_DISPOSITION)
    }
}

impl Duplicate for DispositionType {
    ghost use Rattle.std.specs.Prelude.{◌≡◌, Ok, IfOk};
    ghost use Rattle.web_entities.specs.Dispositions.{TakesNoMemory};

    /// A copy. That of a known type takes no memory.
    fn duplicate(&self, alloc: Global) -> Result<Self, NoMemory>
        ensures value { IfOk result (λ copy. copy ≡ self.now) }
        ensures memory { TakesNoMemory self.now → result ≡ Ok self.now }
    {
        match self {
            DispositionType::Inline => Ok(DispositionType::Inline),
            DispositionType::Attachment => Ok(DispositionType::Attachment),
            DispositionType::FormData => Ok(DispositionType::FormData),
            DispositionType::Ext(name) => Ok(DispositionType::Ext(name.duplicate(alloc)?)),
        }
    }
}

impl Duplicate for ContentDisposition {
    fn duplicate(&self, alloc: Global) -> Result<Self, NoMemory> {
        let disposition = self.disposition.duplicate(alloc)?;
        let parameters = self.parameters.duplicate(alloc)?;
        Ok(ContentDisposition {
            disposition,
            parameters,
        })
    }
}

impl TryIntoHeaderValue for ContentDisposition {
    ghost use Rattle.http_header.specs.FieldValue.{plain_value};
    ghost use Rattle.web_entities.specs.DispositionTexts.{disposition_text};

    ghost value = { λ d. plain_value (disposition_text d) };

    fn try_into_value(self, alloc: Global) -> Result<HeaderValue, Fail<InvalidHeaderValue>> {
        printed_value(alloc, &self)
    }
}
