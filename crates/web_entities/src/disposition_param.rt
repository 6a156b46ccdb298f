//! Parameters of a disposition.
ghost use Rattle.std.specs.Prelude.{◌≡◌, IfOk, Option};
ghost use Rattle.std.specs.Option.{option_map, option_copied, is_some};
ghost use Rattle.web_texts.specs.TextReaders.{Reads};
ghost use Rattle.web_entities.specs.Dispositions.{plain_param, extended_param, named_param};
ghost use Rattle.web_entities.specs.Dispositions.{plain_value_of, quoted_value_of, trimmed_param};
ghost use Rattle.web_entities.specs.DispositionParts.{name_of, filename_of, unknown_of};
ghost use Rattle.web_entities.specs.DispositionParts.{filename_ext_of, unknown_ext_of};
ghost use Rattle.web_entities.specs.DispositionParts.{first_match as first_match_lem};
ghost use Rattle.web_entities.specs.declared.disposition_param.DispositionParam.{DispositionParam};

use crate::disposition_places::Inside;
use std::alloc::Global;
use web_texts::{
    Duplicate, ExtendedValue, Fail, NoMemory, ParseError, ReadText, Text, cut_at, first_piece,
    trim, unescape,
};

/// A parameter of a disposition (RFC 6266, section 4.1). The names `name` and `filename` are known
/// in any ASCII case.
#[derive(Debug, Drop, PartialEq, Eq)]
pub enum DispositionParam {
    /// `name`, of a field of a form (RFC 7578, section 4.2). It is printed without quotes: a
    /// semicolon in a name from outside ends it, and what follows is another parameter.
    /// `DispositionParam::checked_name` refuses such a name.
    Name(Text),
    /// `filename`, the name of a file.
    Filename(Text),
    /// `filename*`, the same as an extended value.
    FilenameExt(ExtendedValue),
    /// Another name, and its value.
    Unknown(Text, Text),
    /// Another name, without the asterisk at its end, and its extended value.
    UnknownExt(Text, ExtendedValue),
}

/// What is looked for in a parameter.
pub trait ParamPart {
    type Value;

    ghost value: { Self → DispositionParam → Option Self.Value };

    fn value<'p>(&self, param: &'p DispositionParam) -> Option<&'p Self::Value>
        ensures { option_copied result ≡ value self.now param.now };
}

/// The value of `name`.
#[derive(Clone, Copy)]
pub struct NamePart;

impl ParamPart for NamePart {
    ghost use Rattle.web_entities.specs.DispositionParts.{name_of};

    type Value = Text;

    ghost value = { λ _ param. name_of param };

    fn value<'p>(&self, param: &'p DispositionParam) -> Option<&'p Text> {
        match param {
            DispositionParam::Name(value) => Some(value),
            _ => None,
        }
    }
}

/// The value of `filename`.
#[derive(Clone, Copy)]
pub struct FilenamePart;

impl ParamPart for FilenamePart {
    ghost use Rattle.web_entities.specs.DispositionParts.{filename_of};

    type Value = Text;

    ghost value = { λ _ param. filename_of param };

    fn value<'p>(&self, param: &'p DispositionParam) -> Option<&'p Text> {
        match param {
            DispositionParam::Filename(value) => Some(value),
            _ => None,
        }
    }
}

/// The value of another name.
#[derive(Clone, Copy)]
pub struct UnknownPart<'n>(pub &'n str);

impl<'n> ParamPart for UnknownPart<'n> {
    ghost use Rattle.web_entities.specs.DispositionParts.{unknown_of};

    type Value = Text;

    ghost value = { λ part param. unknown_of part.0.now param };

    fn value<'p>(&self, param: &'p DispositionParam) -> Option<&'p Text> {
        match param {
            DispositionParam::Unknown(name, value) if name.as_str().eq_ignore_ascii_case(self.0) =>
                { Some(value) }
            _ => None,
        }
    }
}

/// The value of `filename*`.
#[derive(Clone, Copy)]
pub struct FilenameExtPart;

impl ParamPart for FilenameExtPart {
    ghost use Rattle.web_entities.specs.DispositionParts.{filename_ext_of};

    type Value = ExtendedValue;

    ghost value = { λ _ param. filename_ext_of param };

    fn value<'p>(&self, param: &'p DispositionParam) -> Option<&'p ExtendedValue> {
        match param {
            DispositionParam::FilenameExt(value) => Some(value),
            _ => None,
        }
    }
}

/// The extended value of another name.
#[derive(Clone, Copy)]
pub struct UnknownExtPart<'n>(pub &'n str);

impl<'n> ParamPart for UnknownExtPart<'n> {
    ghost use Rattle.web_entities.specs.DispositionParts.{unknown_ext_of};

    type Value = ExtendedValue;

    ghost value = { λ part param. unknown_ext_of part.0.now param };

    fn value<'p>(&self, param: &'p DispositionParam) -> Option<&'p ExtendedValue> {
        match param {
            DispositionParam::UnknownExt(name, value)
                if name.as_str().eq_ignore_ascii_case(self.0) => { Some(value) }
            _ => None,
        }
    }
}

/// What the first parameter has in which there is something.
pub fn first_match<'p, P: ParamPart>(
    params: &'p [DispositionParam],
    part: &P,
) -> Option<&'p P::Value>
    ensures { option_copied result ≡ first_match_lem (P.ParamPart.value part.now) params.now }
{
    let mut rest = params;
    while let Some((param, later)) = rest.split_first() {
        if let Some(value) = part.value(param) {
            return Some(value);
        }
        rest = later;
    }
    None
}

/// A text that was found.
pub fn found_text(found: Option<&Text>) -> Option<&str>
    ensures { option_map (λ text. text.now) result ≡ option_copied found.entry }
{
    match found {
        Some(text) => Some(text.as_str()),
        None => None,
    }
}

impl DispositionParam {
    /// The value of a `Name`.
    pub fn as_name(&self) -> Option<&str>
        ensures { option_map (λ text. text.now) result ≡ name_of self.now }
    {
        found_text(NamePart.value(self))
    }

    /// The value of a `Filename`.
    pub fn as_filename(&self) -> Option<&str>
        ensures { option_map (λ text. text.now) result ≡ filename_of self.now }
    {
        found_text(FilenamePart.value(self))
    }

    /// The value of an `Unknown` of this name, which is compared in any ASCII case.
    pub fn as_unknown(&self, name: &str) -> Option<&str>
        ensures { option_map (λ text. text.now) result ≡ unknown_of name.now self.now }
    {
        found_text(UnknownPart(name).value(self))
    }

    /// The value of a `FilenameExt`.
    pub fn as_filename_ext(&self) -> Option<&ExtendedValue>
        ensures { option_copied result ≡ filename_ext_of self.now }
    {
        FilenameExtPart.value(self)
    }

    /// The value of an `UnknownExt` of this name, which is compared in any ASCII case.
    pub fn as_unknown_ext(&self, name: &str) -> Option<&ExtendedValue>
        ensures { option_copied result ≡ unknown_ext_of name.now self.now }
    {
        UnknownExtPart(name).value(self)
    }

    /// Whether this is a `Name`.
    pub fn is_name(&self) -> bool
        ensures { result ≡ is_some (name_of self.now) }
    {
        self.as_name().is_some()
    }

    /// Whether this is a `Filename`.
    pub fn is_filename(&self) -> bool
        ensures { result ≡ is_some (filename_of self.now) }
    {
        self.as_filename().is_some()
    }

    /// Whether this is a `FilenameExt`.
    pub fn is_filename_ext(&self) -> bool
        ensures { result ≡ is_some (filename_ext_of self.now) }
    {
        self.as_filename_ext().is_some()
    }

    /// Whether this is an `Unknown` of this name, in any ASCII case.
    pub fn is_unknown(&self, name: &str) -> bool
        ensures { result ≡ is_some (unknown_of name.now self.now) }
    {
        self.as_unknown(name).is_some()
    }

    /// Whether this is an `UnknownExt` of this name, in any ASCII case.
    pub fn is_unknown_ext(&self, name: &str) -> bool
        ensures { result ≡ is_some (unknown_ext_of name.now self.now) }
    {
        self.as_unknown_ext(name).is_some()
    }
}

fn duplicate_pair<T: Duplicate>(
    alloc: Global,
    name: &Text,
    value: &T,
) -> Result<(Text, T), NoMemory>
    ensures { IfOk result (λ copies. copies ≡ (name.now, value.now)) }
{
    let name = name.duplicate(alloc)?;
    Ok((name, value.duplicate(alloc)?))
}

impl Duplicate for DispositionParam {
    fn duplicate(&self, alloc: Global) -> Result<Self, NoMemory> {
        match self {
            DispositionParam::Name(value) => Ok(DispositionParam::Name(value.duplicate(alloc)?)),
            DispositionParam::Filename(value) => {
                Ok(DispositionParam::Filename(value.duplicate(alloc)?))
            }
            DispositionParam::FilenameExt(value) => {
                Ok(DispositionParam::FilenameExt(value.duplicate(alloc)?))
            }
            DispositionParam::Unknown(name, value) => {
                let (name, value) = duplicate_pair(alloc, name, value)?;
                Ok(DispositionParam::Unknown(name, value))
            }
            DispositionParam::UnknownExt(name, value) => {
                let (name, value) = duplicate_pair(alloc, name, value)?;
                Ok(DispositionParam::UnknownExt(name, value))
            }
        }
    }
}

fn make_plain(alloc: Global, name: &str, value: Text) -> Result<DispositionParam, NoMemory>
    ensures { IfOk result (λ made. made ≡ plain_param name.now value) }
{
    if name.eq_ignore_ascii_case("name") {
        return Ok(DispositionParam::Name(value));
    }
    if name.eq_ignore_ascii_case("filename") {
        return Ok(DispositionParam::Filename(value));
    }
    Ok(DispositionParam::Unknown(Text::of(alloc, name)?, value))
}

fn make_extended(
    alloc: Global,
    name: &str,
    value: ExtendedValue,
) -> Result<DispositionParam, NoMemory>
    ensures { IfOk result (λ made. made ≡ extended_param name.now value) }
{
    if name.eq_ignore_ascii_case("filename") {
        return Ok(DispositionParam::FilenameExt(value));
    }
    Ok(DispositionParam::UnknownExt(Text::of(alloc, name)?, value))
}

/// Reads quoted text after its opening quote. What follows the closing quote is skipped.
fn read_quoted(alloc: Global, text: &str) -> Result<Text, Fail<ParseError>>
    ensures { Reads result (quoted_value_of text.now) }
{
    let (inner, behind) = first_piece::<Inside>(text);
    match behind {
        Some(_) => Ok(unescape(alloc, inner)?),
        None => Err(Fail::Of(ParseError::Header)),
    }
}

fn read_value(alloc: Global, value: &str) -> Result<Text, Fail<ParseError>>
    ensures { Reads result (plain_value_of value.now) }
{
    if value.starts_with('"') {
        read_quoted(alloc, &value[1..])
    } else {
        Ok(Text::of(alloc, value)?)
    }
}

fn read_named(alloc: Global, name: &str, value: &str) -> Result<DispositionParam, Fail<ParseError>>
    ensures { Reads result (named_param name.now value.now) }
{
    if name.ends_with('*') {
        let value = <ExtendedValue as ReadText>::parse(alloc, value)?;
        return Ok(make_extended(alloc, &name[..name.len() - 1], value)?);
    }
    let value = read_value(alloc, value)?;
    Ok(make_plain(alloc, name, value)?)
}

fn read_trimmed(
    alloc: Global,
    name: &str,
    value: &str,
) -> Result<DispositionParam, Fail<ParseError>>
    ensures { Reads result (trimmed_param name.now value.now) }
{
    if name.is_empty() || value.is_empty() || name == "*" {
        return Err(Fail::Of(ParseError::Header));
    }
    read_named(alloc, name, value)
}

impl ReadText for DispositionParam {
    ghost use Rattle.web_entities.specs.Dispositions.{param_of};

    ghost reads = { param_of };

    fn parse(alloc: Global, text: &str) -> Result<Self, Fail<ParseError>> {
        match cut_at(text, b'=') {
            Some((name, value)) => read_trimmed(alloc, trim(name), trim(value)),
            None => Err(Fail::Of(ParseError::Header)),
        }
    }
}
