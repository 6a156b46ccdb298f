//! Content-Range.
ghost use Rattle.std.specs.Prelude.{◌≡◌, ◌++◌, IfOk, OnOk, decimal, string_bytes};
ghost use Rattle.web_texts.specs.Digits.{number_of};
ghost use Rattle.web_entities.specs.ContentRanges.{star_or, positions_of, bytes_range_of};
ghost use Rattle.web_entities.specs.ContentRanges.{content_range_text, length_text};
ghost use Rattle.web_entities.specs.ContentRanges.{positions_text};
ghost use Rattle.web_entities.specs.declared.content_range.ContentRangeSpec.TheVariants as kind;

use crate::ranges::{read_number, read_pair};
use http_header::{CONTENT_RANGE, HeaderMap, HeaderName, HeaderValue};
use itoa::Buffer;
use std::alloc::Global;
use std::fmt;
use std::ops::{Deref, DerefMut};
use web_headers::{Header, TryIntoHeaderValue, from_one_value, printed_value};
use web_texts::{
    Duplicate, Fail, InvalidHeaderValue, NoMemory, ParseError, ReadText, Text, cut_at,
};

/// Which part of a representation a response holds (RFC 9110, section 14.4). It is read from
/// `bytes RANGE/LENGTH`, where each may be `*` and numbers are digits alone up to 2^64 - 1, or from
/// another unit, a space, and any text.
#[derive(Debug, Drop, PartialEq, Eq)]
pub enum ContentRangeSpec {
    /// A range of bytes.
    Bytes {
        /// The first and the last byte, counted from 0, or nothing where the range cannot be
        /// satisfied. The reader has the first at most the last.
        range: Option<(u64, u64)>,
        /// The number of bytes of the whole representation, if it is known.
        instance_length: Option<u64>,
    },
    /// A range in another unit.
    Unregistered {
        /// The unit, up to the first space.
        unit: Text,
        /// The text after that space.
        resp: Text,
    },
}

/// A header of the part that a response holds (RFC 9110, section 14.4).
#[derive(Debug, Drop, PartialEq, Eq)]
pub struct ContentRange(pub ContentRangeSpec);

fn read_length(text: &str) -> Option<Option<u64>>
    ensures { result ≡ star_or number_of text.now }
{
    if text == "*" {
        return Some(None);
    }
    read_number(text).map(Some)
}

fn read_positions(text: &str) -> Option<(u64, u64)>
    ensures { result ≡ positions_of text.now }
{
    let (first, last) = cut_at(text, b'-')?;
    read_pair(first, last)
}

fn read_range(text: &str) -> Option<Option<(u64, u64)>>
    ensures { result ≡ star_or positions_of text.now }
{
    if text == "*" {
        return Some(None);
    }
    read_positions(text).map(Some)
}

fn read_bytes(text: &str) -> Option<ContentRangeSpec>
    ensures { result ≡ bytes_range_of text.now }
{
    let (range, len) = cut_at(text, b'/')?;
    let range = read_range(range)?;
    let instance_length = read_length(len)?;
    Some(ContentRangeSpec::Bytes {
        range,
        instance_length,
    })
}

impl ReadText for ContentRangeSpec {
    ghost use Rattle.std.specs.Prelude.{IfSome};
    ghost use Rattle.web_texts.specs.TextReaders.{NeverNoMemory, Reads};
    ghost use Rattle.web_entities.specs.ContentRanges.{content_range_of, TakesNoMemory};

    ghost reads = { content_range_of };

    /// Reads a value. Only one of another unit takes memory.
    fn parse(alloc: Global, text: &str) -> Result<Self, Fail<ParseError>>
        ensures value { Reads result (content_range_of text.now) }
        ensures memory { IfSome (content_range_of text.now) TakesNoMemory
            → NeverNoMemory result }
    {
        let Some((unit, resp)) = cut_at(text, b' ') else {
            return Err(Fail::Of(ParseError::Header));
        };
        if unit == "bytes" {
            return read_bytes(resp).ok_or(Fail::Of(ParseError::Header));
        }
        let unit = Text::of(alloc, unit)?;
        let resp = Text::of(alloc, resp)?;
        Ok(ContentRangeSpec::Unregistered { unit, resp })
    }
}

impl Header for ContentRange {
    ghost use Rattle.std.specs.Prelude.{◌≡◌, codes};
    ghost use Rattle.std.specs.Option.{option_map};
    ghost use Rattle.web_headers.specs.HeaderReaders.{one_value_of};
    ghost use Rattle.web_entities.specs.ContentRanges.{content_range_of};

    ghost says = { λ values said.
        one_value_of content_range_of values ≡ option_map (λ c. c.0) said };

    ghost called = { codes "content-range" };

    fn name() -> HeaderName {
        CONTENT_RANGE
    }

    fn parse(alloc: Global, headers: &HeaderMap<HeaderValue>) -> Result<Self, Fail<ParseError>> {
        match from_one_value::<ContentRangeSpec>(alloc, headers, &CONTENT_RANGE) {
            Ok(spec) => Ok(ContentRange(spec)),
            Err(refused) => Err(refused),
        }
    }
}

impl Deref for ContentRange {
    ghost use Rattle.std.specs.Prelude.{◌≡◌};

    type Target = ContentRangeSpec;

    ghost deref_gives = { λ c spec. spec ≡ c.0 };

    fn deref(&self) -> &ContentRangeSpec {
        &self.0
    }
}

impl DerefMut for ContentRange {
    ghost use Rattle.std.specs.Prelude.{◌≡◌};
    ghost use Rattle.std.specs.Borrow.{Lends, sem};
    ghost use Rattle.web_entities.specs.contracts.content_range.ContentRange.{the_row};
    ghost use Rattle.web_entities.specs.contracts.content_range.ContentRangeSpec as spec;

    ghost deref_mut_gives = { λ c spec. spec ≡ c.0 };

    fn deref_mut(&mut self) -> &mut ContentRangeSpec
        ensures* writes_back { sem 𝓛 (Lends the_row spec.the_row self.entry result
            (λ s. record { 0 = s })) }
        ensures shows { result.now ≡ self.old.0 }
    {
        &mut self.0
    }
}

impl Duplicate for ContentRangeSpec {
    ghost use Rattle.std.specs.Prelude.{◌≡◌, Ok, IfOk};
    ghost use Rattle.web_entities.specs.ContentRanges.{TakesNoMemory};

    /// A copy. That of a range of bytes takes no memory.
    fn duplicate(&self, alloc: Global) -> Result<Self, NoMemory>
        ensures value { IfOk result (λ copy. copy ≡ self.now) }
        ensures memory { TakesNoMemory self.now → result ≡ Ok self.now }
    {
        match self {
            ContentRangeSpec::Bytes {
                range,
                instance_length,
            } => Ok(ContentRangeSpec::Bytes {
                range: *range,
                instance_length: *instance_length,
            }),
            ContentRangeSpec::Unregistered { unit, resp } => {
                let unit = unit.duplicate(alloc)?;
                let resp = resp.duplicate(alloc)?;
                Ok(ContentRangeSpec::Unregistered { unit, resp })
            }
        }
    }
}

impl Duplicate for ContentRange {
    ghost use Rattle.std.specs.Prelude.{◌≡◌, Ok, IfOk};
    ghost use Rattle.web_entities.specs.ContentRanges.{TakesNoMemory};

    /// A copy. That of a range of bytes takes no memory.
    fn duplicate(&self, alloc: Global) -> Result<Self, NoMemory>
        ensures value { IfOk result (λ copy. copy ≡ self.now) }
        ensures memory { TakesNoMemory self.now.0 → result ≡ Ok self.now }
    {
        let spec = self.0.duplicate(alloc)?;
        Ok(ContentRange(spec))
    }
}

/// Two numbers with a dash between, or a star.
#[derive(Drop)]
struct Positions(Option<(u64, u64)>);

impl fmt::Display for Positions {
    ghost use Rattle.std.specs.Prelude.{Some};
    ghost use Rattle.web_entities.specs.ContentRanges.{positions_text};

    ghost output = { λ p. Some (positions_text p.0) };

    fn fmt<W: fmt::Write>(&self, f: &mut fmt::Formatter<W>) -> fmt::Result {
        match self.0 {
            Some((a, b)) => write!(f, "{a}-{b}"),
            None => f.write_str("*"),
        }
    }
}

/// A number, or a star.
#[derive(Drop)]
struct Length(Option<u64>);

impl fmt::Display for Length {
    ghost use Rattle.std.specs.Prelude.{Some};
    ghost use Rattle.web_entities.specs.ContentRanges.{length_text};

    ghost output = { λ n. Some (length_text n.0) };

    fn fmt<W: fmt::Write>(&self, f: &mut fmt::Formatter<W>) -> fmt::Result {
        match self.0 {
            Some(n) => write!(f, "{n}"),
            None => f.write_str("*"),
        }
    }
}

impl fmt::Display for ContentRangeSpec {
    ghost use Rattle.std.specs.Prelude.{Some};
    ghost use Rattle.web_entities.specs.ContentRanges.{content_range_text};

    ghost output = { λ r. Some (content_range_text r) };

    fn fmt<W: fmt::Write>(&self, f: &mut fmt::Formatter<W>) -> fmt::Result {
        match self {
            ContentRangeSpec::Bytes {
                range,
                instance_length,
            } => write!(
                f,
                "bytes {}/{}",
                Positions(*range),
                Length(*instance_length)
            ),
            ContentRangeSpec::Unregistered { unit, resp } => write!(f, "{unit} {resp}"),
        }
    }
}

impl fmt::Display for ContentRange {
    ghost use Rattle.std.specs.Prelude.{Some};
    ghost use Rattle.web_entities.specs.ContentRanges.{content_range_text};

    ghost output = { λ c. Some (content_range_text c.0) };

    fn fmt<W: fmt::Write>(&self, f: &mut fmt::Formatter<W>) -> fmt::Result {
        write!(f, "{}", self.0)
    }
}

fn push_number(text: &mut String, number: u64) -> Result<(), NoMemory>
    ensures { OnOk result (string_bytes text.new ≡ string_bytes text.old ++ decimal number) }
{
    let mut buffer = Buffer::new();
    Ok(text.push_str(buffer.format(number))?)
}

fn push_positions(text: &mut String, positions: Option<(u64, u64)>) -> Result<(), NoMemory>
    ensures { OnOk result (string_bytes text.new
        ≡ string_bytes text.old ++ positions_text positions) }
{
    let Some((first, last)) = positions else {
        return Ok(text.push_str("*")?);
    };
    push_number(text, first)?;
    text.push_str("-")?;
    push_number(text, last)
}

fn push_length(text: &mut String, length: Option<u64>) -> Result<(), NoMemory>
    ensures { OnOk result (string_bytes text.new ≡ string_bytes text.old ++ length_text length) }
{
    match length {
        Some(length) => push_number(text, length),
        None => Ok(text.push_str("*")?),
    }
}

/// The text of a range of bytes, in one allocation: three numbers have at most 60 digits.
fn bytes_text(
    alloc: Global,
    range: Option<(u64, u64)>,
    length: Option<u64>,
) -> Result<String, NoMemory>
    ensures { IfOk result (λ text.
        string_bytes text ≡ content_range_text (kind.Bytes range length)) }
{
    let mut text = String::with_capacity(alloc, 68)?;
    text.push_str("bytes ")?;
    push_positions(&mut text, range)?;
    text.push_str("/")?;
    push_length(&mut text, length)?;
    Ok(text)
}

impl TryIntoHeaderValue for ContentRangeSpec {
    ghost use Rattle.http_header.specs.FieldValue.{plain_value};
    ghost use Rattle.web_entities.specs.ContentRanges.{content_range_text};

    ghost value = { λ r. plain_value (content_range_text r) };

    fn try_into_value(self, alloc: Global) -> Result<HeaderValue, Fail<InvalidHeaderValue>> {
        match self {
            ContentRangeSpec::Bytes {
                range,
                instance_length,
            } => Text::from(bytes_text(alloc, range, instance_length)?).try_into_value(alloc),
            unregistered => printed_value(alloc, &unregistered),
        }
    }
}

impl TryIntoHeaderValue for ContentRange {
    ghost use Rattle.http_header.specs.FieldValue.{plain_value};
    ghost use Rattle.web_entities.specs.ContentRanges.{content_range_text};

    ghost value = { λ c. plain_value (content_range_text c.0) };

    fn try_into_value(self, alloc: Global) -> Result<HeaderValue, Fail<InvalidHeaderValue>> {
        self.0.try_into_value(alloc)
    }
}
