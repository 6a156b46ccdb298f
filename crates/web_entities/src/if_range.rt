//! If-Range.
ghost use Rattle.web_headers.specs.TypedHeaders.{ReadsAs};
ghost use Rattle.web_entities.specs.IfRanges.{TextSays};

use crate::entity::EntityTag;
use http_header::{HeaderMap, HeaderName, HeaderValue, IF_RANGE};
use httpdate::HttpDate;
use std::alloc::Global;
use std::fmt;
use web_headers::{Header, TryIntoHeaderValue, printed_value};
use web_texts::{Duplicate, Fail, InvalidHeaderValue, NoMemory, ParseError, ReadText, first_text};

/// The version of which a request wants a range (RFC 9110, section 13.1.5). The first value is
/// read, untrimmed, as a tag, and else as a date in one of the three formats. `ParseError::Header`
/// comes where it is neither, and without the header.
#[derive(Debug, Drop, PartialEq, Eq)]
pub enum IfRange {
    /// The version with this tag.
    EntityTag(EntityTag),
    /// The version that was last modified at this second.
    Date(HttpDate),
}

fn read_text(alloc: Global, text: &str) -> Result<IfRange, Fail<ParseError>>
    ensures { ReadsAs (TextSays text.now) result }
{
    match EntityTag::parse(alloc, text) {
        Ok(tag) => Ok(IfRange::EntityTag(tag)),
        Err(Fail::NoMemory) => Err(Fail::NoMemory),
        Err(Fail::Of(_)) => match HttpDate::parse_ascii(text.as_bytes()) {
            Ok(date) => Ok(IfRange::Date(date)),
            Err(_) => Err(Fail::Of(ParseError::Header)),
        },
    }
}

impl Header for IfRange {
    ghost use Rattle.std.specs.Prelude.{codes};
    ghost use Rattle.web_entities.specs.IfRanges.{IfRangeSays};

    ghost says = { IfRangeSays };

    ghost called = { codes "if-range" };

    fn name() -> HeaderName {
        IF_RANGE
    }

    fn parse(alloc: Global, headers: &HeaderMap<HeaderValue>) -> Result<Self, Fail<ParseError>> {
        match first_text(headers, &IF_RANGE) {
            Some(text) => read_text(alloc, text),
            None => Err(Fail::Of(ParseError::Header)),
        }
    }
}

impl Duplicate for IfRange {
    ghost use Rattle.std.specs.Prelude.{◌≡◌, Ok, IfOk};
    ghost use Rattle.web_entities.specs.IfRanges.{TakesNoMemory};

    /// A copy. That of a date takes no memory.
    fn duplicate(&self, alloc: Global) -> Result<Self, NoMemory>
        ensures value { IfOk result (λ copy. copy ≡ self.now) }
        ensures memory { TakesNoMemory self.now → result ≡ Ok self.now }
    {
        match self {
            IfRange::EntityTag(tag) => Ok(IfRange::EntityTag(tag.duplicate(alloc)?)),
            IfRange::Date(date) => Ok(IfRange::Date(*date)),
        }
    }
}

impl fmt::Display for IfRange {
    ghost use Rattle.std.specs.Prelude.{Some};
    ghost use Rattle.web_entities.specs.IfRanges.{if_range_text};

    ghost output = { λ r. Some (if_range_text r) };

    fn fmt<W: fmt::Write>(&self, f: &mut fmt::Formatter<W>) -> fmt::Result {
        match self {
            IfRange::EntityTag(tag) => write!(f, "{tag}"),
            IfRange::Date(date) => write!(f, "{date}"),
        }
    }
}

impl TryIntoHeaderValue for IfRange {
    ghost use Rattle.http_header.specs.FieldValue.{plain_value};
    ghost use Rattle.web_entities.specs.IfRanges.{if_range_text};

    ghost value = { λ r. plain_value (if_range_text r) };

    fn try_into_value(self, alloc: Global) -> Result<HeaderValue, Fail<InvalidHeaderValue>> {
        printed_value(alloc, &self)
    }
}
