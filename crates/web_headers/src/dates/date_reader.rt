//! Headers of one date.
ghost use Rattle.http_header.specs.HeaderMap.{get_all};
ghost use Rattle.web_headers.specs.DateHeaders.{ValuesSayDate};
ghost use Rattle.web_texts.specs.HeaderTexts.{value_bytes};
ghost use Rattle.web_texts.specs.TextReaders.{NeverNoMemory};
ghost use Rattle.web_headers.specs.TypedHeaders.{ReadsAs};

use http_header::{HeaderMap, HeaderName, HeaderValue};
use httpdate::HttpDate;
use web_texts::{Fail, ParseError, first_text};

/// Reads a header of one date (RFC 9110, section 5.6.7): the first value of this name, untrimmed,
/// in one of the three formats. `ParseError::Header` comes where there is none, or where it is
/// another text, and `NoMemory` never.
pub fn from_one_date(
    headers: &HeaderMap<HeaderValue>,
    name: &HeaderName,
) -> Result<HttpDate, Fail<ParseError>>
    ensures says { ReadsAs (ValuesSayDate (λ d. d) (value_bytes (get_all headers.now name.now)))
        result }
    ensures memory { NeverNoMemory result }
{
    let Some(text) = first_text(headers, name) else {
        return Err(Fail::Of(ParseError::Header));
    };
    match HttpDate::parse_ascii(text.as_bytes()) {
        Ok(date) => Ok(date),
        Err(_) => Err(Fail::Of(ParseError::Header)),
    }
}
