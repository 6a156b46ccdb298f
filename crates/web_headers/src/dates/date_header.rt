//! Date.
ghost use Rattle.std.specs.Prelude.{◌≡◌};

use crate::dates::date_reader::from_one_date;
use crate::typed_header::Header;
use http_header::{DATE, HeaderMap, HeaderName, HeaderValue};
use httpdate::HttpDate;
use std::alloc::Global;
use std::fmt;
use std::ops::{Deref, DerefMut};
use web_texts::{Duplicate, Fail, InvalidHeaderValue, NoMemory, ParseError, TryIntoHeaderValue};

/// Date (RFC 9110, section 6.6.1): when a message was made. It is read in each of the three formats
/// of dates, and printed as IMF-fixdate (section 5.6.7).
#[derive(Clone, Copy, Debug, PartialEq, Eq)]
pub struct Date(pub HttpDate);

impl Date {
    /// The header of a moment, which is the one at which the caller asks.
    pub fn now(moment: HttpDate) -> Date
        ensures { result.0 ≡ moment }
    {
        Date(moment)
    }
}

impl Header for Date {
    ghost use Rattle.std.specs.Prelude.{codes};
    ghost use Rattle.http_header.specs.HeaderMap.{get_all};
    ghost use Rattle.web_headers.specs.DateHeaders.{ValuesSayDate};
    ghost use Rattle.web_texts.specs.HeaderTexts.{value_bytes};
    ghost use Rattle.web_texts.specs.TextReaders.{NeverNoMemory};
    ghost use Rattle.web_headers.specs.TypedHeaders.{ReadsAs};

    ghost says = { ValuesSayDate (λ header. header.0) };

    ghost called = { codes "date" };

    fn name() -> HeaderName {
        DATE
    }

    fn parse(_alloc: Global, headers: &HeaderMap<HeaderValue>) -> Result<Self, Fail<ParseError>>
        ensures says { ReadsAs (ValuesSayDate (λ header. header.0)
            (value_bytes (get_all headers.now (codes "date")))) result }
        ensures memory { NeverNoMemory result }
    {
        match from_one_date(headers, &DATE) {
            Ok(date) => Ok(Date(date)),
            Err(refused) => Err(refused),
        }
    }
}

impl fmt::Display for Date {
    ghost use Rattle.std.specs.Prelude.{Some};
    ghost use Rattle.httpdate.specs.Date.{date_text};

    ghost output = { λ header. Some (date_text header.0) };

    fn fmt<W: fmt::Write>(&self, f: &mut fmt::Formatter<W>) -> fmt::Result {
        write!(f, "{}", self.0)
    }
}

impl TryIntoHeaderValue for Date {
    ghost use Rattle.http_header.specs.FieldValue.{plain_value};
    ghost use Rattle.httpdate.specs.Date.{date_text};

    ghost value = { λ header. plain_value (date_text header.0) };

    fn try_into_value(self, alloc: Global) -> Result<HeaderValue, Fail<InvalidHeaderValue>> {
        self.0.try_into_value(alloc)
    }
}

impl Duplicate for Date {
    ghost use Rattle.std.specs.Prelude.{◌≡◌, Ok};

    fn duplicate(&self, _alloc: Global) -> Result<Date, NoMemory>
        ensures { result ≡ Ok self.now }
    {
        Ok(*self)
    }
}

impl Deref for Date {
    ghost use Rattle.std.specs.Prelude.{◌≡◌};

    type Target = HttpDate;

    ghost deref_gives = { λ header date. date ≡ header.0 };

    fn deref(&self) -> &HttpDate {
        &self.0
    }
}

impl DerefMut for Date {
    ghost use Rattle.std.specs.Prelude.{◌≡◌};
    ghost use Rattle.std.specs.Borrow.{Lends, sem};
    ghost use Rattle.web_headers.specs.contracts.dates.date_header.Date as own;
    ghost use Rattle.httpdate.specs.contracts.date.HttpDate as date;

    ghost deref_mut_gives = { λ header date. date ≡ header.0 };

    fn deref_mut(&mut self) -> &mut HttpDate
        ensures* writes_back { sem 𝓛 (Lends own.the_row date.the_row
            self.entry result (λ x. record { 0 = x })) }
        ensures shows { result.now ≡ self.old.0 }
    {
        &mut self.0
    }
}
