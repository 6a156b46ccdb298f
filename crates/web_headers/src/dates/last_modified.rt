//! Last-Modified.
use crate::dates::date_reader::from_one_date;
use crate::typed_header::Header;
use http_header::{HeaderMap, HeaderName, HeaderValue, LAST_MODIFIED};
use httpdate::HttpDate;
use std::alloc::Global;
use std::fmt;
use std::ops::{Deref, DerefMut};
use web_texts::{Duplicate, Fail, InvalidHeaderValue, NoMemory, ParseError, TryIntoHeaderValue};

/// Last-Modified (RFC 9110, section 8.8.2): when content was last changed. It is read in each of
/// the three formats of dates, and printed as IMF-fixdate (section 5.6.7).
#[derive(Clone, Copy, Debug, PartialEq, Eq)]
pub struct LastModified(pub HttpDate);

impl Header for LastModified {
    ghost use Rattle.std.specs.Prelude.{codes};
    ghost use Rattle.http_header.specs.HeaderMap.{get_all};
    ghost use Rattle.web_headers.specs.DateHeaders.{ValuesSayDate};
    ghost use Rattle.web_texts.specs.HeaderTexts.{value_bytes};
    ghost use Rattle.web_texts.specs.TextReaders.{NeverNoMemory};
    ghost use Rattle.web_headers.specs.TypedHeaders.{ReadsAs};

    ghost says = { ValuesSayDate (λ header. header.0) };

    ghost called = { codes "last-modified" };

    fn name() -> HeaderName {
        LAST_MODIFIED
    }

    fn parse(_alloc: Global, headers: &HeaderMap<HeaderValue>) -> Result<Self, Fail<ParseError>>
        ensures says { ReadsAs (ValuesSayDate (λ header. header.0)
            (value_bytes (get_all headers.now (codes "last-modified")))) result }
        ensures memory { NeverNoMemory result }
    {
        match from_one_date(headers, &LAST_MODIFIED) {
            Ok(date) => Ok(LastModified(date)),
            Err(refused) => Err(refused),
        }
    }
}

impl fmt::Display for LastModified {
    ghost use Rattle.std.specs.Prelude.{Some};
    ghost use Rattle.httpdate.specs.Date.{date_text};

    ghost output = { λ header. Some (date_text header.0) };

    fn fmt<W: fmt::Write>(&self, f: &mut fmt::Formatter<W>) -> fmt::Result {
        write!(f, "{}", self.0)
    }
}

impl TryIntoHeaderValue for LastModified {
    ghost use Rattle.http_header.specs.FieldValue.{plain_value};
    ghost use Rattle.httpdate.specs.Date.{date_text};

    ghost value = { λ header. plain_value (date_text header.0) };

    fn try_into_value(self, alloc: Global) -> Result<HeaderValue, Fail<InvalidHeaderValue>> {
        self.0.try_into_value(alloc)
    }
}

impl Duplicate for LastModified {
    ghost use Rattle.std.specs.Prelude.{◌≡◌, Ok};

    fn duplicate(&self, _alloc: Global) -> Result<LastModified, NoMemory>
        ensures { result ≡ Ok self.now }
    {
        Ok(*self)
    }
}

impl Deref for LastModified {
    ghost use Rattle.std.specs.Prelude.{◌≡◌};

    type Target = HttpDate;

    ghost deref_gives = { λ header date. date ≡ header.0 };

    fn deref(&self) -> &HttpDate {
        &self.0
    }
}

impl DerefMut for LastModified {
    ghost use Rattle.std.specs.Prelude.{◌≡◌};
    ghost use Rattle.std.specs.Borrow.{Lends, sem};
    ghost use Rattle.web_headers.specs.contracts.dates.last_modified.LastModified as own;
    ghost use Rattle.httpdate.specs.contracts.date.HttpDate as date;

    ghost deref_mut_gives = { λ header date. date ≡ header.0 };

    fn deref_mut(&mut self) -> &mut HttpDate
        ensures* writes_back { sem 𝓛 (Lends own.the_row date.the_row
            self.entry result (λ x. record { 0 = x })) }
        ensures shows { result.now ≡ self.old.0 }
    {
        &mut self.0
    }
}
