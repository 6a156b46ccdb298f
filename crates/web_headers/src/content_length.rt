//! Content-Length.
ghost use Rattle.std.specs.Prelude.{◌≡◌};

use crate::typed_header::Header;
use http_header::{CONTENT_LENGTH, HeaderMap, HeaderName, HeaderValue};
use std::alloc::Global;
use std::fmt;
use std::ops::{Deref, DerefMut};
use web_texts::{
    Duplicate, Fail, InvalidHeaderValue, NoMemory, ParseError, ReadText, TryIntoHeaderValue,
    first_text, read_digits, trim,
};

/// Content-Length (RFC 9110, section 8.6): the length of content, in bytes.
#[derive(Clone, Copy, Debug, PartialEq, Eq, PartialOrd, Ord)]
pub struct ContentLength(pub usize);

impl ContentLength {
    /// The length.
    pub fn into_inner(&self) -> usize
        ensures { result ≡ self.now.0 }
    {
        self.0
    }
}

impl From<usize> for ContentLength {
    ghost from_gives = { λ n header. header.0 ≡ n };

    fn from(length: usize) -> ContentLength {
        ContentLength(length)
    }
}

impl From<ContentLength> for usize {
    ghost from_gives = { λ header n. n ≡ header.0 };

    fn from(length: ContentLength) -> usize {
        length.0
    }
}

impl ReadText for ContentLength {
    ghost use Rattle.std.specs.Option.{option_map};
    ghost use Rattle.web_texts.specs.TextReaders.{Reads};
    ghost use Rattle.web_texts.specs.TextReaders.{NeverNoMemory};
    ghost use Rattle.web_headers.specs.ValueHeaders.{length_of};

    ghost reads = { λ text. option_map (λ n. record { 0 = n }) (length_of text) };

    /// Reads a number in decimal digits of at most 2^64 - 1, with blanks around it. `NoMemory`
    /// never comes.
    fn parse(_alloc: Global, text: &str) -> Result<ContentLength, Fail<ParseError>>
        ensures value { Reads result
            (option_map (λ n. record { 0 = n }) (length_of text.now)) }
        ensures memory { NeverNoMemory result }
    {
        match read_digits(trim(text), 18_446_744_073_709_551_615) {
            Some(length) => Ok(ContentLength(length as usize)),
            None => Err(Fail::Of(ParseError::Header)),
        }
    }
}

impl Header for ContentLength {
    ghost use Rattle.std.specs.Prelude.{◌≡◌, codes};
    ghost use Rattle.std.specs.Option.{option_map};
    ghost use Rattle.http_header.specs.HeaderMap.{get_all};
    ghost use Rattle.web_texts.specs.HeaderTexts.{value_bytes};
    ghost use Rattle.web_texts.specs.TextReaders.{NeverNoMemory};
    ghost use Rattle.web_headers.specs.TypedHeaders.{ReadsAs};
    ghost use Rattle.web_headers.specs.ValueHeaders.{content_length_of};

    ghost says = { λ values said.
        option_map (λ header. header.0) said ≡ content_length_of values };

    ghost called = { codes "content-length" };

    fn name() -> HeaderName {
        CONTENT_LENGTH
    }

    fn parse(alloc: Global, headers: &HeaderMap<HeaderValue>) -> Result<Self, Fail<ParseError>>
        ensures says { ReadsAs
            (λ said. option_map (λ header. header.0) said
            ≡ content_length_of (value_bytes (get_all headers.now (codes "content-length"))))
            result }
        ensures memory { NeverNoMemory result }
    {
        match first_text(headers, &CONTENT_LENGTH) {
            Some(text) => <ContentLength as ReadText>::parse(alloc, text),
            None => Err(Fail::Of(ParseError::Header)),
        }
    }
}

impl fmt::Display for ContentLength {
    ghost use Rattle.std.specs.Prelude.{Some, decimal};

    ghost output = { λ header. Some (decimal header.0) };

    fn fmt<W: fmt::Write>(&self, f: &mut fmt::Formatter<W>) -> fmt::Result {
        write!(f, "{}", self.0)
    }
}

impl TryIntoHeaderValue for ContentLength {
    ghost use Rattle.std.specs.Prelude.{decimal};
    ghost use Rattle.http_header.specs.FieldValue.{plain_value};

    ghost value = { λ header. plain_value (decimal header.0) };

    fn try_into_value(self, alloc: Global) -> Result<HeaderValue, Fail<InvalidHeaderValue>> {
        self.0.try_into_value(alloc)
    }
}

impl Duplicate for ContentLength {
    ghost use Rattle.std.specs.Prelude.{◌≡◌, Ok};

    fn duplicate(&self, _alloc: Global) -> Result<ContentLength, NoMemory>
        ensures { result ≡ Ok self.now }
    {
        Ok(*self)
    }
}

impl Deref for ContentLength {
    ghost use Rattle.std.specs.Prelude.{◌≡◌};

    type Target = usize;

    ghost deref_gives = { λ header n. n ≡ header.0 };

    fn deref(&self) -> &usize {
        &self.0
    }
}

impl DerefMut for ContentLength {
    ghost use Rattle.std.specs.Prelude.{◌≡◌};
    ghost use Rattle.std.specs.Borrow.{Lends, sem, usize};
    ghost use Rattle.web_headers.specs.contracts.content_length.ContentLength.{the_row};

    ghost deref_mut_gives = { λ header n. n ≡ header.0 };

    fn deref_mut(&mut self) -> &mut usize
        ensures* writes_back { sem 𝓛 (Lends the_row usize
            self.entry result (λ x. record { 0 = x })) }
        ensures shows { result.now ≡ self.old.0 }
    {
        &mut self.0
    }
}
