//! Accept-Charset.

use crate::list_reader::read_list;
use crate::printed_list::fmt_comma_delimited;
use crate::typed_header::Header;
use http_header::{ACCEPT_CHARSET, HeaderMap, HeaderName, HeaderValue};
use std::alloc::Global;
use std::fmt;
use std::ops::{Deref, DerefMut};
use web_texts::{
    Charset, Duplicate, Fail, InvalidHeaderValue, Items, NoMemory, ParseError, QualityItem,
    TryIntoHeaderValue, printed_value,
};

/// Accept-Charset (RFC 9110, section 12.5.2): the charsets that a client accepts, in order.
#[derive(Debug, Drop, PartialEq, Eq)]
pub struct AcceptCharset(pub Items<QualityItem<Charset>>);

impl Header for AcceptCharset {
    ghost use Rattle.std.specs.Prelude.{◌≡◌, codes};
    ghost use Rattle.std.specs.Option.{option_map};
    ghost use Rattle.web_headers.specs.ListHeaders.{accept_charset_of};

    ghost says = { λ values said.
        option_map (λ header. header.0) said ≡ accept_charset_of values };

    ghost called = { codes "accept-charset" };

    fn name() -> HeaderName {
        ACCEPT_CHARSET
    }

    fn parse(alloc: Global, headers: &HeaderMap<HeaderValue>) -> Result<Self, Fail<ParseError>> {
        Ok(AcceptCharset(read_list(alloc, headers, &ACCEPT_CHARSET)?))
    }
}

impl fmt::Display for AcceptCharset {
    ghost use Rattle.std.specs.Prelude.{Some};
    ghost use Rattle.web_headers.specs.ListHeaders.{quality_texts};

    ghost output = { λ header. Some (quality_texts header.0) };

    fn fmt<W: fmt::Write>(&self, f: &mut fmt::Formatter<W>) -> fmt::Result {
        fmt_comma_delimited(f, self.0.as_slice())
    }
}

impl TryIntoHeaderValue for AcceptCharset {
    ghost use Rattle.http_header.specs.FieldValue.{plain_value};
    ghost use Rattle.web_headers.specs.ListHeaders.{quality_texts};

    ghost value = { λ header. plain_value (quality_texts header.0) };

    fn try_into_value(self, alloc: Global) -> Result<HeaderValue, Fail<InvalidHeaderValue>> {
        printed_value(alloc, &self)
    }
}

impl Duplicate for AcceptCharset {
    fn duplicate(&self, alloc: Global) -> Result<AcceptCharset, NoMemory> {
        Ok(AcceptCharset(self.0.duplicate(alloc)?))
    }
}

impl Deref for AcceptCharset {
    ghost use Rattle.std.specs.Prelude.{◌≡◌};

    type Target = Items<QualityItem<Charset>>;

    ghost deref_gives = { λ header items. items ≡ header.0 };

    fn deref(&self) -> &Items<QualityItem<Charset>> {
        &self.0
    }
}

impl DerefMut for AcceptCharset {
    ghost use Rattle.std.specs.Prelude.{◌≡◌};
    ghost use Rattle.std.specs.Borrow.{Lends, sem};
    ghost use Rattle.web_headers.specs.contracts.accepts.accept_charset.AcceptCharset.{the_row};
    ghost use Rattle.web_texts.specs.contracts.texts.items.Items as items;
    ghost use Rattle.web_texts.specs.contracts.media.quality_item.QualityItem as quality_item;
    ghost use Rattle.web_texts.specs.contracts.media.charsets.Charset as charset;

    ghost deref_mut_gives = { λ header items. items ≡ header.0 };

    fn deref_mut(&mut self) -> &mut Items<QualityItem<Charset>>
        ensures* writes_back { sem 𝓛 (Lends the_row
            (items.the_row (quality_item.the_row charset.the_row))
            self.entry result (λ x. record { 0 = x })) }
        ensures shows { result.now ≡ self.old.0 }
    {
        &mut self.0
    }
}
