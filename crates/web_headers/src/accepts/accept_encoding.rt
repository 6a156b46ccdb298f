//! Accept-Encoding.

use crate::accepts::preferences::Preference;
use crate::codings::Encoding;
use crate::list_reader::read_list;
use crate::printed_list::fmt_comma_delimited;
use crate::typed_header::Header;
use http_header::{ACCEPT_ENCODING, HeaderMap, HeaderName, HeaderValue};
use std::alloc::Global;
use std::fmt;
use std::ops::{Deref, DerefMut};
use web_texts::{
    Duplicate, Fail, InvalidHeaderValue, Items, NoMemory, ParseError, QualityItem,
    TryIntoHeaderValue, printed_value,
};

/// Accept-Encoding (RFC 9110, section 12.5.3): the codings that a client accepts, in order.
#[derive(Debug, Drop, PartialEq, Eq)]
pub struct AcceptEncoding(pub Items<QualityItem<Preference<Encoding>>>);

impl Header for AcceptEncoding {
    ghost use Rattle.std.specs.Prelude.{◌≡◌, codes};
    ghost use Rattle.std.specs.Option.{option_map};
    ghost use Rattle.web_headers.specs.ListHeaders.{accept_encoding_of};

    ghost says = { λ values said.
        option_map (λ header. header.0) said ≡ accept_encoding_of values };

    ghost called = { codes "accept-encoding" };

    fn name() -> HeaderName {
        ACCEPT_ENCODING
    }

    fn parse(alloc: Global, headers: &HeaderMap<HeaderValue>) -> Result<Self, Fail<ParseError>> {
        Ok(AcceptEncoding(read_list(alloc, headers, &ACCEPT_ENCODING)?))
    }
}

impl fmt::Display for AcceptEncoding {
    ghost use Rattle.std.specs.Prelude.{Some};
    ghost use Rattle.web_headers.specs.ListHeaders.{accept_encoding_text};

    ghost output = { λ header. Some (accept_encoding_text header.0) };

    fn fmt<W: fmt::Write>(&self, f: &mut fmt::Formatter<W>) -> fmt::Result {
        fmt_comma_delimited(f, self.0.as_slice())
    }
}

impl TryIntoHeaderValue for AcceptEncoding {
    ghost use Rattle.http_header.specs.FieldValue.{plain_value};
    ghost use Rattle.web_headers.specs.ListHeaders.{accept_encoding_text};

    ghost value = { λ header. plain_value (accept_encoding_text header.0) };

    fn try_into_value(self, alloc: Global) -> Result<HeaderValue, Fail<InvalidHeaderValue>> {
        printed_value(alloc, &self)
    }
}

impl Duplicate for AcceptEncoding {
    fn duplicate(&self, alloc: Global) -> Result<AcceptEncoding, NoMemory> {
        Ok(AcceptEncoding(self.0.duplicate(alloc)?))
    }
}

impl Deref for AcceptEncoding {
    ghost use Rattle.std.specs.Prelude.{◌≡◌};

    type Target = Items<QualityItem<Preference<Encoding>>>;

    ghost deref_gives = { λ header items. items ≡ header.0 };

    fn deref(&self) -> &Items<QualityItem<Preference<Encoding>>> {
        &self.0
    }
}

impl DerefMut for AcceptEncoding {
    ghost use Rattle.std.specs.Prelude.{◌≡◌};
    ghost use Rattle.std.specs.Borrow.{Lends, sem};
    ghost use Rattle.web_headers.specs.contracts.accepts.accept_encoding.AcceptEncoding.{the_row};
    ghost use Rattle.web_texts.specs.contracts.texts.items.Items as items;
    ghost use Rattle.web_texts.specs.contracts.media.quality_item.QualityItem as quality_item;
    ghost use Rattle.web_headers.specs.contracts.accepts.preferences.Preference as preference;
    ghost use Rattle.web_headers.specs.contracts.codings.Encoding as encoding;

    ghost deref_mut_gives = { λ header items. items ≡ header.0 };

    fn deref_mut(&mut self) -> &mut Items<QualityItem<Preference<Encoding>>>
        ensures* writes_back { sem 𝓛 (Lends the_row
            (items.the_row (quality_item.the_row (preference.the_row encoding.the_row)))
            self.entry result (λ x. record { 0 = x })) }
        ensures shows { result.now ≡ self.old.0 }
    {
        &mut self.0
    }
}
