//! Accept-Language.

use crate::accepts::preferences::Preference;
use crate::list_reader::read_list;
use crate::printed_list::fmt_comma_delimited;
use crate::typed_header::Header;
use http_header::{ACCEPT_LANGUAGE, HeaderMap, HeaderName, HeaderValue};
use std::alloc::Global;
use std::fmt;
use std::ops::{Deref, DerefMut};
use web_texts::{
    Duplicate, Fail, InvalidHeaderValue, Items, LanguageTag, NoMemory, ParseError, QualityItem,
    TryIntoHeaderValue, printed_value,
};

/// Accept-Language (RFC 9110, section 12.5.4): the languages that a client prefers, in order.
#[derive(Debug, Drop, PartialEq, Eq)]
pub struct AcceptLanguage(pub Items<QualityItem<Preference<LanguageTag>>>);

impl Header for AcceptLanguage {
    ghost use Rattle.std.specs.Prelude.{◌≡◌, codes};
    ghost use Rattle.std.specs.Option.{option_map};
    ghost use Rattle.web_headers.specs.ListHeaders.{accept_language_of};

    ghost says = { λ values said.
        option_map (λ header. header.0) said ≡ accept_language_of values };

    ghost called = { codes "accept-language" };

    fn name() -> HeaderName {
        ACCEPT_LANGUAGE
    }

    fn parse(alloc: Global, headers: &HeaderMap<HeaderValue>) -> Result<Self, Fail<ParseError>> {
        Ok(AcceptLanguage(read_list(alloc, headers, &ACCEPT_LANGUAGE)?))
    }
}

impl fmt::Display for AcceptLanguage {
    ghost use Rattle.std.specs.Prelude.{Some};
    ghost use Rattle.web_headers.specs.ListHeaders.{accept_language_text};

    ghost output = { λ header. Some (accept_language_text header.0) };

    fn fmt<W: fmt::Write>(&self, f: &mut fmt::Formatter<W>) -> fmt::Result {
        fmt_comma_delimited(f, self.0.as_slice())
    }
}

impl TryIntoHeaderValue for AcceptLanguage {
    ghost use Rattle.http_header.specs.FieldValue.{plain_value};
    ghost use Rattle.web_headers.specs.ListHeaders.{accept_language_text};

    ghost value = { λ header. plain_value (accept_language_text header.0) };

    fn try_into_value(self, alloc: Global) -> Result<HeaderValue, Fail<InvalidHeaderValue>> {
        printed_value(alloc, &self)
    }
}

impl Duplicate for AcceptLanguage {
    fn duplicate(&self, alloc: Global) -> Result<AcceptLanguage, NoMemory> {
        Ok(AcceptLanguage(self.0.duplicate(alloc)?))
    }
}

impl Deref for AcceptLanguage {
    ghost use Rattle.std.specs.Prelude.{◌≡◌};

    type Target = Items<QualityItem<Preference<LanguageTag>>>;

    ghost deref_gives = { λ header items. items ≡ header.0 };

    fn deref(&self) -> &Items<QualityItem<Preference<LanguageTag>>> {
        &self.0
    }
}

impl DerefMut for AcceptLanguage {
    ghost use Rattle.std.specs.Prelude.{◌≡◌};
    ghost use Rattle.std.specs.Borrow.{Lends, sem};
    ghost use Rattle.web_headers.specs.contracts.accepts.accept_language.AcceptLanguage.{the_row};
    ghost use Rattle.web_texts.specs.contracts.texts.items.Items as items;
    ghost use Rattle.web_texts.specs.contracts.media.quality_item.QualityItem as quality_item;
    ghost use Rattle.web_headers.specs.contracts.accepts.preferences.Preference as preference;
    ghost use Rattle.web_texts.specs.contracts.media.language_tag.LanguageTag as tag;

    ghost deref_mut_gives = { λ header items. items ≡ header.0 };

    fn deref_mut(&mut self) -> &mut Items<QualityItem<Preference<LanguageTag>>>
        ensures* writes_back { sem 𝓛 (Lends the_row
            (items.the_row (quality_item.the_row (preference.the_row tag.the_row)))
            self.entry result (λ x. record { 0 = x })) }
        ensures shows { result.now ≡ self.old.0 }
    {
        &mut self.0
    }
}
