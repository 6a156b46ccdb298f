//! Content-Language.

use crate::list_reader::read_some_list;
use crate::printed_list::fmt_comma_delimited;
use crate::typed_header::Header;
use http_header::{CONTENT_LANGUAGE, HeaderMap, HeaderName, HeaderValue};
use std::alloc::Global;
use std::fmt;
use std::ops::{Deref, DerefMut};
use web_texts::{
    Duplicate, Fail, InvalidHeaderValue, Items, LanguageTag, NoMemory, ParseError, QualityItem,
    TryIntoHeaderValue, printed_value,
};

/// Content-Language (RFC 9110, section 8.5): the languages of those for whom content is meant.
/// Where it is read, at least one stands in it.
#[derive(Debug, Drop, PartialEq, Eq)]
pub struct ContentLanguage(pub Items<QualityItem<LanguageTag>>);

impl Header for ContentLanguage {
    ghost use Rattle.std.specs.Prelude.{◌≡◌, codes};
    ghost use Rattle.std.specs.Option.{option_map};
    ghost use Rattle.web_headers.specs.ListHeaders.{content_language_of};

    ghost says = { λ values said.
        option_map (λ header. header.0) said ≡ content_language_of values };

    ghost called = { codes "content-language" };

    fn name() -> HeaderName {
        CONTENT_LANGUAGE
    }

    fn parse(alloc: Global, headers: &HeaderMap<HeaderValue>) -> Result<Self, Fail<ParseError>> {
        Ok(ContentLanguage(read_some_list(alloc, headers, &CONTENT_LANGUAGE)?))
    }
}

impl fmt::Display for ContentLanguage {
    ghost use Rattle.std.specs.Prelude.{Some};
    ghost use Rattle.web_headers.specs.ListHeaders.{quality_texts};

    ghost output = { λ header. Some (quality_texts header.0) };

    fn fmt<W: fmt::Write>(&self, f: &mut fmt::Formatter<W>) -> fmt::Result {
        fmt_comma_delimited(f, self.0.as_slice())
    }
}

impl TryIntoHeaderValue for ContentLanguage {
    ghost use Rattle.http_header.specs.FieldValue.{plain_value};
    ghost use Rattle.web_headers.specs.ListHeaders.{quality_texts};

    ghost value = { λ header. plain_value (quality_texts header.0) };

    fn try_into_value(self, alloc: Global) -> Result<HeaderValue, Fail<InvalidHeaderValue>> {
        printed_value(alloc, &self)
    }
}

impl Duplicate for ContentLanguage {
    fn duplicate(&self, alloc: Global) -> Result<ContentLanguage, NoMemory> {
        Ok(ContentLanguage(self.0.duplicate(alloc)?))
    }
}

impl Deref for ContentLanguage {
    ghost use Rattle.std.specs.Prelude.{◌≡◌};

    type Target = Items<QualityItem<LanguageTag>>;

    ghost deref_gives = { λ header items. items ≡ header.0 };

    fn deref(&self) -> &Items<QualityItem<LanguageTag>> {
        &self.0
    }
}

impl DerefMut for ContentLanguage {
    ghost use Rattle.std.specs.Prelude.{◌≡◌};
    ghost use Rattle.std.specs.Borrow.{Lends, sem};
    ghost use Rattle.web_headers.specs.contracts.content_language.ContentLanguage.{the_row};
    ghost use Rattle.web_texts.specs.contracts.texts.items.Items as items;
    ghost use Rattle.web_texts.specs.contracts.media.quality_item.QualityItem as quality_item;
    ghost use Rattle.web_texts.specs.contracts.media.language_tag.LanguageTag as tag;

    ghost deref_mut_gives = { λ header items. items ≡ header.0 };

    fn deref_mut(&mut self) -> &mut Items<QualityItem<LanguageTag>>
        ensures* writes_back { sem 𝓛 (Lends the_row
            (items.the_row (quality_item.the_row tag.the_row))
            self.entry result (λ x. record { 0 = x })) }
        ensures shows { result.now ≡ self.old.0 }
    {
        &mut self.0
    }
}
