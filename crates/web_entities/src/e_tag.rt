//! ETag.
use crate::entity::EntityTag;
use http_header::{ETAG, HeaderMap, HeaderName, HeaderValue};
use std::alloc::Global;
use std::fmt;
use std::ops::{Deref, DerefMut};
use web_headers::{Header, TryIntoHeaderValue, from_one_value, printed_value};
use web_texts::{Duplicate, Fail, InvalidHeaderValue, NoMemory, ParseError};

/// The tag of the version that a response is about (RFC 9110, section 8.8.3).
#[derive(Debug, Drop, PartialEq, Eq)]
pub struct ETag(pub EntityTag);

impl Header for ETag {
    ghost use Rattle.std.specs.Prelude.{◌≡◌, codes};
    ghost use Rattle.std.specs.Option.{option_map};
    ghost use Rattle.web_headers.specs.HeaderReaders.{one_value_of};
    ghost use Rattle.web_entities.specs.EntityTags.{tag_of};

    ghost says = { λ values said. one_value_of tag_of values ≡ option_map (λ e. e.0) said };

    ghost called = { codes "etag" };

    fn name() -> HeaderName {
        ETAG
    }

    fn parse(alloc: Global, headers: &HeaderMap<HeaderValue>) -> Result<Self, Fail<ParseError>> {
        match from_one_value::<EntityTag>(alloc, headers, &ETAG) {
            Ok(tag) => Ok(ETag(tag)),
            Err(refused) => Err(refused),
        }
    }
}

impl Deref for ETag {
    ghost use Rattle.std.specs.Prelude.{◌≡◌};

    type Target = EntityTag;

    ghost deref_gives = { λ e tag. tag ≡ e.0 };

    fn deref(&self) -> &EntityTag {
        &self.0
    }
}

impl DerefMut for ETag {
    ghost use Rattle.std.specs.Prelude.{◌≡◌};
    ghost use Rattle.std.specs.Borrow.{Lends, sem};
    ghost use Rattle.web_entities.specs.contracts.e_tag.ETag.{the_row};
    ghost use Rattle.web_entities.specs.contracts.entity.EntityTag as entity_tag;

    ghost deref_mut_gives = { λ e tag. tag ≡ e.0 };

    fn deref_mut(&mut self) -> &mut EntityTag
        ensures* writes_back { sem 𝓛 (Lends the_row entity_tag.the_row self.entry result
            (λ tag. record { 0 = tag })) }
        ensures shows { result.now ≡ self.old.0 }
    {
        &mut self.0
    }
}

impl Duplicate for ETag {
    fn duplicate(&self, alloc: Global) -> Result<Self, NoMemory> {
        let tag = self.0.duplicate(alloc)?;
        Ok(ETag(tag))
    }
}

impl fmt::Display for ETag {
    ghost use Rattle.std.specs.Prelude.{Some};
    ghost use Rattle.web_entities.specs.EntityTags.{tag_text};

    ghost output = { λ e. Some (tag_text e.0) };

    fn fmt<W: fmt::Write>(&self, f: &mut fmt::Formatter<W>) -> fmt::Result {
        write!(f, "{}", self.0)
    }
}

impl TryIntoHeaderValue for ETag {
    ghost use Rattle.http_header.specs.FieldValue.{plain_value};
    ghost use Rattle.web_entities.specs.EntityTags.{tag_text};

    ghost value = { λ e. plain_value (tag_text e.0) };

    fn try_into_value(self, alloc: Global) -> Result<HeaderValue, Fail<InvalidHeaderValue>> {
        self.0.try_into_value(alloc)
    }
}
