//! If-Match.
ghost use Rattle.std.specs.Prelude.{◌≡◌, codes};
ghost use Rattle.std.specs.Option.{option_map};
ghost use Rattle.http_header.specs.HeaderMap.{get_all};
ghost use Rattle.web_texts.specs.HeaderTexts.{value_bytes};
ghost use Rattle.web_entities.specs.ListedTags.{if_there, lists_strongly};
ghost use Rattle.web_entities.specs.TagLists.{if_match_of};

use crate::entity::{Comparison, EntityTag};
use crate::tag_list::{fmt_tags, is_listed, read_tags, says_any};
use http_header::{HeaderMap, HeaderName, HeaderValue, IF_MATCH};
use std::alloc::Global;
use std::fmt;
use web_headers::{Header, TryIntoHeaderValue, printed_value};
use web_texts::{Duplicate, Fail, InvalidHeaderValue, Items, NoMemory, ParseError};

/// The request is for one of these versions of the resource
/// (RFC 9110, section 13.1.1). Without the header it reads as an empty list, and what is no tag is
/// left out. `ParseError::Header` comes where a value of a list is no header text.
#[derive(Debug, Drop, PartialEq, Eq)]
pub enum IfMatch {
    /// Any version: `*`.
    Any,
    /// The versions with these tags.
    Items(Items<EntityTag>),
}

impl Header for IfMatch {
    ghost use Rattle.std.specs.Prelude.{◌≡◌, codes, IsTrue};
    ghost use Rattle.http_header.specs.HeaderMap.{get_all};
    ghost use Rattle.web_texts.specs.HeaderTexts.{value_bytes};
    ghost use Rattle.web_texts.specs.TextReaders.{NeverNoMemory};
    ghost use Rattle.web_headers.specs.TypedHeaders.{ReadsAs};
    ghost use Rattle.web_entities.specs.TagLists.{if_match_of, is_any};

    ghost says = { λ values said. if_match_of values ≡ said };

    ghost called = { codes "if-match" };

    fn name() -> HeaderName {
        IF_MATCH
    }

    /// Reads the header. `*` takes no memory.
    fn parse(alloc: Global, headers: &HeaderMap<HeaderValue>) -> Result<Self, Fail<ParseError>>
        ensures says { ReadsAs (λ said.
            if_match_of (value_bytes (get_all headers.now (codes "if-match"))) ≡ said) result }
        ensures memory { IsTrue (is_any (value_bytes (get_all headers.now (codes "if-match"))))
            → NeverNoMemory result }
    {
        if says_any(headers, &IF_MATCH) {
            return Ok(IfMatch::Any);
        }
        match read_tags(alloc, headers, &IF_MATCH) {
            Ok(tags) => Ok(IfMatch::Items(tags)),
            Err(refused) => Err(refused),
        }
    }
}

impl IfMatch {
    /// Whether the header lists this tag: `*`, or a tag that is strongly equal to it. `None` where
    /// the header is absent or cannot be read. Tags are tested where they stand: reading the header
    /// and testing each of its tags gives the same, but keeps them.
    pub fn lists(headers: &HeaderMap<HeaderValue>, tag: &EntityTag) -> Option<bool>
        ensures { result ≡ option_map (lists_strongly tag.now) (if_there if_match_of
            (value_bytes (get_all headers.now (codes "if-match")))) }
    {
        is_listed(headers, &IF_MATCH, Comparison::Strong, tag)
    }
}

impl Duplicate for IfMatch {
    ghost use Rattle.std.specs.Prelude.{◌≡◌, Ok, IfOk};
    ghost use Rattle.web_entities.specs.declared.if_match.IfMatch.TheVariants as kind;

    /// A copy. That of `Any` takes no memory.
    fn duplicate(&self, alloc: Global) -> Result<Self, NoMemory>
        ensures value { IfOk result (λ copy. copy ≡ self.now) }
        ensures memory { self.now ≡ kind.Any → result ≡ Ok self.now }
    {
        match self {
            IfMatch::Any => Ok(IfMatch::Any),
            IfMatch::Items(tags) => Ok(IfMatch::Items(tags.duplicate(alloc)?)),
        }
    }
}

impl fmt::Display for IfMatch {
    ghost use Rattle.std.specs.Prelude.{Some};
    ghost use Rattle.web_entities.specs.TagLists.{if_match_text};

    ghost output = { λ m. Some (if_match_text m) };

    fn fmt<W: fmt::Write>(&self, f: &mut fmt::Formatter<W>) -> fmt::Result {
        match self {
            IfMatch::Any => f.write_str("*"),
            IfMatch::Items(tags) => fmt_tags(f, tags.as_slice()),
        }
    }
}

impl TryIntoHeaderValue for IfMatch {
    ghost use Rattle.http_header.specs.FieldValue.{plain_value};
    ghost use Rattle.web_entities.specs.TagLists.{if_match_text};

    ghost value = { λ m. plain_value (if_match_text m) };

    fn try_into_value(self, alloc: Global) -> Result<HeaderValue, Fail<InvalidHeaderValue>> {
        printed_value(alloc, &self)
    }
}
