//! Language tags.
ghost use Rattle.std.specs.Prelude.{◌≡◌, None};
ghost use Rattle.std.specs.Char.{is_ascii_alphabetic, is_ascii_alphanumeric};
ghost use Rattle.std.specs.List.{list_all, slice_split};
ghost use Rattle.web_texts.specs.LanguageTags.{is_hyphen, language_tag_of};
ghost use Rattle.web_texts.specs.LanguageTags.{is_subtag as is_subtag_spec};
ghost use Rattle.web_texts.specs.LanguageTags.{is_language_tag as is_language_tag_spec};
ghost use Rattle.web_texts.specs.TextReaders.{NeverNoMemory, Reads};

use crate::errors::{ParseError, TagFault};
use crate::grammar::cut::{cut_first, split_once_at};
use crate::grammar::readers::ReadText;
use crate::memory::duplicate::Duplicate;
use crate::memory::{Fail, NoMemory};
use crate::texts::text::Text;
use std::alloc::Global;
use std::fmt;
use std::marker::Model;

/// A language tag, as `en` or `zh-Hant-TW`: subtags of 1 to 8 letters or digits with `-` between
/// them, the first one of letters (a part of what RFC 5646, section 2.1, asks). Tags are compared
/// without regard to case, and printed as they were read. Contracts see the text.
#[derive(Debug, Drop)]
pub struct LanguageTag {
    text: Text,
}

impl Model for LanguageTag {
    ghost use Rattle.std.specs.Prelude.{List, ℕ, ◌≡◌, true};
    ghost use Rattle.web_texts.specs.LanguageTags.{is_language_tag};

    ghost Value = { List ℕ };

    ghost view = { λ t. t.text };

    ghost invariant = { λ t. is_language_tag t.text ≡ true };
}

fn are_letters(text: &[u8]) -> bool
    ensures { result ≡ list_all is_ascii_alphabetic text.now }
{
    text.iter().all(|b| b.is_ascii_alphabetic())
}

fn are_alphanumeric(text: &[u8]) -> bool
    ensures { result ≡ list_all is_ascii_alphanumeric text.now }
{
    text.iter().all(|b| b.is_ascii_alphanumeric())
}

fn is_subtag(text: &[u8]) -> bool
    ensures { result ≡ is_subtag_spec text.now }
{
    if text.is_empty() || text.len() > 8 {
        return false;
    }
    are_alphanumeric(text)
}

fn are_subtags(text: &[u8]) -> bool
    ensures { result ≡ list_all is_subtag_spec (slice_split is_hyphen text.now) }
{
    let mut rest = text;
    'subtags: loop {
        match split_once_at(rest, b'-') {
            Some((subtag, behind)) => {
                if !is_subtag(subtag) {
                    return false;
                }
                rest = behind;
            }
            None => return is_subtag(rest),
        }
    }
}

fn is_language_tag(text: &[u8]) -> bool
    ensures { result ≡ is_language_tag_spec text.now }
{
    let (first, _) = cut_first(text, b'-');
    are_letters(first) && are_subtags(text)
}

impl LanguageTag {
    /// Reads a tag. Returns `TagFault` where the text is none, which takes no memory.
    pub fn parse(alloc: Global, text: &str) -> Result<LanguageTag, Fail<TagFault>>
        ensures value { Reads result (language_tag_of text.now) }
        ensures memory { language_tag_of text.now ≡ None → NeverNoMemory result }
    {
        if !is_language_tag(text.as_bytes()) {
            return Err(Fail::Of(TagFault));
        }
        Ok(LanguageTag {
            text: Text::of(alloc, text)?,
        })
    }

    /// The text of the tag, as it was read.
    pub fn as_str(&self) -> &str
        ensures { result.now ≡ self.now }
    {
        self.text.as_str()
    }
}

impl ReadText for LanguageTag {
    ghost use Rattle.web_texts.specs.LanguageTags.{language_tag_of};

    ghost reads = { language_tag_of };

    fn parse(alloc: Global, text: &str) -> Result<LanguageTag, Fail<ParseError>> {
        match LanguageTag::parse(alloc, text) {
            Ok(tag) => Ok(tag),
            Err(Fail::NoMemory) => Err(Fail::NoMemory),
            Err(Fail::Of(TagFault)) => Err(Fail::Of(ParseError::Header)),
        }
    }
}

impl Duplicate for LanguageTag {
    fn duplicate(&self, alloc: Global) -> Result<LanguageTag, NoMemory> {
        Ok(LanguageTag {
            text: self.text.duplicate(alloc)?,
        })
    }
}

impl PartialEq for LanguageTag {
    ghost use Rattle.std.specs.Ordering.{on};
    ghost use Rattle.std.specs.Str.{bytes_eq, str_to_ascii_lowercase};
    ghost use Rattle.std.proofs.Common.{rules};
    ghost use Rattle.std.specs.Cmp.Rules.{comparing};

    ghost eq = { on str_to_ascii_lowercase bytes_eq };

    ghost laws = { Prim.search (rules, comparing) };

    fn eq(&self, other: &LanguageTag) -> bool {
        self.as_str().eq_ignore_ascii_case(other.as_str())
    }
}

impl Eq for LanguageTag {
    ghost use Rattle.std.proofs.Common.{rules};
    ghost use Rattle.std.specs.Cmp.Rules.{comparing};

    ghost laws = { Prim.search (rules, comparing) };
}

impl fmt::Display for LanguageTag {
    ghost use Rattle.std.specs.Prelude.{Some};

    ghost output = { λ t. Some t };

    fn fmt<W: fmt::Write>(&self, f: &mut fmt::Formatter<W>) -> fmt::Result {
        f.write_str(self.as_str())
    }
}
