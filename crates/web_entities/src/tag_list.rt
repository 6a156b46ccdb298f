//! Lists of entity tags.
ghost use Rattle.std.specs.Prelude.{◌≡◌, flat_map};
ghost use Rattle.std.specs.Fmt.{WritesOnOk};
ghost use Rattle.std.specs.List.{list_any};
ghost use Rattle.http_header.specs.HeaderMap.{get_all};
ghost use Rattle.web_texts.specs.TextReaders.{ReadsBy};
ghost use Rattle.web_texts.specs.HeaderTexts.{header_text, value_bytes};
ghost use Rattle.web_texts.specs.PieceItems.{item_of_piece};
ghost use Rattle.web_texts.specs.Pieces.{pieces};
ghost use Rattle.web_headers.specs.PrintedLists.{comma_joined};
ghost use Rattle.web_entities.specs.EntityTags.{equals, tag_of, tag_text};
ghost use Rattle.web_entities.specs.ListedTags.{listed, listed_tags};
ghost use Rattle.web_entities.specs.TagLists.{is_any, is_star, outside_quotes, tag_list_of};
ghost use Rattle.web_entities.specs.declared.tag_list.Quotes.TheVariants as quotes;

use crate::entity::{Comparison, EntityTag};
use http_header::{HeaderMap, HeaderName, HeaderValue};
use std::alloc::Global;
use std::fmt;
use web_headers::{fmt_comma_delimited, from_pieces};
use web_texts::{Fail, Items, Mode, ParseError, first_piece, first_text, header_text, trim};

/// Whether the number of double quotes so far is even.
#[derive(Clone, Copy, Debug, PartialEq, Eq)]
pub enum Quotes {
    /// It is even.
    Even,
    /// It is odd: the place is inside of quotes.
    Odd,
}

impl Mode for Quotes {
    ghost use Rattle.std.proofs.Common.{lit<};
    ghost use Rattle.web_entities.specs.TagLists.{outside_quotes};

    ghost rule = { outside_quotes };

    fn first() -> Self {
        Quotes::Even
    }

    fn ends(self, b: u8) -> bool {
        match self {
            Quotes::Even => b == b',',
            Quotes::Odd => false,
        }
    }

    fn behind(self, b: u8) -> Self {
        match (self, b) {
            (Quotes::Even, b'"') => Quotes::Odd,
            (Quotes::Odd, b'"') => Quotes::Even,
            _ => self,
        }
    }

    ghost ascii = { lit< tt };
}

/// Whether the first value of this name is `*`, without the blanks around it.
pub fn says_any(headers: &HeaderMap<HeaderValue>, name: &HeaderName) -> bool
    ensures { result ≡ is_any (value_bytes (get_all headers.now name.now)) }
{
    match first_text(headers, name) {
        Some(text) => trim(text) == "*",
        None => false,
    }
}

/// Reads the tags of all values of this name.
pub fn read_tags(
    alloc: Global,
    headers: &HeaderMap<HeaderValue>,
    name: &HeaderName,
) -> Result<Items<EntityTag>, Fail<ParseError>>
    ensures { ReadsBy (λ tags. tags) result
        (tag_list_of (value_bytes (get_all headers.now name.now))) }
{
    let tags = from_pieces::<Quotes, EntityTag>(alloc, headers, name)?;
    Ok(Items::of(tags))
}

/// Whether a value is `*`, without the blanks around it.
fn is_any_value(value: &HeaderValue) -> bool
    ensures { result ≡ is_star (header_text value.now) }
{
    match header_text(value) {
        Some(text) => trim(text) == "*",
        None => false,
    }
}

/// Whether what stands in a piece is a tag that equals this one.
fn is_listed_in_piece(piece: &str, comparison: Comparison, tag: &EntityTag) -> bool
    ensures { result ≡ list_any (λ t. equals comparison t tag.now)
        (item_of_piece tag_of piece.now) }
{
    let item = trim(piece);
    if item.is_empty() {
        return false;
    }
    match tag.equals_text(comparison, item) {
        Some(is_equal) => is_equal,
        None => false,
    }
}

/// Whether a text lists a tag that equals this one.
fn is_listed_in_text(text: &str, comparison: Comparison, tag: &EntityTag) -> bool
    ensures { result ≡ list_any (λ t. equals comparison t tag.now)
        (flat_map (item_of_piece tag_of) (pieces outside_quotes quotes.Even text.now)) }
{
    let mut rest = text;
    'parts: loop {
        let (part, behind) = first_piece::<Quotes>(rest);
        if is_listed_in_piece(part, comparison, tag) {
            return true;
        }
        match behind {
            Some(behind) => rest = behind,
            None => return false,
        }
    }
}

/// Whether the values of this name list a tag that equals this one. `None` where one is no header
/// text.
fn is_listed_in_values(
    headers: &HeaderMap<HeaderValue>,
    name: &HeaderName,
    comparison: Comparison,
    tag: &EntityTag,
) -> Option<bool>
    ensures { result ≡ listed_tags (equals comparison) tag.now
        (value_bytes (get_all headers.now name.now)) }
{
    let mut is_listed = false;
    for value in headers.get_all(name) {
        let text = header_text(value)?;
        is_listed = is_listed || is_listed_in_text(text, comparison, tag);
    }
    Some(is_listed)
}

/// Whether the header of this name is `*`, or lists a tag that equals this one. `None` where it is
/// absent, or where a value of a list is no header text. Tags are tested where they stand, and none
/// is kept.
pub fn is_listed(
    headers: &HeaderMap<HeaderValue>,
    name: &HeaderName,
    comparison: Comparison,
    tag: &EntityTag,
) -> Option<bool>
    ensures { result ≡ listed (equals comparison) tag.now
        (value_bytes (get_all headers.now name.now)) }
{
    let first = headers.get(name)?;
    if is_any_value(first) {
        return Some(true);
    }
    is_listed_in_values(headers, name, comparison, tag)
}

/// Prints the tags with `, ` between them.
pub fn fmt_tags<W: fmt::Write>(f: &mut fmt::Formatter<W>, tags: &[EntityTag]) -> fmt::Result
    ensures { WritesOnOk W.write_str_gives f.old result (comma_joined tag_text tags.now) f.new }
{
    fmt_comma_delimited(f, tags)
}
