//! Readers of the values of a header.
ghost use Rattle.std.specs.Prelude.{◌≡◌};
ghost use Rattle.std.specs.Option.{option_map, option_and_then, option_copied};
ghost use Rattle.http_header.specs.HeaderMap.{get_all};
ghost use Rattle.web_texts.specs.TextReaders.{Reads, ReadsBy};
ghost use Rattle.web_texts.specs.HeaderTexts.{value_bytes, header_text_of};
ghost use Rattle.web_headers.specs.HeaderReaders.{one_text_of, one_value_of, piece_list_of};
ghost use Rattle.web_headers.specs.HeaderReaders.{comma_list_of};

use http_header::{HeaderMap, HeaderName, HeaderValue};
use std::alloc::Global;
use web_texts::{Fail, Mode, ParseError, ReadText, first_text, header_text, push_pieces};

/// The one mode of a list that is cut at each comma.
#[derive(Clone, Copy, Debug, PartialEq, Eq)]
pub struct EachComma;

impl Mode for EachComma {
    ghost use Rattle.std.proofs.Common.{lit<};
    ghost use Rattle.web_headers.specs.HeaderReaders.{each_comma};

    ghost rule = { each_comma };

    fn first() -> Self {
        EachComma
    }

    fn ends(self, b: u8) -> bool {
        b == b','
    }

    fn behind(self, _b: u8) -> Self {
        self
    }

    ghost ascii = { lit< tt };
}

fn raw_text(value: Option<&HeaderValue>) -> Option<&str>
    ensures { option_map (λ text. text.now) result
        ≡ option_and_then (λ v. header_text_of v.bytes) (option_copied value.entry) }
{
    match value {
        Some(value) => header_text(value),
        None => None,
    }
}

fn read_one<T: ReadText + Drop>(alloc: Global, text: Option<&str>) -> Result<T, Fail<ParseError>>
    ensures { Reads result (one_text_of T.reads (option_copied text.entry)) }
{
    match text {
        Some(text) if !text.is_empty() => T::parse(alloc, text),
        _ => Err(Fail::Of(ParseError::Header)),
    }
}

/// Reads a header of one value: the first of this name, untrimmed. `ParseError::Header` comes where
/// there is none, or where it is empty, no header text or not readable.
pub fn from_one_value<T: ReadText + Drop>(
    alloc: Global,
    headers: &HeaderMap<HeaderValue>,
    name: &HeaderName,
) -> Result<T, Fail<ParseError>>
    ensures { Reads result (one_value_of T.reads (value_bytes (get_all headers.now name.now))) }
{
    read_one(alloc, first_text(headers, name))
}

/// Reads one value, untrimmed. `ParseError::Header` comes where there is none, or where it is
/// empty, no header text or not readable.
pub fn from_one_raw_str<T: ReadText + Drop>(
    alloc: Global,
    value: Option<&HeaderValue>,
) -> Result<T, Fail<ParseError>>
    ensures { Reads result (one_text_of T.reads
        (option_and_then (λ v. header_text_of v.bytes) (option_copied value.entry))) }
{
    read_one(alloc, raw_text(value))
}

/// Reads the items of all values of this name, cut where the modes say. Blanks around an item are
/// taken off; empty items, and items that cannot be read, are left out. `ParseError::Header` comes
/// where a value is no header text.
pub fn from_pieces<M: Mode, T: ReadText + Drop>(
    alloc: Global,
    headers: &HeaderMap<HeaderValue>,
    name: &HeaderName,
) -> Result<Vec<T>, Fail<ParseError>>
    ensures { ReadsBy (λ v. v.items) result
        (piece_list_of M.rule T.reads (value_bytes (get_all headers.now name.now))) }
{
    let mut out = Vec::new(alloc);
    for value in headers.get_all(name) {
        let Some(text) = header_text(value) else {
            return Err(Fail::Of(ParseError::Header));
        };
        push_pieces::<M, T>(alloc, &mut out, text)?;
    }
    Ok(out)
}

/// Reads the items of all values of this name, cut at each comma (RFC 9110, section 5.6.1), also
/// at one in quoted text. Blanks around an item are taken off; empty items, and items that cannot
/// be read, are left out. `ParseError::Header` comes where a value is no header text.
pub fn from_comma_delimited<T: ReadText + Drop>(
    alloc: Global,
    headers: &HeaderMap<HeaderValue>,
    name: &HeaderName,
) -> Result<Vec<T>, Fail<ParseError>>
    ensures { ReadsBy (λ v. v.items) result
        (comma_list_of T.reads (value_bytes (get_all headers.now name.now))) }
{
    from_pieces::<EachComma, T>(alloc, headers, name)
}
