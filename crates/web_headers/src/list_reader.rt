//! Readers of the headers that are lists.
ghost use Rattle.http_header.specs.HeaderMap.{get_all};
ghost use Rattle.web_texts.specs.TextReaders.{Reads};
ghost use Rattle.web_texts.specs.HeaderTexts.{value_bytes};
ghost use Rattle.web_headers.specs.HeaderReaders.{comma_list_of};
ghost use Rattle.web_headers.specs.ListHeaders.{some_list_of};

use crate::value_readers::from_comma_delimited;
use http_header::{HeaderMap, HeaderName, HeaderValue};
use std::alloc::Global;
use web_texts::{Fail, Items, ParseError, ReadText};

/// Reads a list that may be empty.
pub(crate) fn read_list<T: ReadText + Drop>(
    alloc: Global,
    headers: &HeaderMap<HeaderValue>,
    name: &HeaderName,
) -> Result<Items<T>, Fail<ParseError>>
    ensures { Reads result (comma_list_of T.reads (value_bytes (get_all headers.now name.now))) }
{
    let items = from_comma_delimited(alloc, headers, name)?;
    Ok(Items::of(items))
}

/// Reads a list that is refused where no item is left.
pub(crate) fn read_some_list<T: ReadText + Drop>(
    alloc: Global,
    headers: &HeaderMap<HeaderValue>,
    name: &HeaderName,
) -> Result<Items<T>, Fail<ParseError>>
    ensures { Reads result (some_list_of T.reads (value_bytes (get_all headers.now name.now))) }
{
    let items: Vec<T> = from_comma_delimited(alloc, headers, name)?;
    if items.is_empty() {
        return Err(Fail::Of(ParseError::Header));
    }
    Ok(Items::of(items))
}
