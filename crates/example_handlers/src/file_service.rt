//! What a file service sends where a part of a file is asked for.
use http_header::{HeaderMap, HeaderValue};
use std::alloc::Global;
use web_entities::{ContentRange, ContentRangeSpec, Range};
use web_headers::Header;
use web_negotiate::prelude::*;
use web_texts::{Fail, NoMemory, ParseError};

/// What a file service sends.
#[derive(Debug, Drop, PartialEq, Eq)]
pub enum Sent {
    /// The whole file, with status 200.
    Whole,
    /// The bytes from the first to the second position, both of them included, with status 206 and
    /// this Content-Range.
    Part(u64, u64, ContentRange),
    /// No byte, with status 416 and this Content-Range.
    Nothing(ContentRange),
}

/// What to send of a file of this length. A Range that cannot be read, one of another unit, and one
/// of several parts count as none, as RFC 9110, section 14.2, allows.
pub fn part_to_send(
    alloc: Global,
    headers: &HeaderMap<HeaderValue>,
    length: u64,
) -> Result<Sent, NoMemory> {
    match Range::parse(alloc, headers) {
        Ok(Range::Bytes(specs)) => match specs.as_slice() {
            [spec] => Ok(described(spec.to_satisfiable_range(length), length)),
            _ => Ok(Sent::Whole),
        },
        Ok(Range::Unregistered(_, _)) | Err(Fail::Of(ParseError::Header)) => Ok(Sent::Whole),
        Err(Fail::NoMemory) => Err(NoMemory),
    }
}

/// The positions with the Content-Range that says them.
fn described(range: Option<(u64, u64)>, length: u64) -> Sent {
    let content_range = ContentRange(ContentRangeSpec::Bytes {
        range,
        instance_length: Some(length),
    });
    match range {
        Some((first, last)) => Sent::Part(first, last, content_range),
        None => Sent::Nothing(content_range),
    }
}
