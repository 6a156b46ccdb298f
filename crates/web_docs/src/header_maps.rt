//! The headers that a document is sent with.
ghost use Rattle.std.specs.Prelude.{◌≡◌, ◌∷◌, [], IfOk, OnOk, codes};
ghost use Rattle.http_header.specs.FieldValue.{plain_value};
ghost use Rattle.http_header.specs.HeaderMap.{insert};

use http_header::{
    ACCEPT_RANGES, CONTENT_RANGE, CONTENT_TYPE, ETAG, HeaderMap, HeaderName, HeaderValue,
    LAST_MODIFIED,
};
use std::alloc::Global;
use web_texts::NoMemory;

/// Sets a header. A map without room counts as one without memory: no reply has so many headers.
pub fn put(
    headers: &mut HeaderMap<HeaderValue>,
    name: HeaderName,
    value: HeaderValue,
) -> Result<(), NoMemory>
    ensures { OnOk result (headers.new ≡ insert headers.old name value) }
{
    match headers.insert(name, value) {
        Ok(_) => Ok(()),
        Err(_) => Err(NoMemory),
    }
}

/// The headers of a 304, of these values of ETag and Last-Modified.
pub fn validator_map(
    alloc: Global,
    tag: &HeaderValue,
    modified: &HeaderValue,
) -> Result<HeaderMap<HeaderValue>, NoMemory>
    ensures { IfOk result (λ map. map
        ≡ (codes "etag", tag.now ∷ []) ∷ (codes "last-modified", modified.now ∷ []) ∷ []) }
{
    let mut map = HeaderMap::empty(alloc);
    put(&mut map, ETAG, tag.clone()?)?;
    put(&mut map, LAST_MODIFIED, modified.clone()?)?;
    Ok(map)
}

/// The headers of a document, of these values of Content-Type, ETag and Last-Modified.
pub fn whole_map(
    alloc: Global,
    media_type: HeaderValue,
    tag: HeaderValue,
    modified: HeaderValue,
) -> Result<HeaderMap<HeaderValue>, NoMemory>
    ensures { IfOk result (λ map. map ≡ (codes "accept-ranges", plain_value (codes "bytes") ∷ [])
        ∷ (codes "content-type", media_type ∷ [])
        ∷ (codes "etag", tag ∷ []) ∷ (codes "last-modified", modified ∷ []) ∷ []) }
{
    let mut map = HeaderMap::empty(alloc);
    put(&mut map, ACCEPT_RANGES, HeaderValue::from_static("bytes"))?;
    put(&mut map, CONTENT_TYPE, media_type)?;
    put(&mut map, ETAG, tag)?;
    put(&mut map, LAST_MODIFIED, modified)?;
    Ok(map)
}

/// A copy of headers, with this value of Content-Range.
pub fn with_range(
    headers: &HeaderMap<HeaderValue>,
    range: HeaderValue,
) -> Result<HeaderMap<HeaderValue>, NoMemory>
    ensures { IfOk result (λ map. map ≡ insert headers.now (codes "content-range") range) }
{
    let mut map = headers.clone()?;
    put(&mut map, CONTENT_RANGE, range)?;
    Ok(map)
}

/// The headers of a document with an empty Content-Range after them.
pub fn part_map(whole: &HeaderMap<HeaderValue>) -> Result<HeaderMap<HeaderValue>, NoMemory>
    ensures { IfOk result (λ map. map
        ≡ insert whole.now (codes "content-range") (plain_value [])) }
{
    let map = with_range(whole, HeaderValue::from_static(""))?;
    Ok(map)
}
