//! The names of header fields in order.
ghost use Rattle.std.specs.Prelude.{◌≡◌, ◌++◌, IfOk, map};
ghost use Rattle.http_header.specs.HeaderMap.{keys};
ghost use Rattle.web_request_log.specs.SortedNames.{sorted_names};

use http_header::{HeaderMap, HeaderName, HeaderValue};
use std::alloc::Global;
use web_texts::NoMemory;

/// The names of a map, sorted by their bytes. A map has each name once. Returns `NoMemory` where
/// allocation failed.
pub fn sorted_names(
    alloc: Global,
    headers: &HeaderMap<HeaderValue>,
) -> Result<Vec<&HeaderName>, NoMemory>
    ensures { IfOk result (λ names.
        map (λ n. n.now) names.items ≡ sorted_names (keys headers.now)) }
{
    let mut names = Vec::with_capacity(alloc, headers.keys_len())?;
    for name in headers.keys() {
        names.push(name)?;
    }
    names.sort_unstable_by(|a, b| a.as_str().cmp(b.as_str()));
    Ok(names)
}
