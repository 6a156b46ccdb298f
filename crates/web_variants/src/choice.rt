//! The choice among stored variants.
ghost use Rattle.std.specs.Prelude.{IfOk};
ghost use Rattle.web_negotiate.specs.Rankings.{IsFirstGreatest};
ghost use Rattle.web_variants.specs.Acceptance.{variant_rank};

use crate::accepted::read_accepted;
use crate::stored_variants::Variants;
use http_header::{HeaderMap, HeaderValue};
use std::alloc::Global;
use web_negotiate::place_of_greatest;
use web_texts::NoMemory;

/// The place of the variant that a client with these headers accepts most (RFC 9110, section
/// 12.1): the first of the greatest rank, from 0. `None` where no variant is acceptable. A header
/// that its reader refuses counts as absent. Each header is read once, and the variants are gone
/// through once. Returns `NoMemory` where allocation failed.
pub fn choose(
    alloc: Global,
    variants: &Variants,
    headers: &HeaderMap<HeaderValue>,
) -> Result<Option<usize>, NoMemory>
    ensures { IfOk result (λ place.
        IsFirstGreatest (variant_rank headers.now) variants.now place) }
{
    let accepted = read_accepted(alloc, headers)?;
    Ok(place_of_greatest(&accepted, variants.as_slice()))
}
