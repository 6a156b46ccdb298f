//! The first place of a text in bytes.
ghost use Rattle.std.specs.Prelude.{◌≡◌, ◌+◌, ◌<◌, ◌≤◌, IfSome, length, None};
ghost use Rattle.memchr.specs.Find.{Nowhere, OccursAt};
ghost use Rattle.web_multipart_parts.specs.Places.{IsSearched, place_of};

use memchr::{memchr, memmem};

/// To prepare a search for a text takes as long as to look through so many bytes for its first one.
const FEW: usize = 4096;

/// The first place of a text that is not empty.
pub fn place_in(bytes: &[u8], text: &[u8]) -> Option<usize>
    requires { 0 < length text.now }
    ensures place { result ≡ place_of text.now bytes.now }
    ensures fits { IfSome result (λ n. n + length text.now ≤ length bytes.now) }
{
    place_from(bytes, text, 0)
}

/// The same, where the text begins at none of the first `searched` places.
pub fn place_from(bytes: &[u8], text: &[u8], searched: usize) -> Option<usize>
    requires some { 0 < length text.now }
    requires searched { IsSearched text.now bytes.now searched }
    ensures place { result ≡ place_of text.now bytes.now }
    ensures fits { IfSome result (λ n. n + length text.now ≤ length bytes.now) }
{
    if bytes.len() - searched < FEW {
        return place_among_few(bytes, text, searched);
    }
    match memmem::find(&bytes[searched..], text) {
        Some(place) => Some(searched + place),
        None => None,
    }
}

/// The same, from one first byte of the text to the next.
fn place_among_few(bytes: &[u8], text: &[u8], searched: usize) -> Option<usize>
    requires some { 0 < length text.now }
    requires searched { IsSearched text.now bytes.now searched }
    ensures place { result ≡ place_of text.now bytes.now }
    ensures fits { IfSome result (λ n. n + length text.now ≤ length bytes.now) }
{
    let mut from = searched;
    while let Some(skipped) = memchr(text[0], &bytes[from..]) {
        let place = from + skipped;
        if bytes[place..].starts_with(text) {
            return Some(place);
        }
        from = place + 1;
    }
    None
}

/// How many places of these bytes need not be searched again for a text that stands at none.
pub fn places_searched(bytes: &[u8], text: &[u8]) -> usize
    requires some { 0 < length text.now }
    requires none { place_of text.now bytes.now ≡ None }
    ensures { IsSearched text.now bytes.now result }
{
    if bytes.len() < text.len() {
        return 0;
    }
    bytes.len() - text.len() + 1
}
