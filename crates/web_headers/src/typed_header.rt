//! Headers with a type of their own.
ghost use Rattle.std.specs.Prelude.{◌≡◌, ℕ, List, Option};
ghost use Rattle.http_header.specs.HeaderMap.{get_all};
ghost use Rattle.web_texts.specs.HeaderTexts.{value_bytes};
ghost use Rattle.web_headers.specs.TypedHeaders.{ReadsAs};

use http_header::{HeaderMap, HeaderName, HeaderValue};
use std::alloc::Global;
use web_texts::{Fail, ParseError};

/// A header with a type of its own, which is read from all values of its name.
pub trait Header: Sized {
    /// What the values of the header's name, in order, say: `Some` of a typed value, or `None`.
    ghost says: { List (List ℕ) → Option Self → Type 0 };

    /// The header's name, in lower case.
    ghost called: { List ℕ };

    /// The header's name.
    fn name() -> HeaderName
        ensures { result ≡ called };

    /// Reads the header from a header map. `ParseError::Header` comes exactly where the values say
    /// no value of this type, `NoMemory` where allocation failed.
    fn parse(alloc: Global, headers: &HeaderMap<HeaderValue>) -> Result<Self, Fail<ParseError>>
        ensures { ReadsAs (says (value_bytes (get_all headers.now called))) result };
}
