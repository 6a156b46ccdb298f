//! Stored variants.
ghost use Rattle.std.specs.Prelude.{◌≡◌, ◌<◌, IfOk, length, map, slice_index_or};
ghost use Rattle.web_texts.specs.Returns.{Returns, ReturnsBy};
ghost use Rattle.web_variants.specs.StoredVariants.{fault_at, first_fault, has_star as has_star_of};
ghost use Rattle.web_variants.specs.StoredVariants.{refusal, unless_refused, variant_headers};
ghost use Rattle.web_variants.specs.declared.stored_variants.Variant.{Variant as Stored};

use crate::printed_headers::printed_headers;
use bytes::Bytes;
use http_header::{HeaderMap, HeaderValue};
use std::alloc::Global;
use std::error::Error;
use std::fmt;
use std::marker::Model;
use web_headers::Encoding;
use web_texts::{Fail, InvalidHeaderValue, LanguageTag, Mime, NoMemory};

/// One variant of a page, as it is stored and sent (RFC 9110, section 12). Its body is in its
/// coding already: nothing is compressed.
#[derive(Drop)]
pub struct Variant {
    /// The media type of the content.
    pub media_type: Mime,
    /// The language of the content. `None` for one that suits all readers.
    pub language: Option<LanguageTag>,
    /// The coding that the body is in.
    pub coding: Encoding,
    /// The body.
    pub body: Bytes,
}

/// Why variants are not stored. Places count from 0.
#[derive(Clone, Copy, Debug, Drop, PartialEq, Eq)]
pub enum VariantFault {
    /// There are no variants.
    Empty,
    /// `*` is the type or the subtype of the variant at this place.
    Star { place: usize },
    /// The media type, the language or the coding of the variant at this place can be no header's
    /// value (RFC 9110, section 5.5).
    Value { place: usize },
}

impl fmt::Display for VariantFault {
    ghost use Rattle.std.specs.Prelude.{Some};
    ghost use Rattle.web_variants.specs.VariantFaultTexts.{variant_fault_text};

    ghost output = { λ fault. Some (variant_fault_text fault) };

    fn fmt<W: fmt::Write>(&self, f: &mut fmt::Formatter<W>) -> fmt::Result {
        match self {
            VariantFault::Empty => f.write_str("there are no variants"),
            VariantFault::Star { place } => write!(f, "the media type at {place} has a star"),
            VariantFault::Value { place } => {
                write!(
                    f,
                    "no header can have the type, language or coding at {place}"
                )
            }
        }
    }
}

impl Error for VariantFault {}

/// The variants of one page, each with the headers that it is sent with. Contracts see the list of
/// the variants.
#[derive(Drop)]
pub struct Variants {
    variants: Vec<Variant>,
    headers: Vec<HeaderMap<HeaderValue>>,
}

impl Model for Variants {
    ghost use Rattle.std.specs.Prelude.{◌≡◌, List, map};
    ghost use Rattle.web_variants.specs.StoredVariants.{variant_headers};
    ghost use Rattle.web_variants.specs.declared.stored_variants.Variant.{Variant as Stored};

    ghost Value = { List Stored };

    ghost view = { λ v. v.variants.items };

    ghost invariant = { λ v. v.headers.items ≡ map variant_headers v.variants.items };
}

fn has_star(media_type: &Mime) -> bool
    ensures { result ≡ has_star_of media_type.now }
{
    media_type.type_() == "*" || media_type.subtype() == "*"
}

/// The headers of the variant at this place, or why it is refused.
fn headers_at(
    alloc: Global,
    place: usize,
    variant: &Variant,
) -> Result<HeaderMap<HeaderValue>, Fail<VariantFault>>
    ensures { Returns result
        (unless_refused (variant_headers variant.now) (fault_at place variant.now)) }
{
    if has_star(&variant.media_type) {
        return Err(Fail::Of(VariantFault::Star { place }));
    }
    match printed_headers(alloc, variant) {
        Ok(headers) => Ok(headers),
        Err(Fail::NoMemory) => Err(Fail::NoMemory),
        Err(Fail::Of(InvalidHeaderValue)) => Err(Fail::Of(VariantFault::Value { place })),
    }
}

/// The headers of each variant, or why the first that is refused is.
fn all_headers(
    alloc: Global,
    variants: &[Variant],
) -> Result<Vec<HeaderMap<HeaderValue>>, Fail<VariantFault>>
    ensures { ReturnsBy (λ v. v.items) result
        (unless_refused (map variant_headers variants.now) (first_fault 0 variants.now)) }
{
    let mut all = Vec::with_capacity(alloc, variants.len())?;
    let mut rest = variants;
    'variants: while let Some((variant, later)) = rest.split_first() {
        let headers = headers_at(alloc, all.len(), variant)?;
        all.push(headers)?;
        rest = later;
    }
    Ok(all)
}

impl Variants {
    /// Stores variants, with their headers printed. It returns
    ///
    /// - `VariantFault::Empty` where there are none;
    /// - `Star` or `Value` by the first variant that is refused, and `Star` where both hold of it;
    /// - `NoMemory` where allocation failed.
    pub fn new(alloc: Global, variants: Vec<Variant>) -> Result<Variants, Fail<VariantFault>>
        ensures { Returns result (unless_refused variants.items (refusal variants.items)) }
    {
        if variants.is_empty() {
            return Err(Fail::Of(VariantFault::Empty));
        }
        let headers = all_headers(alloc, variants.as_slice())?;
        Ok(Variants { variants, headers })
    }

    /// The variants, in their order.
    pub fn as_slice(&self) -> &[Variant]
        ensures { result.now ≡ self.now }
    {
        self.variants.as_slice()
    }

    /// A copy of the headers that the variant at this place is sent with.
    pub(crate) fn headers(&self, place: usize) -> Result<HeaderMap<HeaderValue>, NoMemory>
        requires { place < length self.now }
        ensures { IfOk result (λ headers. (v : Stored) → v ≡ slice_index_or self.now place v
            → headers ≡ variant_headers v) }
    {
        Ok(self.headers[place].clone()?)
    }
}
