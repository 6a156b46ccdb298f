//! Choices among the codings of Accept-Encoding.
ghost use Rattle.std.specs.Prelude.{◌≡◌, ◌⊎◌, List, [], IfOk, IsOk};
ghost use Rattle.std.specs.List.{list_any};
ghost use Rattle.web_headers.specs.declared.codings.Encoding.{Encoding as AnyEncoding};
ghost use Rattle.web_texts.specs.declared.media.quality_item.QualityItem.{QualityItem as Weighted};
ghost use Rattle.web_negotiate.specs.EncodingChoices as spec;
ghost use Rattle.web_negotiate.specs.EncodingChoices.{Coding, IsCodingPreference};
ghost use Rattle.web_negotiate.specs.EncodingChoices.{IsCodingRanking, IsNegotiated};

use crate::greatest::first_greatest;
use crate::rankings::{Ranking, ranked_items};
use std::alloc::Global;
use web_headers::{AcceptEncoding, ContentEncoding, Encoding, Preference};
use web_texts::{Duplicate, NoMemory, QualityItem};

/// An item of Accept-Encoding.
type Coding = QualityItem<Preference<Encoding>>;

fn coding_class(coding: &Preference<Encoding>) -> u64
    ensures { result ≡ spec.coding_class coding.now }
{
    match coding {
        Preference::Any | Preference::Specific(Encoding::Known(ContentEncoding::Identity)) => 0,
        Preference::Specific(Encoding::Unknown(_)) => 1,
        Preference::Specific(Encoding::Known(ContentEncoding::Deflate)) => 2,
        Preference::Specific(Encoding::Known(ContentEncoding::Gzip)) => 3,
        Preference::Specific(Encoding::Known(ContentEncoding::Zstd)) => 4,
        Preference::Specific(Encoding::Known(ContentEncoding::Brotli)) => 5,
    }
}

fn coding_rank(item: &Coding) -> u64
    ensures { result ≡ spec.coding_rank item.now }
{
    match u64::from(item.quality.thousandths()) {
        0 => 0,
        quality => quality * 8 + coding_class(&item.item),
    }
}

/// By quality, and at equal quality by how well a coding compresses.
#[derive(Clone, Copy)]
struct ByCoding;

impl Ranking<Coding> for ByCoding {
    ghost ranks = { λ ranking. spec.coding_rank };

    fn rank(&self, item: &Coding) -> u64 {
        coding_rank(item)
    }
}

/// As `ByCoding`, but only codings of these that are named.
#[derive(Clone, Copy)]
struct AmongSupported<'a> {
    supported: &'a [Encoding],
}

fn is_supported(supported: &[Encoding], encoding: &Encoding) -> bool
    ensures { result ≡ spec.is_supported supported.now encoding.now }
{
    supported.iter().any(|s| encoding == s)
}

impl<'a> Ranking<Coding> for AmongSupported<'a> {
    ghost ranks = { λ ranking. spec.supported_rank ranking.supported.now };

    fn rank(&self, item: &Coding) -> u64 {
        match &item.item {
            Preference::Specific(e) if is_supported(self.supported, e) => coding_rank(item),
            _ => 0,
        }
    }
}

fn is_star(item: &Coding) -> bool
    ensures { result ≡ spec.is_star item.now }
{
    item.item.is_any()
}

fn is_identity(item: &Coding) -> bool
    ensures { result ≡ spec.is_identity item.now }
{
    matches!(
        item.item,
        Preference::Specific(Encoding::Known(ContentEncoding::Identity))
    )
}

fn is_wanted_star(item: &Coding) -> bool
    ensures { result ≡ spec.is_wanted_star item.now }
{
    is_star(item) && item.quality.thousandths() > 0
}

fn is_wanted_identity(item: &Coding) -> bool
    ensures { result ≡ spec.is_wanted_identity item.now }
{
    is_identity(item) && item.quality.thousandths() > 0
}

fn has_star(items: &[Coding]) -> bool
    ensures { result ≡ list_any spec.is_star items.now }
{
    items.iter().any(|x| is_star(x))
}

fn has_identity(items: &[Coding]) -> bool
    ensures { result ≡ list_any spec.is_identity items.now }
{
    items.iter().any(|x| is_identity(x))
}

fn has_wanted_star(items: &[Coding]) -> bool
    ensures { result ≡ list_any spec.is_wanted_star items.now }
{
    items.iter().any(|x| is_wanted_star(x))
}

fn has_wanted_identity(items: &[Coding]) -> bool
    ensures { result ≡ list_any spec.is_wanted_identity items.now }
{
    items.iter().any(|x| is_wanted_identity(x))
}

fn is_identity_acceptable(items: &[Coding]) -> bool
    ensures { result ≡ spec.is_identity_acceptable items.now }
{
    if has_identity(items) {
        has_wanted_identity(items)
    } else if has_star(items) {
        has_wanted_star(items)
    } else {
        true
    }
}

/// Choices among the codings of Accept-Encoding (RFC 9110, section 12.5.3).
pub trait AcceptEncodingChoices {
    ghost items: { Self → List (Weighted Coding) };

    /// The coding that is preferred: `Any` where the header is empty; else the first item of the
    /// greatest quality above zero and, at equal quality, of the greatest class, as `ranked` says.
    /// Where there is none, `None` if `*` or identity is named, and else identity. That of an
    /// empty header takes no memory.
    fn preference(&self, alloc: Global) -> Result<Option<Preference<Encoding>>, NoMemory>
        ensures value { IfOk result (IsCodingPreference (items self.now)) }
        ensures memory { items self.now ≡ [] → IsOk result };

    /// The codings by quality, the greatest first. At equal quality above zero they come in the
    /// order brotli, zstd, gzip, deflate, unknown ones, identity and `*`; equal ones keep their
    /// order. Those of quality zero stand at the end. Those of an empty header take no memory.
    fn ranked(&self, alloc: Global) -> Result<Vec<Preference<Encoding>>, NoMemory>
        ensures value { IfOk result (λ ranked. IsCodingRanking (items self.now) ranked.items) }
        ensures memory { items self.now ≡ [] → IsOk result };

    /// The coding to send, of those that are supported: the first ranked one that is named, has a
    /// quality above zero and is supported; else identity where it is acceptable, supported or
    /// not; else `None`. Identity is acceptable where it is named with a quality above zero, or is
    /// not named and `*` has such a quality or is not there. An empty header gives identity, and
    /// `None` is given where nothing is supported; neither takes memory.
    fn negotiate(&self, alloc: Global, supported: &[Encoding]) -> Result<Option<Encoding>, NoMemory>
        ensures value { IfOk result (IsNegotiated (items self.now) supported.now) }
        ensures memory { (items self.now ≡ []) ⊎ (supported.now ≡ []) → IsOk result };
}

fn or_identity(items: &[Coding]) -> Option<Preference<Encoding>>
    ensures { result ≡ spec.or_identity items.now None }
{
    if has_star(items) || has_identity(items) {
        None
    } else {
        Some(Preference::Specific(Encoding::identity()))
    }
}

fn or_acceptable(items: &[Coding]) -> Option<Encoding>
    ensures { result ≡ spec.or_acceptable items.now None }
{
    if is_identity_acceptable(items) {
        Some(Encoding::identity())
    } else {
        None
    }
}

impl AcceptEncodingChoices for AcceptEncoding {
    ghost items = { λ header. header.0 };

    fn preference(&self, alloc: Global) -> Result<Option<Preference<Encoding>>, NoMemory> {
        let items = self.0.as_slice();
        if items.is_empty() {
            return Ok(Some(Preference::Any));
        }
        match first_greatest(&ByCoding, items) {
            Some(found) => Ok(Some(found.item.duplicate(alloc)?)),
            None => Ok(or_identity(items)),
        }
    }

    fn ranked(&self, alloc: Global) -> Result<Vec<Preference<Encoding>>, NoMemory> {
        ranked_items(alloc, &ByCoding, &self.0)
    }

    fn negotiate(
        &self,
        alloc: Global,
        supported: &[Encoding],
    ) -> Result<Option<Encoding>, NoMemory> {
        let items = self.0.as_slice();
        if supported.is_empty() {
            return Ok(None);
        }
        if items.is_empty() {
            return Ok(Some(Encoding::identity()));
        }
        match first_greatest(&AmongSupported { supported }, items) {
            Some(found) => Ok(found.item.duplicate(alloc)?.into_item()),
            None => Ok(or_acceptable(items)),
        }
    }
}
