//! The quality of a coding, by Accept-Encoding.
ghost use Rattle.std.specs.Prelude.{◌≡◌, Some};
ghost use Rattle.web_variants.specs.Acceptance.{by_identity as by_identity_of};
ghost use Rattle.web_variants.specs.Acceptance.{coding_quality as quality_of, greatest_quality};
ghost use Rattle.web_variants.specs.Acceptance.{is_any, is_identity as is_identity_of};
ghost use Rattle.web_variants.specs.Acceptance.{names_coding as names};

use crate::best_quality::best_quality;
use web_headers::{ContentEncoding, Encoding, Preference};
use web_negotiate::Ranking;
use web_texts::QualityItem;

/// An item of Accept-Encoding.
type CodingItem = QualityItem<Preference<Encoding>>;

pub(crate) fn is_identity(coding: &Encoding) -> bool
    ensures { result ≡ is_identity_of coding.now }
{
    matches!(coding, Encoding::Known(ContentEncoding::Identity))
}

fn names_coding(coding: &Encoding, item: &Preference<Encoding>) -> bool
    ensures { result ≡ names coding.now item.now }
{
    match item {
        Preference::Specific(named) => coding == named,
        Preference::Any => false,
    }
}

/// By quality, of the items that name this coding.
#[derive(Clone, Copy)]
struct OfCoding<'a> {
    coding: &'a Encoding,
}

impl<'a> Ranking<CodingItem> for OfCoding<'a> {
    ghost use Rattle.web_variants.specs.Acceptance.{names_coding, quality_where};

    ghost ranks = { λ ranking. quality_where (names_coding ranking.coding.now) };

    fn rank(&self, item: &CodingItem) -> u64 {
        if names_coding(self.coding, &item.item) {
            u64::from(item.quality.thousandths()) + 1
        } else {
            0
        }
    }
}

/// By quality, of the items that are `*`.
#[derive(Clone, Copy)]
struct OfAny;

impl Ranking<CodingItem> for OfAny {
    ghost use Rattle.web_variants.specs.Acceptance.{is_any, quality_where};

    ghost ranks = { λ ranking. quality_where is_any };

    fn rank(&self, item: &CodingItem) -> u64 {
        if item.item.is_any() {
            u64::from(item.quality.thousandths()) + 1
        } else {
            0
        }
    }
}

/// One of the two, by whether the coding is identity.
pub(crate) fn by_identity(coding: &Encoding, identity: u16, other: u16) -> u16
    ensures { result ≡ by_identity_of coding.now identity other }
{
    if is_identity(coding) { identity } else { other }
}

/// The quality of a coding by the items of Accept-Encoding, in thousandths.
pub(crate) fn coding_quality(coding: &Encoding, items: &[CodingItem]) -> u16
    ensures { result ≡ quality_of coding.now (Some items.now) }
{
    if items.is_empty() {
        return by_identity(coding, 1000, 0);
    }
    if let Some(quality) = best_quality(&OfCoding { coding }, items) {
        return quality;
    }
    match best_quality(&OfAny, items) {
        Some(quality) => quality,
        None => by_identity(coding, 1, 0),
    }
}
