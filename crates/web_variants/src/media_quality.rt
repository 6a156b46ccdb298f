//! The quality of a media type, by Accept.
ghost use Rattle.std.specs.Prelude.{◌≡◌, Some, true};
ghost use Rattle.web_texts.specs.MediaTypes.{MediaType};
ghost use Rattle.web_variants.specs.Acceptance.{is_any_subtype as is_any_subtype_of};
ghost use Rattle.web_variants.specs.Acceptance.{media_match as match_number};
ghost use Rattle.web_variants.specs.Acceptance.{media_quality as quality_of, same_essence as same};

use crate::best_quality::best_quality;
use web_negotiate::Ranking;
use web_texts::{Mime, QualityItem};

fn same_essence(a: &Mime, b: &Mime) -> bool
    ensures { result ≡ same a.now b.now }
{
    a.essence() == b.essence()
}

/// Whether the text ends as that of `type/*` does. Most items do not, and need not be cut.
#[tactic(auto, using(crate::proofs::MediaLemmas::any_ends))]
fn ends_in_any(item: &Mime) -> bool
    ensures { (m : MediaType) → is_any_subtype_of m item.now ≡ true → result ≡ true }
{
    item.essence().as_bytes().ends_with(b"/*")
}

fn has_any_subtype(media_type: &Mime, item: &Mime) -> bool
    ensures { result ≡ is_any_subtype_of media_type.now item.now }
{
    item.type_() == media_type.type_() && item.subtype() == "*" && item.suffix().is_none()
}

fn is_any_subtype(media_type: &Mime, item: &Mime) -> bool
    ensures { result ≡ is_any_subtype_of media_type.now item.now }
{
    if ends_in_any(item) {
        has_any_subtype(media_type, item)
    } else {
        false
    }
}

fn media_match(media_type: &Mime, item: &Mime) -> u64
    ensures { result ≡ match_number media_type.now item.now }
{
    if item.params().is_empty() {
        if same_essence(item, media_type) {
            3
        } else if is_any_subtype(media_type, item) {
            2
        } else if item.essence() == "*/*" {
            1
        } else {
            0
        }
    } else if item == media_type {
        4
    } else {
        0
    }
}

/// By how closely an item matches this media type.
#[derive(Clone, Copy)]
struct ByMediaMatch<'a> {
    media_type: &'a Mime,
}

impl<'a> Ranking<QualityItem<Mime>> for ByMediaMatch<'a> {
    ghost use Rattle.web_variants.specs.Acceptance.{media_match};

    ghost ranks = { λ ranking x. media_match ranking.media_type.now x.item };

    fn rank(&self, item: &QualityItem<Mime>) -> u64 {
        media_match(self.media_type, &item.item)
    }
}

/// The quality of a media type by the items of Accept, in thousandths.
pub(crate) fn media_quality(media_type: &Mime, items: &[QualityItem<Mime>]) -> u16
    ensures { result ≡ quality_of media_type.now (Some items.now) }
{
    if items.is_empty() {
        return 1000;
    }
    match best_quality(&ByMediaMatch { media_type }, items) {
        Some(quality) => quality,
        None => 0,
    }
}
