//! The quality of a language, by Accept-Language.
ghost use Rattle.std.specs.Prelude.{◌≡◌, Some};
ghost use Rattle.web_variants.specs.Acceptance.{is_range_of, language_match as match_number};
ghost use Rattle.web_variants.specs.Acceptance.{language_quality as quality_of};

use crate::best_quality::best_quality;
use web_headers::Preference;
use web_negotiate::Ranking;
use web_texts::{LanguageTag, QualityItem};

/// An item of Accept-Language.
type LanguageItem = QualityItem<Preference<LanguageTag>>;

/// Whether the range is the tag, or a prefix of it before a hyphen, in any ASCII case.
fn is_range(tag: &str, range: &str) -> bool
    ensures { result ≡ is_range_of tag.now range.now }
{
    if range.eq_ignore_ascii_case(tag) {
        return true;
    }
    let (tag, range) = (tag.as_bytes(), range.as_bytes());
    range.len() < tag.len()
        && tag[range.len()] == b'-'
        && tag[..range.len()].eq_ignore_ascii_case(range)
}

fn language_match(tag: &LanguageTag, item: &Preference<LanguageTag>) -> u64
    ensures { result ≡ match_number tag.now item.now }
{
    match item {
        Preference::Any => 1,
        Preference::Specific(range) => {
            if is_range(tag.as_str(), range.as_str()) {
                range.as_str().len() as u64 + 1
            } else {
                0
            }
        }
    }
}

/// By the length of a range that matches this tag.
#[derive(Clone, Copy)]
struct ByLanguageMatch<'a> {
    tag: &'a LanguageTag,
}

impl<'a> Ranking<LanguageItem> for ByLanguageMatch<'a> {
    ghost use Rattle.web_variants.specs.Acceptance.{language_match};

    ghost ranks = { λ ranking x. language_match ranking.tag.now x.item };

    fn rank(&self, item: &LanguageItem) -> u64 {
        language_match(self.tag, &item.item)
    }
}

/// The quality of a language by the items of Accept-Language, in thousandths.
pub(crate) fn language_quality(tag: &LanguageTag, items: &[LanguageItem]) -> u16
    ensures { result ≡ quality_of (Some tag.now) (Some items.now) }
{
    if items.is_empty() {
        return 1000;
    }
    match best_quality(&ByLanguageMatch { tag }, items) {
        Some(quality) => quality,
        None => 0,
    }
}
