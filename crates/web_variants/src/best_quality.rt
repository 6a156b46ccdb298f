//! The quality of the item that matches best.
ghost use Rattle.std.specs.Prelude.{◌≡◌};
ghost use Rattle.web_variants.specs.Acceptance.{best_quality as quality_of_best};

use web_negotiate::{Ranking, place_of_greatest};
use web_texts::QualityItem;

/// The quality, in thousandths, of the first item of the greatest rank above zero.
pub(crate) fn best_quality<T, R: Ranking<QualityItem<T>>>(
    ranking: &R,
    items: &[QualityItem<T>],
) -> Option<u16>
    ensures { result ≡ quality_of_best (R.ranks ranking.now) items.now }
{
    match place_of_greatest(ranking, items) {
        Some(place) => Some(items[place].quality.thousandths()),
        None => None,
    }
}
