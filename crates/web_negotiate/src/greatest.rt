//! The first of the greatest items.
ghost use Rattle.std.specs.Option.{option_copied};
ghost use Rattle.web_negotiate.specs.Rankings.{IsFirstGreatest, IsGreatest};

use crate::rankings::Ranking;

/// The place of the first item of the greatest rank above zero; `None` where every rank is zero, as
/// of no items. The items are gone through once, and each is ranked once.
pub fn place_of_greatest<T, R: Ranking<T>>(ranking: &R, items: &[T]) -> Option<usize>
    ensures { IsFirstGreatest (R.ranks ranking.now) items.now result }
{
    let mut best = None;
    let mut most = 0;
    for (i, item) in items.iter().enumerate() {
        let rank = ranking.rank(item);
        if rank > most {
            best = Some(i);
            most = rank;
        }
    }
    best
}

/// The first item of the greatest rank above zero.
pub fn first_greatest<'a, T, R: Ranking<T>>(ranking: &R, items: &'a [T]) -> Option<&'a T>
    ensures { IsGreatest (R.ranks ranking.now) items.now (option_copied result) }
{
    match place_of_greatest(ranking, items) {
        Some(i) => Some(&items[i]),
        None => None,
    }
}
