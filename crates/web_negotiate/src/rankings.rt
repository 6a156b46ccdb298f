//! Items in the order of their ranks.
ghost use Rattle.std.specs.Prelude.{◌≡◌, ℕ, [], IfOk, IsOk, OnOk, map};
ghost use Rattle.web_negotiate.specs.Rankings.{IsRanked, IsRanking};

use std::alloc::Global;
use std::cmp::Reverse;
use web_texts::{Duplicate, Items, NoMemory, QualityItem};

/// A way to rank items: a greater one stands before a lesser. Contracts see it as the function from
/// an item to its rank.
pub trait Ranking<T> {
    ghost ranks: { Self → T → ℕ };

    /// The rank of this item. An item of rank zero is never chosen.
    fn rank(&self, item: &T) -> u64
        ensures { result ≡ ranks self.now item.now };
}

/// By quality alone.
#[derive(Clone, Copy)]
pub struct ByQuality;

impl<T> Ranking<QualityItem<T>> for ByQuality {
    ghost use Rattle.web_negotiate.specs.Rankings.{quality_rank};

    ghost ranks = { λ ranking. quality_rank };

    fn rank(&self, item: &QualityItem<T>) -> u64 {
        u64::from(item.quality.thousandths())
    }
}

fn references<T>(alloc: Global, items: &[T]) -> Result<Vec<&T>, NoMemory>
    ensures { IfOk result (λ made. map (λ item. item.now) made.items ≡ items.now) }
{
    let mut made = Vec::with_capacity(alloc, items.len())?;
    for item in items {
        made.push(item)?;
    }
    Ok(made)
}

/// The items in the order of their ranks, borrowed. Equal ones keep their order. Returns `NoMemory`
/// where allocation failed.
pub fn ranked_references<'a, T, R: Ranking<QualityItem<T>>>(
    alloc: Global,
    ranking: &R,
    items: &'a [QualityItem<T>],
) -> Result<Vec<&'a QualityItem<T>>, NoMemory>
    ensures { IfOk result (λ ranked.
        IsRanked (R.ranks ranking.now) items.now (map (λ item. item.now) ranked.items)) }
{
    let mut ranked = references(alloc, items)?;
    ranked.sort_by_key(|item| Reverse(ranking.rank(*item)))?;
    Ok(ranked)
}

/// The items, borrowed, without their qualities.
fn without_qualities<'a, T>(
    alloc: Global,
    items: Vec<&'a QualityItem<T>>,
) -> Result<Vec<&'a T>, NoMemory>
    ensures { IfOk result (λ made. map (λ item. item.now) made.items
        ≡ map (λ item. item.now.item) items.entry.items) }
{
    let mut made = Vec::with_capacity(alloc, items.len())?;
    for item in items {
        made.push(&item.item)?;
    }
    Ok(made)
}

/// The items in the order of their ranks, borrowed, without their qualities. Equal ones keep their
/// order.
pub fn ranked_item_references<'a, T, R: Ranking<QualityItem<T>>>(
    alloc: Global,
    ranking: &R,
    items: &'a [QualityItem<T>],
) -> Result<Vec<&'a T>, NoMemory>
    ensures { IfOk result (λ ranked. IsRanking (R.ranks ranking.now) items.now
        (map (λ item. item.now) ranked.items)) }
{
    let ranked = ranked_references(alloc, ranking, items)?;
    let ranked = without_qualities(alloc, ranked)?;
    Ok(ranked)
}

/// Copies of the items, without their qualities.
fn copied_items<T: Duplicate>(
    alloc: Global,
    items: Vec<&QualityItem<T>>,
) -> Result<Vec<T>, NoMemory>
    ensures { IfOk result (λ copies.
        copies.items ≡ map (λ item. item.now.item) items.entry.items) }
{
    let mut copies = Vec::with_capacity(alloc, items.len())?;
    for item in items {
        copies.push(item.item.duplicate(alloc)?)?;
    }
    Ok(copies)
}

fn ranked_copies<T: Duplicate, R: Ranking<QualityItem<T>>>(
    alloc: Global,
    ranking: &R,
    items: &[QualityItem<T>],
) -> Result<Vec<T>, NoMemory>
    ensures { IfOk result (λ copies. IsRanking (R.ranks ranking.now) items.now copies.items) }
{
    let ranked = ranked_references(alloc, ranking, items)?;
    let copies = copied_items(alloc, ranked)?;
    Ok(copies)
}

/// Copies of the items in the order of their ranks. Equal ones keep their order. Those of no items
/// take no memory.
pub fn ranked_items<T: Duplicate, R: Ranking<QualityItem<T>>>(
    alloc: Global,
    ranking: &R,
    items: &Items<QualityItem<T>>,
) -> Result<Vec<T>, NoMemory>
    ensures value { IfOk result
        (λ ranked. IsRanking (R.ranks ranking.now) items.now ranked.items) }
    ensures memory { items.now ≡ [] → IsOk result }
{
    match items.as_slice() {
        [] => Ok(Vec::new(alloc)),
        items => ranked_copies(alloc, ranking, items),
    }
}
