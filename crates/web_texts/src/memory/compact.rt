//! Lists that take little more than their items.
ghost use Rattle.std.specs.Prelude.{◌≡◌, ◌++◌, ◌∷◌, [], OnOk};

use crate::memory::NoMemory;

/// How many places a list of several items gets at first.
const FIRST: usize = 4;

/// Adds an item after the others, for which a full list grows by so many places at least.
fn push_with_room<T: Drop>(items: &mut Vec<T>, item: T, least: usize) -> Result<(), NoMemory>
    ensures { OnOk result (items.new.items ≡ items.old.items ++ item ∷ []) }
{
    if items.len() == items.capacity() {
        items.reserve_exact((items.len() / 8).max(least))?;
    }
    items.push(item)?;
    Ok(())
}

/// Adds an item at the end of a list. A full list grows by an eighth, where `Vec::push` doubles it:
/// so a list of many small items that is kept takes at most an eighth more than they do.
///
/// Returns `NoMemory` where allocation failed; the item is then dropped.
pub fn push_compact<T: Drop>(items: &mut Vec<T>, item: T) -> Result<(), NoMemory>
    ensures { OnOk result (items.new.items ≡ items.old.items ++ item ∷ []) }
{
    push_with_room(items, item, FIRST)
}

/// As `push_compact`, for a list that mostly has one item or two, which grow one by one at first.
pub fn push_single<T: Drop>(items: &mut Vec<T>, item: T) -> Result<(), NoMemory>
    ensures { OnOk result (items.new.items ≡ items.old.items ++ item ∷ []) }
{
    push_with_room(items, item, 1)
}
