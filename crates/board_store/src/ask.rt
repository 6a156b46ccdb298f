//! What a board is asked, and what it answers.
use crate::draft::Draft;
use crate::item::Item;
use crate::listing::Listing;

/// What a board is asked.
#[derive(Debug, Drop)]
pub enum Ask {
    /// The items after this number.
    List(i64),
    /// The item of this number.
    Get(i64),
    Add(Draft),
    /// Another content for the item of this number.
    Update(i64, Draft),
    /// That there be no item of this number.
    Delete(i64),
}

/// What a board answers.
#[derive(Debug, Drop)]
pub enum Told {
    Listing(Listing),
    Item(Item),
    Deleted,
}
