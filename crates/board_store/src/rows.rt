//! Rows as items.
ghost use Rattle.std.specs.Prelude.{◌≡◌, IfErr, IfOk, map};
ghost use Rattle.board_store.specs.BoardRows.{item_in};
ghost use Rattle.board_store.specs.BoardSteps.{IsUnread, ReadsItem, ReadsItems, Removes};
ghost use Rattle.board_store.specs.BoardRows.{next_after};
ghost use Rattle.board_store.specs.Refusals.{failure};

use crate::board_error::{BoardError, failure};
use crate::item::Item;
use crate::listing::Listing;
use sqlite::{Error, Row};
use std::alloc::Global;
use web_texts::{Fail, Items, Text};

/// The most items of a page, as the statement has it.
const PAGE: usize = 100;

/// The item that a row shows.
#[tactic(auto, using(crate::proofs::RowLemmas::unread))]
fn item_of(row: &Row) -> Result<Item, Error>
    ensures item { IfOk result (λ item. item ≡ item_in row.now) }
    ensures err { IfErr result (λ e. IsUnread (failure e)) }
{
    let title: String = row.get(1)?;
    Ok(Item {
        id: row.get(0)?,
        title: Text::from(title),
        seats: row.get(2)?,
        done: row.get(3)?,
    })
}

/// The item of a row that was found, or why there is none.
pub(crate) fn read_item(found: Result<Row, Error>) -> Result<Item, Fail<BoardError>>
    ensures { ReadsItem found result }
{
    match found {
        Ok(row) => match item_of(&row) {
            Ok(item) => Ok(item),
            Err(error) => Err(failure(error)),
        },
        Err(error) => Err(failure(error)),
    }
}

/// The items of these rows.
fn items_of(alloc: Global, rows: &[Row]) -> Result<Vec<Item>, Error>
    ensures items { IfOk result (λ items. items.items ≡ map item_in rows.now) }
    ensures err { IfErr result (λ e. IsUnread (failure e)) }
{
    let mut items = Vec::with_capacity(alloc, rows.len())?;
    for row in rows {
        items.push(item_of(row)?)?;
    }
    Ok(items)
}

/// The items of rows that were found, or why there are none.
pub(crate) fn read_items(
    alloc: Global,
    found: Result<Vec<Row>, Error>,
) -> Result<Items<Item>, Fail<BoardError>>
    ensures { ReadsItems found result }
{
    match found {
        Ok(rows) => match items_of(alloc, &rows) {
            Ok(items) => Ok(Items::of(items)),
            Err(error) => Err(failure(error)),
        },
        Err(error) => Err(failure(error)),
    }
}

/// Whether a row was removed.
pub(crate) fn read_removed(done: Result<usize, Error>) -> Result<(), Fail<BoardError>>
    ensures { Removes done result }
{
    match done {
        Ok(0) => Err(Fail::Of(BoardError::NotFound)),
        Ok(_) => Ok(()),
        Err(error) => Err(failure(error)),
    }
}

/// The number that a row shows.
pub(crate) fn read_count(found: Result<Row, Error>) -> Result<u64, Fail<BoardError>> {
    match found {
        Ok(row) => match row.get(0) {
            Ok(count) => Ok(count),
            Err(error) => Err(failure(error)),
        },
        Err(error) => Err(failure(error)),
    }
}

/// The number after which the items of another page come.
fn next_after(items: &[Item]) -> Option<i64>
    ensures { result ≡ next_after items.now }
{
    match items.get(PAGE - 1) {
        Some(item) => Some(item.id),
        None => None,
    }
}

/// A page of these items.
pub(crate) fn listing_of(items: Items<Item>) -> Listing
    ensures items { result.items ≡ items }
    ensures next { result.next ≡ next_after items }
{
    let next = next_after(items.as_slice());
    Listing { items, next }
}
