//! The board over an open database.
ghost use Rattle.std.specs.Prelude.{◌≡◌, ◌<◌, ◌≤◌, Err};
ghost use Rattle.web_texts.specs.declared.memory.Fail.TheVariants.{Of};
ghost use Rattle.sqlite.specs.Held.{state};
ghost use Rattle.sqlite.specs.State.{CommitsBy, CommitsShowing, HasCleanDisk, Survives};
ghost use Rattle.board_store.specs.BoardSteps.{RemovesItem, ShowsItem, ShowsListing};
ghost use Rattle.board_store.specs.Statements.{delete_text, find_text, id_value, insert_values};
ghost use Rattle.board_store.specs.Statements.{insert_text, list_text, most_items, update_text};
ghost use Rattle.board_store.specs.Statements.{update_values};

use crate::board_error::{BoardError, failure};
use crate::draft::Draft;
use crate::item::Item;
use crate::listing::Listing;
use crate::rows::{listing_of, read_count, read_item, read_items, read_removed};
use crate::statements;
use sqlite::{Alter, Connection, Error, Row};
use std::alloc::Global;
use web_texts::Fail;

/// The most items of a board.
pub const MOST_ITEMS: u64 = 100_000;

/// A board over an open database: the items of its table, and how many there are. While it is
/// open nobody else writes the file.
pub struct Board<S: Alter> {
    conn: Connection<S>,
    count: u64,
}

// It is written out, so that a caller does not prove again how each part is dropped.
impl<S: Alter + Drop> Drop for Board<S> {
    fn drop(self) {
        let Board { conn: _, count: _ } = self;
    }
}

/// What a new or a known database needs before it is a board.
#[derive(Clone, Copy, Debug, PartialEq, Eq)]
enum Found {
    /// It holds nothing.
    Nothing,
    /// It holds the board's table.
    Table,
    /// It holds other tables.
    Other,
}

/// Whether an object of the database is the board's table, by its name and text.
fn is_table(row: &Row) -> Result<bool, Error> {
    let name: String = row.get(0)?;
    if name.as_str() != "item" {
        return Ok(false);
    }
    let text: Option<String> = row.get(1)?;
    Ok(match text {
        Some(text) => text.as_str() == statements::TABLE,
        None => false,
    })
}

fn found_in(rows: &[Row]) -> Result<Found, Error> {
    for row in rows {
        if is_table(row)? {
            return Ok(Found::Table);
        }
    }
    Ok(if rows.is_empty() {
        Found::Nothing
    } else {
        Found::Other
    })
}

/// Makes the table where the database is empty, and refuses another one.
fn prepare<S: Alter>(conn: &mut Connection<S>) -> Result<Found, Error> {
    let rows = statements::objects(conn)?;
    found_in(&rows)
}

fn make_table<S: Alter>(conn: &mut Connection<S>) -> Result<(), Fail<BoardError>> {
    let made = match prepare(conn) {
        Ok(Found::Nothing) => statements::create(conn),
        Ok(Found::Table) => Ok(0),
        Ok(Found::Other) => return Err(Fail::Of(BoardError::NotABoard)),
        Err(error) => Err(error),
    };
    match made {
        Ok(_) => Ok(()),
        Err(error) => Err(failure(error)),
    }
}

impl<S: Alter + Drop> Board<S> {
    /// The board of a database, whose table is made where there is nothing.
    ///
    /// # Errors
    ///
    /// `NotABoard` where the database holds other tables.
    pub fn over(conn: Connection<S>) -> Result<Board<S>, Fail<BoardError>> {
        let mut conn = conn;
        make_table(&mut conn)?;
        let count = read_count(statements::count(&mut conn))?;
        Ok(Board { conn, count })
    }

    /// How many items there are.
    pub fn len(&self) -> u64
        ensures { result ≡ self.now.count }
    {
        self.count
    }

    /// Adds an item, and returns it as it is stored, with its number.
    ///
    /// # Errors
    ///
    /// `TitleTaken`, `TitleMissing`, `OutOfBounds`, and `BoardFull` where there are `MOST_ITEMS`.
    pub fn add(&mut self, draft: &Draft) -> Result<Item, Fail<BoardError>>
        ensures full { most_items ≤ self.old.count →
            (result ≡ Err (Of BoardError.BoardFull)) × (self.new ≡ self.old) }
        ensures adds { self.old.count < most_items → HasCleanDisk (state S.Store self.new.conn)
            → ShowsItem insert_text (insert_values draft.now) (state S.Store self.old.conn)
            (state S.Store self.new.conn) result }
        ensures survives { self.old.count < most_items → Survives (state S.Store self.old.conn)
            (state S.Store self.new.conn)
            (CommitsShowing insert_text (insert_values draft.now) (state S.Store self.old.conn)) }
    {
        if self.count >= MOST_ITEMS {
            return Err(Fail::Of(BoardError::BoardFull));
        }
        let added = read_item(statements::insert(&mut self.conn, draft));
        if added.is_ok() {
            self.count += 1;
        }
        added
    }

    /// The items after this number, by their numbers, 100 at most.
    pub fn list(&mut self, alloc: Global, after: i64) -> Result<Listing, Fail<BoardError>>
        ensures shows { HasCleanDisk (state S.Store self.new.conn) → ShowsListing list_text
            (id_value after) (state S.Store self.old.conn) (state S.Store self.new.conn) result }
        ensures survives { Survives (state S.Store self.old.conn) (state S.Store self.new.conn)
            (CommitsShowing list_text (id_value after) (state S.Store self.old.conn)) }
    {
        let items = read_items(alloc, statements::list(&mut self.conn, after))?;
        Ok(listing_of(items))
    }

    /// The item of this number.
    ///
    /// # Errors
    ///
    /// `NotFound` where there is none.
    pub fn get(&mut self, id: i64) -> Result<Item, Fail<BoardError>>
        ensures shows { HasCleanDisk (state S.Store self.new.conn) → ShowsItem find_text
            (id_value id) (state S.Store self.old.conn) (state S.Store self.new.conn) result }
        ensures survives { Survives (state S.Store self.old.conn) (state S.Store self.new.conn)
            (CommitsShowing find_text (id_value id) (state S.Store self.old.conn)) }
    {
        read_item(statements::find(&mut self.conn, id))
    }

    /// Changes the item of this number, and returns it as it is stored.
    ///
    /// # Errors
    ///
    /// `NotFound`, `TitleTaken`, `TitleMissing`, `OutOfBounds`.
    pub fn update(&mut self, id: i64, draft: &Draft) -> Result<Item, Fail<BoardError>>
        ensures changes { HasCleanDisk (state S.Store self.new.conn) → ShowsItem update_text
            (update_values id draft.now) (state S.Store self.old.conn)
            (state S.Store self.new.conn) result }
        ensures survives { Survives (state S.Store self.old.conn) (state S.Store self.new.conn)
            (CommitsShowing update_text (update_values id draft.now)
            (state S.Store self.old.conn)) }
    {
        read_item(statements::update(&mut self.conn, id, draft))
    }

    /// Removes the item of this number.
    ///
    /// # Errors
    ///
    /// `NotFound` where there is none.
    pub fn delete(&mut self, id: i64) -> Result<(), Fail<BoardError>>
        ensures removes { HasCleanDisk (state S.Store self.new.conn) → RemovesItem delete_text
            (id_value id) (state S.Store self.old.conn) (state S.Store self.new.conn) result }
        ensures survives { Survives (state S.Store self.old.conn) (state S.Store self.new.conn)
            (CommitsBy delete_text (id_value id) (state S.Store self.old.conn)) }
    {
        let removed = read_removed(statements::delete(&mut self.conn, id));
        if removed.is_ok() {
            self.count = self.count.saturating_sub(1);
        }
        removed
    }
}
