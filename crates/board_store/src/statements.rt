//! The statements of the board, each a call.
ghost use Rattle.std.specs.Prelude.{◌≡◌, ◌∷◌, []};
ghost use Rattle.std.specs.Prelude.{IfErr, IfOk};
ghost use Rattle.sqlite.specs.Values.{bound_value};
ghost use Rattle.sqlite.specs.Value.{owned};
ghost use Rattle.sqlite.specs.declared.types.Value.TheVariants.{Int};
ghost use Rattle.sqlite.specs.Held.{state};
ghost use Rattle.sqlite.specs.State.{CommitsBy, CommitsShowing, Executes, FailsToQuery};
ghost use Rattle.sqlite.specs.State.{HasCleanDisk, QueriesRow, Shown, Survives};
ghost use Rattle.board_store.specs.Statements.{count_text, delete_text, draft_values, find_text};
ghost use Rattle.board_store.specs.Statements.{id_value, insert_text, list_text, objects_text};
ghost use Rattle.board_store.specs.Statements.{four_values, insert_values, table_text};
ghost use Rattle.board_store.specs.Statements.{title_value, truth, update_text, update_values};

use crate::draft::Draft;
use sqlite::types::ValueRef;
use sqlite::{Alter, Connection, Error, Row, params};

/// The table, as the file keeps its text. A file whose table has another text is refused.
pub(crate) const TABLE: &str = "CREATE TABLE item (\
    id INTEGER PRIMARY KEY, \
    title TEXT NOT NULL UNIQUE CHECK (length(title) BETWEEN 1 AND 80), \
    seats INTEGER NOT NULL CHECK (seats BETWEEN 1 AND 8), \
    done INTEGER NOT NULL CHECK (done IN (0, 1))) STRICT";

/// A title as a parameter.
fn title_param(draft: &Draft) -> ValueRef<'_>
    ensures { bound_value (owned result) ≡ title_value draft.now.title }
{
    match &draft.title {
        Some(title) => ValueRef::Text(title.as_str().as_bytes()),
        None => ValueRef::Null,
    }
}

/// A number as a parameter.
fn number_param(number: i64) -> ValueRef<'static>
    ensures { bound_value (owned result) ≡ Int number }
{
    ValueRef::Int(number)
}

/// A truth value as a parameter.
fn truth_param(is_true: bool) -> ValueRef<'static>
    ensures { bound_value (owned result) ≡ Int (truth is_true) }
{
    ValueRef::Int(if is_true { 1 } else { 0 })
}

/// Makes the table.
pub(crate) fn create<S: Alter>(conn: &mut Connection<S>) -> Result<usize, Error>
    ensures runs { HasCleanDisk (state S.Store conn.new) → Executes table_text []
        (state S.Store conn.old) (state S.Store conn.new) result }
    ensures survives { Survives (state S.Store conn.old) (state S.Store conn.new)
        (CommitsBy table_text [] (state S.Store conn.old)) }
{
    conn.execute(TABLE, &[])
}

/// The first row that a statement with four parameters shows.
fn query_four<S: Alter>(
    conn: &mut Connection<S>,
    sql: &str,
    first: ValueRef<'_>,
    second: ValueRef<'_>,
    third: ValueRef<'_>,
    fourth: ValueRef<'_>,
) -> Result<Row, Error>
    ensures row { HasCleanDisk (state S.Store conn.new) → QueriesRow sql.now
        (four_values first.entry second.entry third.entry fourth.entry)
        (state S.Store conn.old) (state S.Store conn.new) result }
    ensures survives { Survives (state S.Store conn.old) (state S.Store conn.new)
        (CommitsShowing sql.now (four_values first.entry second.entry third.entry fourth.entry)
        (state S.Store conn.old)) }
{
    conn.query_row(sql, &[first, second, third, fourth])
}

/// The row that a statement shows which writes a draft under this number.
fn write_draft<S: Alter>(
    conn: &mut Connection<S>,
    sql: &str,
    id: ValueRef<'_>,
    draft: &Draft,
) -> Result<Row, Error>
    ensures row { HasCleanDisk (state S.Store conn.new) → QueriesRow sql.now
        (bound_value (owned id.entry) ∷ draft_values draft.now)
        (state S.Store conn.old) (state S.Store conn.new) result }
    ensures survives { Survives (state S.Store conn.old) (state S.Store conn.new)
        (CommitsShowing sql.now (bound_value (owned id.entry) ∷ draft_values draft.now)
        (state S.Store conn.old)) }
{
    let title = title_param(draft);
    let seats = number_param(draft.seats);
    let done = truth_param(draft.done);
    query_four(conn, sql, id, title, seats, done)
}

/// Adds an item, and shows it. Its number is the one after the greatest.
pub(crate) fn insert<S: Alter>(conn: &mut Connection<S>, draft: &Draft) -> Result<Row, Error>
    ensures row { HasCleanDisk (state S.Store conn.new) → QueriesRow insert_text
        (insert_values draft.now) (state S.Store conn.old) (state S.Store conn.new) result }
    ensures survives { Survives (state S.Store conn.old) (state S.Store conn.new)
        (CommitsShowing insert_text (insert_values draft.now) (state S.Store conn.old)) }
{
    write_draft(
        conn,
        "INSERT INTO item (id, title, seats, done) VALUES (?1, ?2, ?3, ?4) \
        RETURNING id, title, seats, done",
        ValueRef::Null,
        draft,
    )
}

/// The items after this number, 100 at most.
pub(crate) fn list<S: Alter>(conn: &mut Connection<S>, after: i64) -> Result<Vec<Row>, Error>
    ensures rows { HasCleanDisk (state S.Store conn.new) → IfOk result (λ rows. Shown list_text
        (id_value after) (state S.Store conn.old) (state S.Store conn.new) rows.items) }
    ensures err { HasCleanDisk (state S.Store conn.new) → IfErr result (FailsToQuery list_text
        (id_value after) (state S.Store conn.old) (state S.Store conn.new)) }
    ensures survives { Survives (state S.Store conn.old) (state S.Store conn.new)
        (CommitsShowing list_text (id_value after) (state S.Store conn.old)) }
{
    conn.query_all(
        "SELECT id, title, seats, done FROM item WHERE id > ?1 ORDER BY id LIMIT 100",
        params![after],
    )
}

/// The item of this number.
pub(crate) fn find<S: Alter>(conn: &mut Connection<S>, id: i64) -> Result<Row, Error>
    ensures row { HasCleanDisk (state S.Store conn.new) → QueriesRow find_text (id_value id)
        (state S.Store conn.old) (state S.Store conn.new) result }
    ensures survives { Survives (state S.Store conn.old) (state S.Store conn.new)
        (CommitsShowing find_text (id_value id) (state S.Store conn.old)) }
{
    conn.query_row(
        "SELECT id, title, seats, done FROM item WHERE id = ?1",
        params![id],
    )
}

/// Removes the item of this number.
pub(crate) fn delete<S: Alter>(conn: &mut Connection<S>, id: i64) -> Result<usize, Error>
    ensures runs { HasCleanDisk (state S.Store conn.new) → Executes delete_text (id_value id)
        (state S.Store conn.old) (state S.Store conn.new) result }
    ensures survives { Survives (state S.Store conn.old) (state S.Store conn.new)
        (CommitsBy delete_text (id_value id) (state S.Store conn.old)) }
{
    conn.execute("DELETE FROM item WHERE id = ?1", params![id])
}

/// Changes the item of this number, and shows it.
pub(crate) fn update<S: Alter>(
    conn: &mut Connection<S>,
    id: i64,
    draft: &Draft,
) -> Result<Row, Error>
    ensures row { HasCleanDisk (state S.Store conn.new) → QueriesRow update_text
        (update_values id draft.now) (state S.Store conn.old) (state S.Store conn.new) result }
    ensures survives { Survives (state S.Store conn.old) (state S.Store conn.new)
        (CommitsShowing update_text (update_values id draft.now) (state S.Store conn.old)) }
{
    let number = number_param(id);
    write_draft(
        conn,
        "UPDATE item SET title = ?2, seats = ?3, done = ?4 WHERE id = ?1 \
        RETURNING id, title, seats, done",
        number,
        draft,
    )
}

/// How many items there are.
pub(crate) fn count<S: Alter>(conn: &mut Connection<S>) -> Result<Row, Error>
    ensures row { HasCleanDisk (state S.Store conn.new) → QueriesRow count_text []
        (state S.Store conn.old) (state S.Store conn.new) result }
    ensures survives { Survives (state S.Store conn.old) (state S.Store conn.new)
        (CommitsShowing count_text [] (state S.Store conn.old)) }
{
    conn.query_row("SELECT count(*) FROM item", &[])
}

/// The names and the texts of what the file holds.
pub(crate) fn objects<S: Alter>(conn: &mut Connection<S>) -> Result<Vec<Row>, Error>
    ensures survives { Survives (state S.Store conn.old) (state S.Store conn.new)
        (CommitsShowing objects_text [] (state S.Store conn.old)) }
{
    conn.query_all("SELECT name, sql FROM sqlite_schema", &[])
}
