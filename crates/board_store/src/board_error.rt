//! Why the board did not do what it was asked.
ghost use Rattle.std.specs.Prelude.{◌≡◌};
ghost use Rattle.board_store.specs.Refusals.{by_code, constraint, failure};

use sqlite::{Constraint, Error, ErrorCode};
use std::fmt;
use web_texts::Fail;

/// Why the board did not do what it was asked. It changed nothing.
#[derive(Clone, Copy, Debug, PartialEq, Eq)]
pub enum BoardError {
    /// No item has this number.
    NotFound,
    /// Another item has the title.
    TitleTaken,
    /// There is no title.
    TitleMissing,
    /// A title has 1 to 80 characters, and an item 1 to 8 seats.
    OutOfBounds,
    /// There are `MOST_ITEMS` items.
    BoardFull,
    /// Another program has the file open.
    Busy,
    /// The disk is full.
    DiskFull,
    /// The file may not be opened: it lies in no folder, or may not be read and written.
    CannotOpen,
    /// The file is no database, or one with other tables, or it is damaged.
    NotABoard,
    /// Reading or writing the file failed.
    Failed,
}

impl fmt::Display for BoardError {
    fn fmt<W: fmt::Write>(&self, f: &mut fmt::Formatter<W>) -> fmt::Result {
        f.write_str(match self {
            BoardError::NotFound => "there is no such item",
            BoardError::TitleTaken => "title: another item has it",
            BoardError::TitleMissing => "title: missing",
            BoardError::OutOfBounds => "title: 1 to 80 characters, seats: 1 to 8",
            BoardError::BoardFull => "the board is full",
            BoardError::Busy => "the board is busy",
            BoardError::DiskFull => "the disk is full",
            BoardError::CannotOpen => "the board's file cannot be opened",
            BoardError::NotABoard => "the board's file holds no board",
            BoardError::Failed => "the board's file cannot be used",
        })
    }
}

fn constraint(broken: Constraint) -> BoardError
    ensures { result ≡ constraint broken }
{
    match broken {
        Constraint::Unique | Constraint::PrimaryKey => BoardError::TitleTaken,
        Constraint::NotNull => BoardError::TitleMissing,
        _ => BoardError::OutOfBounds,
    }
}

fn by_code(code: ErrorCode) -> Fail<BoardError>
    ensures { result ≡ by_code code }
{
    Fail::Of(match code {
        ErrorCode::OutOfMemory => return Fail::NoMemory,
        ErrorCode::ConstraintViolation(broken) => constraint(broken),
        ErrorCode::DatabaseBusy => BoardError::Busy,
        ErrorCode::DiskFull => BoardError::DiskFull,
        ErrorCode::CannotOpen => BoardError::CannotOpen,
        ErrorCode::NotADatabase | ErrorCode::DatabaseCorrupt => BoardError::NotABoard,
        _ => BoardError::Failed,
    })
}

/// What an error of SQL is to the board's clients. None reaches them as it is.
pub fn failure(error: Error) -> Fail<BoardError>
    ensures { result ≡ failure error }
{
    match error {
        Error::SqliteFailure(code) => by_code(code),
        Error::QueryReturnedNoRows => Fail::Of(BoardError::NotFound),
        _ => Fail::Of(BoardError::Failed),
    }
}
