//! The file of a board.
ghost use Rattle.std.specs.Prelude.{◌≡◌, IfErr, IfOk, None};
ghost use Rattle.board_file.specs.FileAnswers.{IsOpenOne, StaysOrCloses};

use crate::access::BoardAccess;
use board_store::{Ask, Board, BoardError, Told, failure};
use sqlite::{Connection, File, FileStore};
use std::alloc::Global;
use web_texts::Fail;

/// When the file is opened.
#[derive(Clone, Copy, Debug, PartialEq, Eq)]
pub enum Opening {
    /// At the first request. It stays open, and nobody else can use it.
    Once,
    /// At each request, which reads all of it. Between two requests it is free.
    EachTime,
}

/// A board over a file.
#[derive(Drop)]
pub struct BoardFile {
    rt: HostRuntime,
    path: String,
    opening: Opening,
    open: Option<Board<FileStore<File>>>,
}

/// Whether the database is known to be as the board has it. Otherwise it is opened again, which
/// recovers it.
fn is_known(answer: &Result<Told, Fail<BoardError>>) -> bool {
    match answer {
        Ok(_) => true,
        Err(Fail::NoMemory) => false,
        Err(Fail::Of(error)) => match error {
            BoardError::NotFound
            | BoardError::TitleTaken
            | BoardError::TitleMissing
            | BoardError::OutOfBounds
            | BoardError::BoardFull
            | BoardError::DiskFull => true,
            BoardError::Busy
            | BoardError::CannotOpen
            | BoardError::NotABoard
            | BoardError::Failed => false,
        },
    }
}

impl BoardFile {
    /// The board of the file at this path, which is not opened yet.
    pub fn new(rt: HostRuntime, path: String, opening: Opening) -> BoardFile {
        BoardFile {
            rt,
            path,
            opening,
            open: None,
        }
    }

    fn open(&self) -> Result<Board<FileStore<File>>, Fail<BoardError>> {
        match Connection::open(&self.rt, self.path.as_str()) {
            Ok(conn) => Board::over(conn),
            Err(error) => Err(failure(error)),
        }
    }

    /// Takes the board that is open, or opens it.
    fn take(&mut self) -> Result<Board<FileStore<File>>, Fail<BoardError>>
        ensures board { IfOk result (λ board. IsOpenOne self.old.open board) }
        ensures err { IfErr result (λ _. self.old.open ≡ None) }
        ensures taken { self.new.open ≡ None }
    {
        match self.open.take() {
            Some(board) => Ok(board),
            None => self.open(),
        }
    }

    /// Keeps the board open, or closes it.
    fn put_back(&mut self, board: Board<FileStore<File>>, is_known: bool)
        requires { self.old.open ≡ None }
        ensures { StaysOrCloses board self.new.open }
    {
        if is_known && self.opening == Opening::Once {
            self.open = Some(board);
        }
    }
}

impl BoardAccess for BoardFile {
    ghost use Rattle.board_file.specs.FileAnswers.{FileAnswers};

    ghost answers = { λ a ask x b.
        FileAnswers ⟦<Board<FileStore<File>> as BoardAccess>⟧.answers a.open ask x b.open };

    /// Does what is asked, and opens the file where it is not open.
    fn answer(&mut self, alloc: Global, ask: &Ask) -> Result<Told, Fail<BoardError>> {
        match self.take() {
            Ok(mut board) => {
                let answer = BoardAccess::answer(&mut board, alloc, ask);
                self.put_back(board, is_known(&answer));
                answer
            }
            Err(error) => Err(error),
        }
    }
}
