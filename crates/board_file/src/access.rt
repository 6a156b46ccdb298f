//! What answers for a board.
use board_store::{Ask, Board, BoardError, Told};
use sqlite::Alter;
use std::alloc::Global;
use web_texts::Fail;

/// What answers for a board: an open one, or one that is opened for it.
pub trait BoardAccess: Drop {
    ghost use Rattle.std.specs.Prelude.{Result};
    ghost use Rattle.web_texts.specs.declared.memory.Fail.{Fail};
    ghost use Rattle.board_store.specs.declared.ask.Ask.{Ask};
    ghost use Rattle.board_store.specs.declared.ask.Told.{Told};
    ghost use Rattle.board_store.specs.declared.board_error.BoardError.{BoardError};

    /// Whether, in the first state, this ask may get this answer and leave the second state.
    ghost answers: { Self → Ask → Result Told (Fail BoardError) → Self → Type 0 };

    /// Does what is asked.
    fn answer(&mut self, alloc: Global, ask: &Ask) -> Result<Told, Fail<BoardError>>
        ensures { answers self.old ask.now result self.new };
}

/// A board that is open.
impl<S: Alter + Drop> BoardAccess for Board<S> {
    ghost use Rattle.board_file.specs.FileAnswers.{OpenAnswers};

    ghost answers = { λ a ask x b. OpenAnswers S.Store a ask x b };

    fn answer(&mut self, alloc: Global, ask: &Ask) -> Result<Told, Fail<BoardError>> {
        Board::answer(self, alloc, ask)
    }
}
