//! One call for all that a board is asked.
ghost use Rattle.board_store.specs.BoardAnswers.{Answers, SurvivesAsk};

use crate::ask::{Ask, Told};
use crate::board::Board;
use crate::board_error::BoardError;
use sqlite::Alter;
use std::alloc::Global;
use web_texts::Fail;

impl<S: Alter + Drop> Board<S> {
    /// Does what is asked, in one statement.
    pub fn answer(&mut self, alloc: Global, ask: &Ask) -> Result<Told, Fail<BoardError>>
        ensures answers { Answers S.Store self.old self.new ask.now result }
        ensures survives { SurvivesAsk S.Store self.old self.new ask.now }
    {
        match ask {
            Ask::List(after) => match self.list(alloc, *after) {
                Ok(page) => Ok(Told::Listing(page)),
                Err(error) => Err(error),
            },
            Ask::Get(id) => match self.get(*id) {
                Ok(item) => Ok(Told::Item(item)),
                Err(error) => Err(error),
            },
            Ask::Add(draft) => match self.add(draft) {
                Ok(item) => Ok(Told::Item(item)),
                Err(error) => Err(error),
            },
            Ask::Update(id, draft) => match self.update(*id, draft) {
                Ok(item) => Ok(Told::Item(item)),
                Err(error) => Err(error),
            },
            Ask::Delete(id) => match self.delete(*id) {
                Ok(()) => Ok(Told::Deleted),
                Err(error) => Err(error),
            },
        }
    }
}
