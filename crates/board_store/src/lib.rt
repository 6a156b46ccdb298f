//! A board whose items a SQLite file holds.
#![tactic(auto)]

mod answering;
mod ask;
mod board;
mod board_error;
mod draft;
mod item;
mod listing;
mod rows;
mod statements;

pub use ask::{Ask, Told};
pub use board::{Board, MOST_ITEMS};
pub use board_error::{BoardError, failure};
pub use draft::Draft;
pub use item::Item;
pub use listing::Listing;
