//! The SQLite file of a board: opened once, or for each request.
#![tactic(auto)]

mod access;
mod board_file;

pub use access::BoardAccess;
pub use board_file::{BoardFile, Opening};
