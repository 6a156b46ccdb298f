//! The parts of a multipart body, read from pieces as they come.
#![tactic(auto)]

mod part;
mod part_head;
mod part_machine;
mod part_reader;
mod piece_parts;
mod places;

pub use part::{Part, PartError};
pub use part_head::{HeadField, PartHead, read_part_head};
pub use part_machine::{PartMachine, PartState, PartStep};
pub use part_reader::PartReader;
pub use piece_parts::{BodyEnd, parts_of_pieces};
