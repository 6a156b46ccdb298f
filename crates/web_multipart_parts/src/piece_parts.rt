//! The parts of a body that comes in pieces.
ghost use Rattle.std.specs.Prelude.{◌≡◌, ◌≤◌, ◌^◌, IfOk, flat_map};
ghost use Rattle.web_multipart_parts.specs.Parts.{delimiter_of, parts_of};
ghost use Rattle.web_multipart_parts.specs.PieceParts.{Drains, PartsAre};

use crate::part::{Part, PartError};
use crate::part_machine::PartStep;
use crate::part_reader::PartReader;
use std::alloc::Global;
use web_texts::NoMemory;

/// How a body ends.
#[derive(Clone, Copy, Debug, PartialEq, Eq)]
pub enum BodyEnd {
    /// With the closing boundary.
    Closed,
    /// With an error.
    Failed(PartError),
    /// Before either.
    Unfinished,
}

/// Takes the parts that stand in the bytes that came; the end, where it stands there too.
fn drain(
    alloc: Global,
    reader: &mut PartReader,
    parts: &mut Vec<Part>,
) -> Result<Option<BodyEnd>, NoMemory>
    ensures { IfOk result (λ end.
        Drains reader.old parts.old.items end reader.new parts.new.items) }
{
    'parts: loop {
        match reader.next(alloc) {
            PartStep::More => return Ok(None),
            PartStep::Part(part) => parts.push(part)?,
            PartStep::Closed => return Ok(Some(BodyEnd::Closed)),
            PartStep::Failed(error) => return Ok(Some(BodyEnd::Failed(error))),
            PartStep::NoMemory => return Err(NoMemory),
        }
    }
}

/// The parts of a body that comes in these pieces, and how it ends, however it is cut. A part has
/// at most `limit` bytes, which is at most 2^62. Returns `NoMemory` where an allocation failed.
pub fn parts_of_pieces(
    alloc: Global,
    boundary: &[u8],
    limit: usize,
    pieces: &[Vec<u8>],
) -> Result<(Vec<Part>, BodyEnd), NoMemory>
    requires { limit ≤ 2 ^ 62 }
    ensures { IfOk result (λ found. PartsAre found.0.items found.1
        (parts_of (record { delimiter = delimiter_of boundary.now; limit = limit })
        (flat_map (λ piece. piece.items) pieces.now))) }
{
    let mut reader = PartReader::new(alloc, boundary, limit)?;
    let mut parts = Vec::new(alloc);
    for piece in pieces {
        reader.feed(piece.as_slice())?;
        match drain(alloc, &mut reader, &mut parts)? {
            Some(end) => return Ok((parts, end)),
            None => {}
        }
    }
    Ok((parts, BodyEnd::Unfinished))
}
