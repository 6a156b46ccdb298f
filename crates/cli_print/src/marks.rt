//! The lines of the marks that are left of a body.
ghost use Rattle.std.specs.Prelude.{◌≡◌, ◌++◌, [], ◌∷◌, OnOk, flat_map};
ghost use Rattle.web_request.specs.Body.{whole};
ghost use Rattle.web_body.specs.MemoryBodies.{without_empty};
ghost use Rattle.web_body.specs.Payload.{payload_feed};
ghost use Rattle.cli_print.specs.BodyLines.{mark_line, mark_lines};

use crate::hexadecimal::put_hexadecimal;
use crate::lines::put;
use web_body::{Mark, Marks, Payload};
use web_texts::NoMemory;

fn put_piece(out: &mut Vec<u8>, bytes: &[u8]) -> Result<(), NoMemory>
    ensures { OnOk result (out.new.items ≡ out.old.items ++ flat_map mark_line (whole bytes.now)) }
{
    if bytes.is_empty() {
        return Ok(());
    }
    put_hexadecimal(out, b"mark piece ", bytes)
}

fn put_mark(out: &mut Vec<u8>, mark: &Mark) -> Result<(), NoMemory>
    ensures { OnOk result (out.new.items
        ≡ out.old.items ++ flat_map mark_line (without_empty (mark.now ∷ []))) }
{
    match mark {
        Mark::Piece(bytes) => put_piece(out, bytes.as_slice()),
        Mark::Stall => put(out, b"mark stall\n"),
        Mark::Fault => put(out, b"mark fault\n"),
    }
}

fn put_part(out: &mut Vec<u8>, marks: &[Mark]) -> Result<(), NoMemory>
    ensures { OnOk result (out.new.items
        ≡ out.old.items ++ flat_map mark_line (without_empty marks.now)) }
{
    for mark in marks {
        put_mark(out, mark)?;
    }
    Ok(())
}

fn put_left(out: &mut Vec<u8>, marks: &Marks) -> Result<(), NoMemory>
    ensures { OnOk result (out.new.items ≡ out.old.items ++ mark_lines marks.now.marks) }
{
    let (first, second) = marks.left();
    put_part(out, first)?;
    put_part(out, second)
}

/// The marks that are left of a payload, one a line.
pub(crate) fn put_marks(out: &mut Vec<u8>, payload: &Payload<Marks>) -> Result<(), NoMemory>
    ensures { OnOk result (out.new.items
        ≡ out.old.items ++ mark_lines (payload_feed (λ feed. feed) payload.now).marks) }
{
    match payload {
        Payload::None => Ok(()),
        Payload::Whole(bytes) => put_piece(out, bytes.as_slice()),
        Payload::Stream(marks) => put_left(out, marks),
    }
}
