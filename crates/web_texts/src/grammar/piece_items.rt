//! Lists of items that stand in the pieces of a text.
ghost use Rattle.std.specs.Prelude.{◌≡◌, ◌++◌, OnOk, flat_map};
ghost use Rattle.std.specs.List.{slice_split};
ghost use Rattle.web_texts.specs.Bytes.{is_comma};
ghost use Rattle.web_texts.specs.Pieces.{pieces};
ghost use Rattle.web_texts.specs.PieceItems.{item_of_piece, all_items, AddsPiece};
ghost use Rattle.web_texts.specs.TextReaders.{ReadsBy};

use crate::errors::ParseError;
use crate::grammar::blanks::trim;
use crate::grammar::cut::split_str_once;
use crate::grammar::pieces::{Mode, first_piece};
use crate::grammar::readers::ReadText;
use crate::memory::compact::push_compact;
use crate::memory::{Fail, NoMemory};
use std::alloc::Global;

/// Adds the item of a piece, if it has one that can be read.
fn push_readable<T: ReadText + Drop>(
    alloc: Global,
    out: &mut Vec<T>,
    piece: &str,
) -> Result<(), NoMemory>
    ensures { OnOk result (out.new.items ≡ out.old.items ++ item_of_piece T.reads piece.now) }
{
    let item = trim(piece);
    if item.is_empty() {
        return Ok(());
    }
    match T::parse(alloc, item) {
        Ok(value) => push_compact(out, value)?,
        Err(Fail::NoMemory) => return Err(NoMemory),
        Err(Fail::Of(_)) => {}
    }
    Ok(())
}

/// Adds the items between the commas of a text. Blanks round an item are trimmed; an item that is
/// blank or cannot be read is left out (RFC 9110, section 5.6.1).
pub fn push_items<T: ReadText + Drop>(
    alloc: Global,
    out: &mut Vec<T>,
    text: &str,
) -> Result<(), NoMemory>
    ensures { OnOk result (out.new.items ≡
        out.old.items ++ flat_map (item_of_piece T.reads) (slice_split is_comma text.now)) }
{
    let mut rest = text;
    'parts: loop {
        match split_str_once(rest, b',') {
            Some((part, after)) => {
                push_readable(alloc, out, part)?;
                rest = after;
            }
            None => return push_readable(alloc, out, rest),
        }
    }
}

/// As `push_items`, for a text that is cut where its modes say.
pub fn push_pieces<M: Mode, T: ReadText + Drop>(
    alloc: Global,
    out: &mut Vec<T>,
    text: &str,
) -> Result<(), NoMemory>
    ensures { OnOk result (out.new.items ≡
        out.old.items ++ flat_map (item_of_piece T.reads) (pieces M.rule M.rule.start text.now)) }
{
    let mut rest = text;
    'parts: loop {
        let (part, behind) = first_piece::<M>(rest);
        push_readable(alloc, out, part)?;
        match behind {
            Some(behind) => rest = behind,
            None => return Ok(()),
        }
    }
}

fn push_piece<T: ReadText + Drop>(
    alloc: Global,
    out: &mut Vec<T>,
    piece: &str,
) -> Result<(), Fail<ParseError>>
    ensures { AddsPiece T.reads piece.now out.old.items out.new.items result }
{
    let piece = trim(piece);
    if piece.is_empty() {
        return Ok(());
    }
    let item = T::parse(alloc, piece)?;
    push_compact(out, item)?;
    Ok(())
}

/// The items of a text that is cut where its modes say. Blanks round a piece are trimmed, and blank
/// pieces are left out. Returns `ParseError::Header` where any other piece cannot be read.
pub fn read_each<M: Mode, T: ReadText + Drop>(
    alloc: Global,
    text: &str,
) -> Result<Vec<T>, Fail<ParseError>>
    ensures { ReadsBy (λ v. v.items) result
        (all_items T.reads (pieces M.rule M.rule.start text.now)) }
{
    let mut out = Vec::new(alloc);
    let mut rest = text;
    'parts: loop {
        let (piece, behind) = first_piece::<M>(rest);
        push_piece(alloc, &mut out, piece)?;
        match behind {
            Some(behind) => rest = behind,
            None => return Ok(out),
        }
    }
}
