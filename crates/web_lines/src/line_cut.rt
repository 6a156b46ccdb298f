//! The first line of the bytes that came.
ghost use Rattle.std.specs.Prelude.{◌≡◌, ◌<◌, ◌≤◌, ◌++◌, [], OnErr, OnOk, length};
ghost use Rattle.web_lines.specs.LineCuts.{Cuts, IsSearched, IsUnfinished, LeavesFront};
ghost use Rattle.web_lines.specs.LineCuts.{RefusesLong};
ghost use Rattle.web_lines.specs.LineCuts.{TakesLine};

use bytes::Bytes;
use memchr::memchr;
use std::alloc::Global;
use std::mem;
use web_texts::{NoMemory, Text};

/// What stands at the front of the bytes that came.
#[derive(Drop)]
pub enum LineCut {
    /// A line with its newline.
    Line(Text),
    /// A line, or the front of one, that has more bytes than the limit.
    TooLong,
    /// A line that is not UTF-8.
    NotText,
    /// The front of a line, or nothing.
    Unfinished,
    /// Allocation failed.
    NoMemory,
}

/// Takes the first line of what is held, the front of a line, and of the piece after it. It
/// allocates only where there is a line.
pub fn cut_line(alloc: Global, held: &mut Vec<u8>, piece: &mut Bytes, limit: usize) -> LineCut
    requires unfinished { IsUnfinished limit held.old.items }
    ensures cuts { Cuts limit held.old.items piece.old result held.new.items piece.new }
    ensures front { LeavesFront limit (held.old.items ++ piece.old) result }
    ensures long { RefusesLong limit (held.old.items ++ piece.old) result }
    ensures left { length piece.new ≤ length piece.old }
{
    let room = limit - held.len();
    let size = piece.len();
    match memchr(b'\n', piece.as_slice()) {
        Some(front) => {
            if room <= front {
                return LineCut::TooLong;
            }
            let cut = take_line(alloc, held, &piece.as_slice()[..front + 1]);
            piece.advance(front + 1);
            cut
        }
        None => {
            if room < size {
                LineCut::TooLong
            } else {
                LineCut::Unfinished
            }
        }
    }
}

/// As `cut_line`, but a piece that was searched once and has no newline is not searched again.
pub fn next_cut(
    alloc: Global,
    held: &mut Vec<u8>,
    piece: &mut Bytes,
    is_searched: &mut bool,
    limit: usize,
) -> LineCut
    requires unfinished { IsUnfinished limit held.old.items }
    requires searched { IsSearched limit is_searched.old (held.old.items ++ piece.old) }
    ensures cuts { Cuts limit held.old.items piece.old result held.new.items piece.new }
    ensures front { LeavesFront limit (held.old.items ++ piece.old) result }
    ensures long { RefusesLong limit (held.old.items ++ piece.old) result }
    ensures left { length piece.new ≤ length piece.old }
    ensures searched { IsSearched limit is_searched.new (held.new.items ++ piece.new) }
{
    if *is_searched {
        return LineCut::Unfinished;
    }
    match cut_line(alloc, held, piece, limit) {
        LineCut::Unfinished => {
            *is_searched = true;
            LineCut::Unfinished
        }
        found => found,
    }
}

/// Takes what is held and the bytes after it as a line.
pub fn take_line(alloc: Global, held: &mut Vec<u8>, end: &[u8]) -> LineCut
    ensures { TakesLine (held.old.items ++ end.now) result held.new.items }
{
    let mut line = mem::replace(held, Vec::new(alloc));
    match line.extend_from_slice(end) {
        Ok(()) => as_line(line),
        Err(_) => LineCut::NoMemory,
    }
}

fn as_line(line: Vec<u8>) -> LineCut
    ensures { TakesLine line.items result [] }
{
    match String::from_utf8(line) {
        Ok(text) => LineCut::Line(Text::from(text)),
        Err(_) => LineCut::NotText,
    }
}

/// Holds the piece too, and puts the next one after it.
pub fn hold_piece(held: &mut Vec<u8>, piece: &mut Bytes, next: Bytes) -> Result<(), NoMemory>
    ensures held { OnOk result (held.new.items ≡ held.old.items ++ piece.old) }
    ensures piece { OnOk result (piece.new ≡ next) }
    ensures memory { OnErr result (0 < length piece.old) }
{
    held.extend_from_slice(piece.as_slice())?;
    *piece = next;
    Ok(())
}
