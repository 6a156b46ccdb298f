//! Bodies in memory, in pieces.
ghost use Rattle.std.specs.Prelude.{◌≡◌, ◌<◌, ◌^◌, ◌++◌, [], Some, true, length};
ghost use Rattle.std.specs.Option.{IfNone, option_to_list};
ghost use Rattle.web_request.specs.Body.{is_body, piece_bytes};
ghost use Rattle.web_body.specs.MemoryBodies.{is_empty_piece, without_empty, marks_feed};

use std::collections::VecDeque;
use std::marker::Model;
use web_request::{Mark, Source, Turn};

/// A body in memory, as a `Source` that gives its marks in order and allocates nothing. It skips
/// empty pieces.
///
/// Contracts see the marks that are left, without empty pieces, and the counts of what it gave. The
/// counts of stalls and of faults stop at the greatest `u64`.
#[derive(Drop)]
pub struct Marks {
    left: VecDeque<Mark>,
    faults: u64,
    stalls: u64,
    given: u64,
}

impl Model for Marks {
    ghost use Rattle.std.specs.Prelude.{◌≡◌, ◌+◌, ◌<◌, ◌^◌, Some, true, false, length};
    ghost use Rattle.web_request.specs.Body.{is_body, piece_bytes};
    ghost use Rattle.web_request.specs.Feed.{Feed};
    ghost use Rattle.web_body.specs.MemoryBodies.{without_empty};

    ghost Value = { Feed };

    ghost view = { λ m. record {
      marks = Some (without_empty m.left.items);
      faults = m.faults;
      stalls = m.stalls;
      given = m.given;
      answers = length (without_empty m.left.items);
      lacked = false;
    } };

    ghost invariant = { λ m.
        (is_body (without_empty m.left.items) ≡ true)
        × (m.given + length (piece_bytes (without_empty m.left.items)) < 2 ^ 63) };
}

impl Marks {
    /// Makes a body of these marks. Only empty pieces may follow a fault, and the pieces must total
    /// less than 2^63 bytes. It allocates nothing.
    pub fn new(marks: Vec<Mark>) -> Marks
        requires body { is_body (without_empty marks.items) ≡ true }
        requires small { length (piece_bytes marks.items) < 2 ^ 63 }
        ensures { result ≡ marks_feed marks.items }
    {
        Marks {
            left: VecDeque::from(marks),
            faults: 0,
            stalls: 0,
            given: 0,
        }
    }

    /// The marks that are left, in two parts, with empty pieces among them. Where the first part
    /// ends is unspecified.
    pub fn left(&self) -> (&[Mark], &[Mark])
        ensures { self.now.marks ≡ Some (without_empty (result.0.now ++ result.1.now)) }
    {
        self.left.as_slices()
    }
}

impl Source for Marks {
    ghost feed = { λ m. m };

    // Inlined as `Held::add` is.
    #[inline(always)]
    fn next(&mut self) -> Turn {
        match pop_nonempty(&mut self.left) {
            Some(Mark::Piece(bytes)) => {
                self.given += bytes.len() as u64;
                Turn::Piece(bytes)
            }
            Some(Mark::Stall) => {
                self.stalls = self.stalls.saturating_add(1);
                Turn::Stall
            }
            Some(Mark::Fault) => {
                self.faults = self.faults.saturating_add(1);
                Turn::Fault
            }
            None => Turn::End,
        }
    }
}

/// Takes the first mark that is not an empty piece, and drops the empty pieces before it.
// Inlined as `Held::add` is.
#[inline(always)]
fn pop_nonempty(left: &mut VecDeque<Mark>) -> Option<Mark>
    ensures first { without_empty left.old.items
        ≡ option_to_list result ++ without_empty left.new.items }
    ensures none { IfNone result (left.new.items ≡ []) }
{
    while let Some(mark) = left.pop_front() {
        if !is_empty_piece(&mark) {
            return Some(mark);
        }
    }
    None
}

fn is_empty_piece(mark: &Mark) -> bool
    ensures { result ≡ is_empty_piece mark.now }
{
    match mark {
        Mark::Piece(bytes) => bytes.is_empty(),
        Mark::Stall => false,
        Mark::Fault => false,
    }
}
