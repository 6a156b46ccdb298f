//! The positions that a byte range selects.
ghost use Rattle.std.specs.Prelude.{ℕ};
ghost use Rattle.web_negotiate.specs.SelectedPositions.{AreEnds};

use web_entities::ByteRangeSpec;

/// A range that selects positions of a representation.
pub trait SatisfiableRange {
    ghost selects: { Self → ℕ → ℕ → Type 0 };

    /// The first and the last of the positions below `full_length` that the range selects, counted
    /// from 0 (RFC 9110, section 14.1.2). `None` where it selects none, as the last 0 bytes, or a
    /// range that begins at the length.
    fn to_satisfiable_range(&self, full_length: u64) -> Option<(u64, u64)>
        ensures { AreEnds (selects self.now full_length) result };
}

impl SatisfiableRange for ByteRangeSpec {
    ghost use Rattle.web_negotiate.specs.SelectedPositions.{Selects};

    ghost selects = { Selects };

    fn to_satisfiable_range(&self, full_length: u64) -> Option<(u64, u64)> {
        if full_length == 0 {
            return None;
        }
        let end = full_length - 1;
        match *self {
            ByteRangeSpec::FromTo(a, b) if a <= end && a <= b => Some((a, b.min(end))),
            ByteRangeSpec::From(a) if a <= end => Some((a, end)),
            ByteRangeSpec::Last(k) if k > 0 => Some((full_length.saturating_sub(k), end)),
            _ => None,
        }
    }
}
