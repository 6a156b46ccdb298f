//! The first segment of a path.
ghost use Rattle.std.specs.Prelude.{◌≡◌};
ghost use Rattle.cli_script.specs.Segments.{first_segment};

use web_texts::cut_first;

/// The text between the first slash of a path and the next, or the end. Empty where the path has no
/// slash.
pub fn first_segment(path: &str) -> &[u8]
    ensures { result.now ≡ first_segment path.now }
{
    let (_, rest) = cut_first(path.as_bytes(), b'/');
    let (segment, _) = cut_first(rest, b'/');
    segment
}
