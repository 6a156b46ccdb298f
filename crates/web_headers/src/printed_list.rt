//! Lists in print.
ghost use Rattle.std.specs.Prelude.{◌≡◌, ℕ, List, Some};
ghost use Rattle.std.specs.Fmt.{WritesOnOk};
ghost use Rattle.web_headers.specs.PrintedLists.{comma_joined, later_items};

use std::fmt;

/// Prints each part with `, ` before it.
fn fmt_later<T: fmt::Display, W: fmt::Write>(f: &mut fmt::Formatter<W>, parts: &[T]) -> fmt::Result
    ensures { (text : T → List ℕ) → ((x : T) → T.output x ≡ Some (text x))
        → WritesOnOk W.write_str_gives f.old result (later_items text parts.now) f.new }
{
    for part in parts {
        write!(f, ", {part}")?;
    }
    Ok(())
}

/// Prints the parts with `, ` between them. It fails where the writer does.
pub fn fmt_comma_delimited<T: fmt::Display, W: fmt::Write>(
    f: &mut fmt::Formatter<W>,
    parts: &[T],
) -> fmt::Result
    ensures { (text : T → List ℕ) → ((x : T) → T.output x ≡ Some (text x))
        → WritesOnOk W.write_str_gives f.old result (comma_joined text parts.now) f.new }
{
    match parts {
        [] => Ok(()),
        [first, later @ ..] => {
            write!(f, "{first}")?;
            fmt_later(f, later)
        }
    }
}
