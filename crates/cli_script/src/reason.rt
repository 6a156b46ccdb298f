//! Why a line of a script is faulty.
use std::fmt;

/// Why a line of a script is faulty. The text of each is that of a refusal.
#[derive(Clone, Copy, Debug, PartialEq, Eq)]
pub enum LineFault {
    /// The word is none that a script has.
    UnknownLine,
    /// A line of another word than `plan` after a `plan` line.
    LineAfterPlan,
    /// A line of an exchange before the first `exchange` line.
    NoExchange,
    /// A `text`, `piece`, `stall` or `fault` line after a `fault` line of the same exchange.
    MarkAfterFault,
    /// A `header` line after 1,024 of the same exchange.
    TooManyHeaders,
    /// The argument of an `exchange` line is not a method, one space and a target.
    BadExchange,
    /// The argument of a `header` line is not a field name and a field value.
    BadHeader,
    /// The argument of a `param` line is not a name and a value in UTF-8.
    BadParam,
    /// The argument of a `layer` line is not a list of settings.
    BadLayer,
    /// The argument of a `piece` line is not an even number of hexadecimal digits.
    BadPiece,
    /// The argument of a `peer` line is not an address of IPv4 with a port.
    BadPeer,
    /// The argument of a `local` or `conn` line is not a number up to 2^64 - 1.
    BadNumber,
    /// The argument of a `stall` or `fault` line is not empty.
    BadMark,
    /// The argument of a `plan` line is not a list of numbers up to 4,294,967,295.
    BadPlan,
}

impl fmt::Display for LineFault {
    ghost use Rattle.std.specs.Prelude.{Some};
    ghost use Rattle.cli_script.specs.ReasonTexts.{reason_text};

    ghost output = { λ r. Some (reason_text r) };

    fn fmt<W: fmt::Write>(&self, f: &mut fmt::Formatter<W>) -> fmt::Result {
        f.write_str(match self {
            LineFault::UnknownLine => "unknown line",
            LineFault::LineAfterPlan => "line after plan",
            LineFault::NoExchange => "no exchange",
            LineFault::MarkAfterFault => "mark after fault",
            LineFault::TooManyHeaders => "too many headers",
            LineFault::BadExchange => "bad exchange",
            LineFault::BadHeader => "bad header",
            LineFault::BadParam => "bad param",
            LineFault::BadLayer => "bad layer",
            LineFault::BadPiece => "bad piece",
            LineFault::BadPeer => "bad peer",
            LineFault::BadNumber => "bad number",
            LineFault::BadMark => "bad mark",
            LineFault::BadPlan => "bad plan",
        })
    }
}
