//! The number of a `local` or `conn` line.
ghost use Rattle.std.specs.Prelude.{◌≡◌, is_some};
ghost use Rattle.cli_script.specs.Acceptance.{Accepts};
ghost use Rattle.cli_script.specs.LineFaults.{unless};
ghost use Rattle.web_texts.specs.Digits.{number_of};
ghost use Rattle.cli_script.specs.Numbers.{line_number};
ghost use Rattle.cli_script.specs.declared.reason.LineFault.TheVariants.{BadNumber};

use crate::reason::LineFault;
use web_texts::{Fail, number_of};

/// The number of a `local` or `conn` line, whose argument is digits.
pub(crate) fn read_number(text: &[u8]) -> Result<u64, Fail<LineFault>>
    ensures { Accepts result (unless (is_some (number_of text.now)) BadNumber)
        (λ number. number ≡ line_number text.now) }
{
    match number_of(text, u64::MAX) {
        Some(number) => Ok(number),
        None => Err(Fail::Of(LineFault::BadNumber)),
    }
}
