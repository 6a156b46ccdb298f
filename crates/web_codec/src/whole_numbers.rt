//! Whole numbers within the bounds of their types.
ghost use Rattle.std.specs.Prelude.{◌≡◌, ◌≤◌, ◌≤ℤ◌, IfOk};
ghost use Rattle.web_codec.specs.Answers.{Answers, IsFault};
ghost use Rattle.web_codec.specs.WholeNumbers.{
  above,
  outside,
  signed_number_of,
  up_to,
  within,
};

use crate::faults::ReadFault;
use std::alloc::Global;
use web_texts::{Fail, Text, number_of};

fn above(alloc: Global, most: u64) -> Fail<ReadFault>
    ensures { IsFault (above most) result }
{
    match format!(in alloc; "no whole number from 0 to {most}") {
        Ok(text) => Fail::Of(ReadFault {
            text: Text::from(text),
        }),
        Err(_) => Fail::NoMemory,
    }
}

fn outside(alloc: Global, least: i64, most: i64) -> Fail<ReadFault>
    ensures { IsFault (outside least most) result }
{
    match format!(in alloc; "no whole number from {least} to {most}") {
        Ok(text) => Fail::Of(ReadFault {
            text: Text::from(text),
        }),
        Err(_) => Fail::NoMemory,
    }
}

/// The number, if it is at most this.
pub(crate) fn up_to(alloc: Global, number: Option<u64>, most: u64) -> Result<u64, Fail<ReadFault>>
    ensures number { Answers (λ x. x ≡ up_to most number) result }
    ensures fits { IfOk result (λ n. n ≤ most) }
{
    match number {
        Some(n) if n <= most => Ok(n),
        _ => Err(above(alloc, most)),
    }
}

/// The number, if it stands within these bounds.
pub(crate) fn within(
    alloc: Global,
    number: Option<i64>,
    least: i64,
    most: i64,
) -> Result<i64, Fail<ReadFault>>
    ensures number { Answers (λ x. x ≡ within least most number) result }
    ensures fits { IfOk result (λ n. (least ≤ℤ n) × (n ≤ℤ most)) }
{
    match number {
        Some(n) if least <= n && n <= most => Ok(n),
        _ => Err(outside(alloc, least, most)),
    }
}

/// The number that a text of digits is, before which a minus may stand.
pub(crate) fn signed_number_of(text: &[u8]) -> Option<i64>
    ensures { result ≡ signed_number_of text.now }
{
    let Some(first) = text.first() else {
        return None;
    };
    if *first == b'-' {
        let n = number_of(&text[1..], 9223372036854775808)?;
        return Some((-(n as i128)) as i64);
    }
    let n = number_of(text, 9223372036854775807)?;
    Some(n as i64)
}
