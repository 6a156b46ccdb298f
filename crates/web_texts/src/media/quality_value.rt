//! Quality values of 0 to 1000 thousandths, and the text that they print.
ghost use Rattle.std.specs.Prelude.{◌≡◌, ◌≤◌, ◌<◌, ◌+◌, ◌==◌};
ghost use Rattle.web_texts.specs.QualityValues.{quality_of, fraction_of as fraction_spec};

use crate::grammar::cut::cut_first;
use std::fmt;
use std::marker::Model;

/// How much an item of a list is preferred, from 0 to 1000 thousandths (RFC 9110, section 12.4.2).
/// Zero says that it is not acceptable. Contracts see the thousandths.
#[derive(Clone, Copy, Debug, PartialEq, Eq, PartialOrd, Ord, Hash)]
pub struct Quality {
    thousandths: u16,
}

impl Model for Quality {
    ghost use Rattle.std.specs.Prelude.{ℕ, ◌≤◌};

    ghost Value = { ℕ };

    ghost view = { λ q. q.thousandths };

    ghost invariant = { λ q. q.thousandths ≤ 1000 };

    ghost inverse = { λ n. record { thousandths = n } };
}

impl Quality {
    /// The quality of 1000 thousandths, which an item has where none is given.
    pub const MAX: Quality = Quality { thousandths: 1000 };

    /// The quality of 0 thousandths.
    pub const ZERO: Quality = Quality { thousandths: 0 };

    /// The thousandths, at most 1000.
    pub fn thousandths(&self) -> u16
        ensures value { result ≡ self.now }
        ensures most { result ≤ 1000 }
    {
        self.thousandths
    }
}

/// A quality of so many thousandths.
pub fn q(thousandths: u16) -> Quality
    requires { thousandths ≤ 1000 }
    ensures { result ≡ thousandths }
{
    Quality { thousandths }
}

/// The thousandths that up to three digits after the point stand for.
fn fraction_of(digits: &[u8]) -> Option<u16>
    ensures { result ≡ fraction_spec digits.now }
{
    if !digits.iter().all(|b| b.is_ascii_digit()) {
        return None;
    }
    match digits {
        [] => Some(0),
        [a] => Some(u16::from(*a - b'0') * 100),
        [a, b] => Some(u16::from(*a - b'0') * 100 + u16::from(*b - b'0') * 10),
        [a, b, c] => {
            Some(u16::from(*a - b'0') * 100 + u16::from(*b - b'0') * 10 + u16::from(*c - b'0'))
        }
        _ => None,
    }
}

/// The quality that a text stands for, if it is one.
pub(crate) fn read_quality(text: &[u8]) -> Option<Quality>
    ensures { result ≡ quality_of text.now }
{
    let (whole, digits) = cut_first(text, b'.');
    let fraction = fraction_of(digits)?;
    match whole {
        [b'0'] => Some(q(fraction)),
        [b'1'] if fraction == 0 => Some(q(1000)),
        _ => None,
    }
}

fn digit(n: u16) -> char
    requires { n < 10 }
    ensures { result ≡ 48 + n }
{
    char::from(b'0' + n as u8)
}

/// The digits after the point.
#[derive(Drop)]
struct Fraction {
    thousandths: u16,
    ghost small: { thousandths < 1000 },
}

impl fmt::Display for Fraction {
    ghost use Rattle.std.specs.Prelude.{Some};
    ghost use Rattle.web_texts.specs.QualityValues.{fraction_text};

    ghost output = { λ q. Some (fraction_text q.thousandths) };

    fn fmt<W: fmt::Write>(&self, f: &mut fmt::Formatter<W>) -> fmt::Result {
        let n = self.thousandths;
        f.write_char(digit(n / 100))?;
        if n % 100 == 0 {
            return Ok(());
        }
        f.write_char(digit(n / 10 % 10))?;
        if n % 10 == 0 {
            return Ok(());
        }
        f.write_char(digit(n % 10))
    }
}

/// What is printed of a quality after an item.
#[derive(Drop)]
pub(crate) struct Weight(pub(crate) Quality);

impl fmt::Display for Weight {
    ghost use Rattle.std.specs.Prelude.{Some};
    ghost use Rattle.web_texts.specs.QualityValues.{weight_text};

    ghost output = { λ w. Some (weight_text w.0) };

    fn fmt<W: fmt::Write>(&self, f: &mut fmt::Formatter<W>) -> fmt::Result {
        let thousandths = self.0.thousandths();
        match thousandths {
            1000 => Ok(()),
            0 => f.write_str("; q=0"),
            _ => write!(f, "; q=0.{}", Fraction { thousandths }),
        }
    }
}
