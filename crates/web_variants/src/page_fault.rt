//! A place at which no variant stands.
use std::error::Error;
use std::fmt;

/// There is no variant at this place, which counts from 0.
#[derive(Clone, Copy, Debug, Drop, PartialEq, Eq)]
pub struct NoSuchVariant {
    /// The place that was asked for.
    pub place: usize,
}

impl fmt::Display for NoSuchVariant {
    ghost use Rattle.std.specs.Prelude.{Some};
    ghost use Rattle.web_variants.specs.VariantFaultTexts.{no_such_variant_text};

    ghost output = { λ fault. Some (no_such_variant_text fault) };

    fn fmt<W: fmt::Write>(&self, f: &mut fmt::Formatter<W>) -> fmt::Result {
        write!(f, "there is no variant at {}", self.place)
    }
}

impl Error for NoSuchVariant {}
