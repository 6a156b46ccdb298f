//! A value that is read from JSON, or written as JSON.
ghost use Rattle.std.specs.Prelude.{◌≡◌};

use std::fmt;
use std::ops::{Deref, DerefMut};

/// A value that is read from the JSON (RFC 8259) of a body, or written as JSON into a response.
///
/// As an argument it asks for a `ReadJson`, as a response for a `WriteJson`.
#[derive(Debug, Drop)]
pub struct Json<T>(pub T);

impl<T> Json<T> {
    /// The value.
    pub fn into_inner(self) -> T
        ensures { result ≡ self.0 }
    {
        let Json(value) = self;
        value
    }
}

/// Prints the value.
impl<T: fmt::Display> fmt::Display for Json<T> {
    ghost output = { λ json. T.output json.0 };

    fn fmt<W: fmt::Write>(&self, f: &mut fmt::Formatter<W>) -> fmt::Result {
        write!(f, "{}", self.0)
    }
}

impl<T> Deref for Json<T> {
    type Target = T;

    ghost deref_gives = { λ json value. value ≡ json.0 };

    fn deref(&self) -> &T {
        &self.0
    }
}

impl<T> DerefMut for Json<T> {
    ghost use Rattle.std.specs.Borrow.{Lends, sem};
    ghost use Rattle.web_extract_body.specs.contracts.json_value.Json.{the_row};

    ghost deref_mut_gives = { λ json value. value ≡ json.0 };

    fn deref_mut(&mut self) -> &mut T
        ensures* writes_back { sem 𝓛 (Lends (the_row T.row) T.row
            self.entry result (λ x. record { 0 = x })) }
        ensures shows { result.now ≡ self.old.0 }
    {
        &mut self.0
    }
}
