//! A value that is read from a form, or written as one.
ghost use Rattle.std.specs.Prelude.{◌≡◌};

use std::fmt;
use std::ops::{Deref, DerefMut};

/// A value that is read from a body of the type `application/x-www-form-urlencoded` (URL Standard,
/// section 5), or written as such into a response.
///
/// As an argument it asks for a `ReadPairs`, as a response for a `WritePairs`.
#[derive(Debug, Drop, PartialEq, Eq, PartialOrd, Ord)]
pub struct Form<T>(pub T);

impl<T> Form<T> {
    /// The value.
    pub fn into_inner(self) -> T
        ensures { result ≡ self.0 }
    {
        let Form(value) = self;
        value
    }
}

/// Prints the value.
impl<T: fmt::Display> fmt::Display for Form<T> {
    ghost output = { λ form. T.output form.0 };

    fn fmt<W: fmt::Write>(&self, f: &mut fmt::Formatter<W>) -> fmt::Result {
        write!(f, "{}", self.0)
    }
}

impl<T> Deref for Form<T> {
    type Target = T;

    ghost deref_gives = { λ form value. value ≡ form.0 };

    fn deref(&self) -> &T {
        &self.0
    }
}

impl<T> DerefMut for Form<T> {
    ghost use Rattle.std.specs.Borrow.{Lends, sem};
    ghost use Rattle.web_extract_body.specs.contracts.form_value.Form.{the_row};

    ghost deref_mut_gives = { λ form value. value ≡ form.0 };

    fn deref_mut(&mut self) -> &mut T
        ensures* writes_back { sem 𝓛 (Lends (the_row T.row) T.row
            self.entry result (λ x. record { 0 = x })) }
        ensures shows { result.now ≡ self.old.0 }
    {
        &mut self.0
    }
}
