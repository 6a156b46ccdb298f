//! A typed header as an argument.
ghost use Rattle.std.specs.Prelude.{◌≡◌};

use std::alloc::Global;
use std::fmt;
use std::ops::{Deref, DerefMut};
use web_body::Payload;
use web_extract::{FromRequest, Ready};
use web_request::{App, HttpRequest, NoMemory};
use web_texts::{Duplicate, Fail, ParseError};

/// A typed header of the request, as an argument. It leaves the body to the other arguments.
#[derive(Debug, Drop, PartialEq, Eq, PartialOrd, Ord)]
pub struct Header<T>(pub T);

impl<T> Header<T> {
    /// The typed header.
    pub fn into_inner(self) -> T
        ensures { result ≡ self.0 }
    {
        let Header(value) = self;
        value
    }
}

/// What all values of the header's name say (`web_headers::Header::parse`), at the first poll.
/// Refused with `ParseError::Header` exactly where they say no value of the type: which headers
/// may be absent is said at their types.
impl<A: App, T: web_headers::Header + Drop> FromRequest<A> for Header<T> {
    ghost use Rattle.std.specs.Prelude.{⊤};
    ghost use Rattle.web_extract_head.specs.HeaderArgument.{MeansHeader, header_some};
    ghost use Rattle.web_extract_head.specs.HeaderArgument.{parse_converted, request_values};

    type Error = ParseError;

    type Future = Ready<Result<Header<T>, ParseError>>;

    ghost means = { λ q m rest n x.
        MeansHeader (T.says (request_values T.called q)) m rest n x };

    ghost leaves = { λ _. ⊤ };

    ghost some = { λ q m. header_some (T.says (request_values T.called q)) m };

    ghost converted = { parse_converted };

    fn from_request(
        alloc: Global,
        req: &HttpRequest<A>,
        _payload: &mut Payload<A::Source>,
    ) -> Result<Ready<Result<Header<T>, ParseError>>, NoMemory> {
        match T::parse(alloc, req.headers()) {
            Ok(value) => Ok(Ready::new(Ok(Header(value)))),
            Err(Fail::Of(refusal)) => Ok(Ready::new(Err(refusal))),
            Err(Fail::NoMemory) => Err(NoMemory),
        }
    }
}

impl<T: fmt::Display> fmt::Display for Header<T> {
    ghost output = { λ header. T.output header.0 };

    fn fmt<W: fmt::Write>(&self, f: &mut fmt::Formatter<W>) -> fmt::Result {
        write!(f, "{}", self.0)
    }
}

impl<T: Duplicate> Duplicate for Header<T> {
    fn duplicate(&self, alloc: Global) -> Result<Header<T>, NoMemory> {
        Ok(Header(self.0.duplicate(alloc)?))
    }
}

impl<T> Deref for Header<T> {
    type Target = T;

    ghost deref_gives = { λ header value. value ≡ header.0 };

    fn deref(&self) -> &T {
        &self.0
    }
}

impl<T> DerefMut for Header<T> {
    ghost use Rattle.std.specs.Borrow.{Lends, sem};
    ghost use Rattle.web_extract_head.specs.contracts.header_argument.Header.{the_row};

    ghost deref_mut_gives = { λ header value. value ≡ header.0 };

    fn deref_mut(&mut self) -> &mut T
        ensures* writes_back { sem 𝓛 (Lends (the_row T.row) T.row
            self.entry result (λ x. record { 0 = x })) }
        ensures shows { result.now ≡ self.old.0 }
    {
        &mut self.0
    }
}
