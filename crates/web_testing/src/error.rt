//! Why a test has no request, or no reply.

use std::error::Error;
use std::fmt;
use web_reply::HttpError;
use web_texts::NoMemory;

/// Why a request could not be made, or a reply not be read.
#[derive(Clone, Copy, Debug, PartialEq, Eq)]
pub enum TestError {
    /// The text is no request target (RFC 9112, section 3.2).
    Target,
    /// A header could not be set.
    Header(HttpError),
    /// The handler had no response ready after `MOST_POLLS` polls.
    Unfinished,
    /// The body of the reply ends in a fault, or stalls `MOST_POLLS` times.
    Body,
    /// An allocation failed.
    NoMemory,
}

impl fmt::Display for TestError {
    ghost use Rattle.std.specs.Prelude.{Some};
    ghost use Rattle.web_testing.specs.TestErrors.{error_text};

    ghost output = { λ e. Some (error_text e) };

    fn fmt<W: fmt::Write>(&self, f: &mut fmt::Formatter<W>) -> fmt::Result {
        match self {
            TestError::Target => f.write_str("no request target"),
            TestError::Header(error) => write!(f, "{error}"),
            TestError::Unfinished => f.write_str("no response after 64 polls"),
            TestError::Body => f.write_str("the body of the reply could not be read"),
            TestError::NoMemory => write!(f, "{NoMemory}"),
        }
    }
}

impl Error for TestError {}

impl From<NoMemory> for TestError {
    ghost use Rattle.std.specs.Prelude.{◌≡◌};
    ghost use Rattle.web_testing.specs.declared.error.TestError.TheVariants as error;

    ghost from_gives = { λ _ e. e ≡ error.NoMemory };

    fn from(_error: NoMemory) -> TestError {
        TestError::NoMemory
    }
}
