//! Why a query gave no value.
ghost use Rattle.std.specs.Prelude.{◌≡◌};

use std::fmt;
use web_codec::ReadFault;

/// Why no value was read from the query of a request.
#[derive(Debug, Drop)]
pub enum QueryPayloadError {
    /// The reader refused the decoded pairs.
    Deserialize(ReadFault),
}

impl From<ReadFault> for QueryPayloadError {
    ghost use Rattle.web_body.specs.declared.errors.query_error.QueryPayloadError.TheVariants as of;

    ghost from_gives = { λ e made. made ≡ of.Deserialize e };

    fn from(error: ReadFault) -> QueryPayloadError {
        QueryPayloadError::Deserialize(error)
    }
}

impl fmt::Display for QueryPayloadError {
    ghost use Rattle.std.specs.Prelude.{Some};
    ghost use Rattle.web_body.specs.ErrorTexts.{query_error_text};

    ghost output = { λ e. Some (query_error_text e) };

    fn fmt<W: fmt::Write>(&self, f: &mut fmt::Formatter<W>) -> fmt::Result {
        match self {
            QueryPayloadError::Deserialize(fault) => write!(f, "Query deserialize error: {fault}"),
        }
    }
}
