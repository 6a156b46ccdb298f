//! Why the parameters of a path gave no value.
ghost use Rattle.std.specs.Prelude.{◌≡◌};

use std::fmt;
use web_codec::ReadFault;

/// Why no value was read from the parameters of a path.
#[derive(Debug, Drop)]
pub enum PathError {
    /// The reader refused the decoded parameters.
    Deserialize(ReadFault),
}

impl From<ReadFault> for PathError {
    ghost use Rattle.web_body.specs.declared.errors.path_error.PathError.TheVariants as path;

    ghost from_gives = { λ e made. made ≡ path.Deserialize e };

    fn from(error: ReadFault) -> PathError {
        PathError::Deserialize(error)
    }
}

impl fmt::Display for PathError {
    ghost use Rattle.std.specs.Prelude.{Some};
    ghost use Rattle.web_body.specs.ErrorTexts.{path_error_text};

    ghost output = { λ e. Some (path_error_text e) };

    fn fmt<W: fmt::Write>(&self, f: &mut fmt::Formatter<W>) -> fmt::Result {
        match self {
            PathError::Deserialize(fault) => write!(f, "Path deserialize error: {fault}"),
        }
    }
}
