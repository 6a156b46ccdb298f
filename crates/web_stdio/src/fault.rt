//! Why a connection was not served to its end.

use std::error::Error;
use std::{fmt, io};
use web_texts::NoMemory;

/// Why a connection was not served to its end.
#[derive(Debug, Drop)]
pub enum ServeFault {
    /// Reading failed, or the keys of header maps were not to be had.
    Input(io::Error),
    /// Writing failed, as where the client has gone.
    Output(io::Error),
    /// An allocation failed. What was written last may be cut.
    NoMemory,
}

impl fmt::Display for ServeFault {
    fn fmt<W: fmt::Write>(&self, f: &mut fmt::Formatter<W>) -> fmt::Result {
        match self {
            ServeFault::Input(error) => write!(f, "reading failed: {error}"),
            ServeFault::Output(error) => write!(f, "writing failed: {error}"),
            ServeFault::NoMemory => f.write_str("memory allocation failed"),
        }
    }
}

impl Error for ServeFault {}

impl From<NoMemory> for ServeFault {
    fn from(_error: NoMemory) -> ServeFault {
        ServeFault::NoMemory
    }
}
