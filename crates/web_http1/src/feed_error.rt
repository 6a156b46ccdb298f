//! Why a connection takes no piece.

use std::error::Error;
use std::fmt;

/// Why `Connection::feed` and `Connection::take` took nothing. The connection is as it was.
#[derive(Clone, Copy, Debug, PartialEq, Eq)]
pub enum FeedError {
    /// An allocation failed.
    NoMemory,
    /// More bytes than `Limits::kept` would be kept then. A loop ends the connection by `finish`.
    TooMuchKept,
}

impl fmt::Display for FeedError {
    fn fmt<W: fmt::Write>(&self, f: &mut fmt::Formatter<W>) -> fmt::Result {
        match self {
            FeedError::NoMemory => f.write_str("memory allocation failed"),
            FeedError::TooMuchKept => f.write_str("more bytes than are kept"),
        }
    }
}

impl Error for FeedError {}
