//! A value of one of two types.

use bytes::Bytes;
use web_reply::Error;

/// A value of one of two types: as an argument, the left one, or where that is refused the right
/// one, both of the same body.
#[derive(Debug, Drop, PartialEq, Eq)]
pub enum Either<L, R> {
    /// A value of the left type.
    Left(L),
    /// A value of the right type.
    Right(R),
}

/// Why there is neither of two arguments.
#[derive(Debug, Drop)]
pub enum EitherExtractError<L, R> {
    /// The body could not be collected.
    Bytes(Error),
    /// Both arguments refused: the left error, and the right one.
    Extract(L, R),
}

/// What the future of one of two arguments waits for.
#[derive(Drop)]
pub enum EitherExtractState<B, L, R, E> {
    /// The body.
    Bytes(B),
    /// The left argument. The body is kept for the right one.
    Left(L, Bytes),
    /// The right argument, after this error of the left one.
    Right(R, E),
    /// Nothing: it is finished.
    Finished,
}

/// The error of the buffering, or that of the left argument.
impl<L, R> From<EitherExtractError<L, R>> for Error
where
    L: Into<Error> + Drop,
    R: Drop,
{
    ghost use Rattle.web_extract_body.specs.EitherArgument.{ConvertsEither};

    ghost from_gives = { λ e f. ConvertsEither L.converts e f };

    fn from(e: EitherExtractError<L, R>) -> Error {
        match e {
            EitherExtractError::Bytes(error) => error,
            EitherExtractError::Extract(left, _right) => left.into(),
        }
    }
}
