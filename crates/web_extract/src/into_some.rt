//! Conversions that are known to have a result for each value.
ghost use Rattle.std.specs.Prelude.{◌≡◌};

use crate::never::Never;
use web_body::PayloadError;
use web_reply::Error;

/// A conversion that is known to have a result for each value. Where its contract is an equation,
/// the proof is that equation at the value.
pub trait IntoSome<E>: Into<E> {
    ghost converted: { (e : Self) → (f : E) × Self.Into.converts e f };
}

impl<E> IntoSome<E> for E {
    ghost use Rattle.web_extract.specs.ResultArgument.{turns_into_itself};

    ghost converted = { λ e. turns_into_itself e };
}

impl IntoSome<Error> for Never {
    ghost use Rattle.web_extract.specs.Never.{never_converted};

    ghost converted = { never_converted };
}

impl IntoSome<Error> for PayloadError {
    ghost use Rattle.web_extract.specs.BytesArgument.{payload_converted};

    ghost converted = { payload_converted };
}
