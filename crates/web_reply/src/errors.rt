//! Errors, and the responses that they become.
pub(crate) mod cause;
pub(crate) mod error;
pub(crate) mod internal_error;
pub(crate) mod mapped_error;
pub(crate) mod prepared;
pub(crate) mod several;
