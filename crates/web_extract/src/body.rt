//! Extractors that read the body.
pub(crate) mod body_futures;
pub(crate) mod bytes_argument;
pub(crate) mod capped_argument;
pub(crate) mod payload_argument;
pub(crate) mod string_argument;
pub(crate) mod with_cap;
