//! Lists of extractors.
pub(crate) mod argument_laws;
pub(crate) mod laws;
pub(crate) mod place;
pub(crate) mod place_laws;
pub(crate) mod tuple_four;
pub(crate) mod tuple_one;
pub(crate) mod tuple_three;
pub(crate) mod tuple_two;
pub(crate) mod unit;
pub(crate) mod views;
