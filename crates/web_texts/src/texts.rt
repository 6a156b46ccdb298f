//! Texts, pairs, lists and numbers.
pub(crate) mod byte_strings;
pub(crate) mod digits;
pub(crate) mod items;
pub(crate) mod pair;
pub(crate) mod text;
