//! The grammars that headers share: lists, tokens, quoted texts, parameters.
pub(crate) mod blanks;
pub(crate) mod cut;
pub(crate) mod extended_value;
pub(crate) mod header_texts;
pub(crate) mod header_value;
pub(crate) mod methods;
pub(crate) mod parameters;
pub(crate) mod piece_items;
pub(crate) mod pieces;
pub(crate) mod quoted_text;
pub(crate) mod readers;
pub(crate) mod text_parts;
pub(crate) mod tokens;
