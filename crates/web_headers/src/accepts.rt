//! What a client accepts.
pub(crate) mod accept_charset;
pub(crate) mod accept_encoding;
pub(crate) mod accept_header;
pub(crate) mod accept_language;
pub(crate) mod preferences;
