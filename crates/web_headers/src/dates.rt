//! Headers whose value is a date.
pub(crate) mod date_header;
pub(crate) mod date_reader;
pub(crate) mod expires_header;
pub(crate) mod if_modified_since;
pub(crate) mod if_unmodified_since;
pub(crate) mod last_modified;
