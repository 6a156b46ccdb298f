//! Where a request comes from.
pub(crate) mod address;
pub(crate) mod connection_info;
pub(crate) mod full_url;
pub(crate) mod peer;
