//! Extractors of what the head and the connection say.
pub(crate) mod connection_argument;
pub(crate) mod data_argument;
pub(crate) mod head_tests;
pub(crate) mod method_argument;
pub(crate) mod peer_argument;
pub(crate) mod request_argument;
pub(crate) mod request_data_argument;
pub(crate) mod uri_argument;
