//! How an application has bodies, paths and queries read.
pub(crate) mod form_config;
pub(crate) mod json_config;
pub(crate) mod path_config;
pub(crate) mod payload_config;
pub(crate) mod query_config;
pub(crate) mod type_predicates;
