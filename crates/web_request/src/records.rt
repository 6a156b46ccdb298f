//! Records of requests, which are used again.
pub(crate) mod computed;
pub(crate) mod copies;
pub(crate) mod kept_values;
pub(crate) mod parts;
pub(crate) mod pool;
pub(crate) mod reuse;
