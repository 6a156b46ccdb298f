//! Why a body, a query or a path is refused.
pub(crate) mod form_error;
pub(crate) mod json_error;
pub(crate) mod lines_error;
pub(crate) mod path_error;
pub(crate) mod query_error;
