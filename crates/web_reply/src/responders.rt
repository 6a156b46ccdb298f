//! The types that a handler can return.
pub(crate) mod byte_responders;
pub(crate) mod done;
pub(crate) mod responder;
pub(crate) mod status_pair;
pub(crate) mod text_responders;
