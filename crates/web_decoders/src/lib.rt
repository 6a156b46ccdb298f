//! Collectors of bodies that are decoded to values, and how an application configures them.
#![tactic(auto)]

mod body_decoder;
mod form_body;
mod form_head;
mod json_body;
mod json_head;
mod taken;
mod written_type;

pub use body_decoder::{Decode, Decoding};
pub use form_body::{DEFAULT_FORM_LIMIT, UrlEncoded};
pub use json_body::JsonBody;
pub use web_body::{
    AllowType, ByFn, DEFAULT_FORM_CONFIG_LIMIT, DEFAULT_JSON_LIMIT, FormConfig, JsonConfig,
    PathConfig, QueryConfig,
};
