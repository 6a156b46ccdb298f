//! Payloads, polled values, bodies in memory, and the collectors of a whole body.
#![tactic(auto)]

mod body_collector;
mod buffering;
mod collecting;
mod config;
mod cutting;
mod errors;
mod head_tests;
mod held;
mod marks;
mod message_body;
mod payload;
mod poll;
mod read_source;
mod rope;
mod take_payload;
mod whole_payload;

pub use body_collector::Collector;
pub use buffering::buffered_law;
pub use collecting::Unread;
pub use config::form_config::{DEFAULT_FORM_CONFIG_LIMIT, FormConfig};
pub use config::json_config::{DEFAULT_JSON_LIMIT, JsonConfig};
pub use config::path_config::PathConfig;
pub use config::payload_config::PayloadConfig;
pub use config::query_config::QueryConfig;
pub use config::type_predicates::{AllowType, ByFn};
pub use cutting::reading_cutting_law;
pub use errors::form_error::UrlencodedError;
pub use errors::json_error::JsonPayloadError;
pub use errors::lines_error::ReadlinesError;
pub use errors::path_error::PathError;
pub use errors::query_error::QueryPayloadError;
pub use head_tests::{Declared, declared_length, is_coded};
pub use marks::Marks;
pub use message_body::{DEFAULT_LIMIT, HttpMessageBody, PayloadError};
pub use payload::Payload;
pub use poll::{Poll, Step, pending_count_law};
pub use read_source::ReadSource;
pub use take_payload::TakePayload;
pub use web_codec::{
    JsonFault, ReadFault, ReadJson, ReadPairs, WriteFault, WriteJson, WritePairs, decode_form,
    decode_json, form_pairs, holds_float, pairs_text, read_value, write_form, write_value,
};
pub use web_request::Mark;
pub use whole_payload::{BodyLimitExceeded, ToBytes, ToBytesLimited};
