//! The arguments of handlers, and how they are extracted from requests.
#![tactic(auto)]

mod bad_request;
mod body;
mod config;
mod either_future;
mod from_request;
mod head;
mod internal_fault;
mod into_some;
mod lists;
mod map_into;
mod never;
mod option;
mod ready;
mod result;

pub use body::body_futures::{BytesExtractFut, StringExtractFut};
pub use body::capped_argument::{Capped, CappedFut};
pub use body::with_cap::WithCap;
pub use config::config_choices::{FormChoice, JsonChoice, PathChoice, PayloadChoice, QueryChoice};
pub use config::layer_configs::{Configs, LayerConfigs};
pub use config::refuse::{NoHandler, NoType, Refuse};
pub use config::refused::{form_refused, json_refused, path_refused, query_refused};
pub use either_future::EitherFuture;
pub use from_request::FromRequest;
pub use into_some::IntoSome;
pub use lists::argument_laws::{
    bytes_law, connection_law, data_law, head_law, payload_law, string_law,
};
pub use lists::laws::{first_taker_law, list_law, nesting_law, optional_law, place_law};
pub use lists::place_laws::{payload_place_law, same_error_law, seen_places_law};
pub use lists::tuple_four::TupleFromRequest4;
pub use lists::tuple_one::TupleFromRequest1;
pub use lists::tuple_three::TupleFromRequest3;
pub use lists::tuple_two::TupleFromRequest2;
pub use lists::views::{ByBytes, ByMarks, ByParts, Itself, RequestAlone, View};
pub use map_into::{MapInto, from_request_into};
pub use never::Never;
pub use option::FromRequestOptFuture;
pub use ready::Ready;
pub use result::FromRequestResFuture;
pub use web_body::{Payload, PayloadError, Poll, Step};
pub use web_reply::Error;
pub use web_request::{App, HttpRequest, NoMemory};
