//! Handlers as a user of the library writes them.
//!
//! Each file is an example by itself: one request from end to end, by a closure (`hello`), a
//! handler that keeps its calls (`echo`), a future of one's own (`second_poll`), an argument of
//! one's own (`request_path`), and one that refuses (`api_key`), a loop of one's own over flights
//! (`flight_rounds`), the functions that serve exchanges by the handlers (`serving`), a type that
//! is read from JSON and forms (`booking`), a layer that configures how (`booking_layer`), its
//! handlers (`booking_handlers`), the handler of a proxy (`relay`), and middlewares: one that asks
//! for a host (`served_host`), one that rewrites a request and keeps it as it came
//! (`rewritten_request`), and one that is a handler round a handler (`logged`); a body that is read
//! piece by piece (`counted`), a request that was parsed elsewhere (`parsed_request`), exchanges
//! that are told apart by their paths (`routes`), a handler whose reply is promised
//! (`path_reply`), lists with a text (`texts`), a list that grows from one request to the next
//! (`names`), forms with files (`upload`), the part of a file that is sent (`file_service`), and
//! the coding that a proxy chooses (`compressing_proxy`).
#![tactic(auto)]

mod api_key;
mod bookings;
mod compressing_proxy;
mod counted;
mod echo;
mod file_service;
mod flight_rounds;
mod hello;
mod logged;
mod names;
mod parsed_request;
mod path_reply;
mod relay;
mod request_path;
mod rewritten_request;
mod routes;
mod second_poll;
mod served_host;
mod serving;
mod texts;
mod upload;

pub use api_key::ApiKey;
pub use bookings::booking::Booking;
pub use bookings::booking_handlers::{serve_form_bookings, serve_json_bookings};
pub use bookings::booking_layer::{BookingLayer, Bookings, PlainText, Unprocessable};
pub use compressing_proxy::coding_to_send;
pub use counted::Counted;
pub use echo::Echo;
pub use file_service::{Sent, part_to_send};
pub use flight_rounds::poll_rounds;
pub use hello::{Site, serve_hello};
pub use logged::Logged;
pub use names::{Names, names_law};
pub use parsed_request::exchange_of;
pub use path_reply::serve_path;
pub use relay::{Relay, serve_relay};
pub use request_path::RequestPath;
pub use rewritten_request::rewrite_request;
pub use routes::{Page, page_of, pages};
pub use second_poll::{Greeter, SecondPoll};
pub use served_host::is_served;
pub use serving::{Outcomes, serve_echo, serve_greeting};
pub use texts::{request_list_law, serve_texts, text_list_law};
pub use upload::{PartByPart, PartSizes, Upload};
