//! A request with its payload, and a request with its response, as middleware gets them.
#![tactic(auto)]

mod request_reads;
mod service_request;
mod service_response;

pub use service_request::ServiceRequest;
pub use service_response::ServiceResponse;
