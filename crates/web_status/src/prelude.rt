//! The trait whose calls an application makes on `HttpResponse`.

pub use crate::http_codes::StatusNames;
