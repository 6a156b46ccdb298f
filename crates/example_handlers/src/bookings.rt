//! Bookings: a type of its own, a scope, and handlers.
pub(crate) mod booking;
pub(crate) mod booking_handlers;
pub(crate) mod booking_layer;
