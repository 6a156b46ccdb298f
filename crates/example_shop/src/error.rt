//! Why the shop does not take an order.
use std::fmt;
use web::{StatusCode, StatusError};

/// Why an order is not taken.
#[derive(Clone, Copy, Debug, PartialEq, Eq)]
pub enum ShopError {
    /// None is ordered.
    Nothing,
    /// There are fewer than are ordered.
    SoldOut { left: u64 },
    /// No page has the path.
    NoSuchPage,
}

impl fmt::Display for ShopError {
    fn fmt<W: fmt::Write>(&self, f: &mut fmt::Formatter<W>) -> fmt::Result {
        match self {
            ShopError::Nothing => f.write_str("order at least one"),
            ShopError::SoldOut { left } => write!(f, "only {left} left"),
            ShopError::NoSuchPage => f.write_str("no such page"),
        }
    }
}

impl StatusError for ShopError {
    fn status(&self) -> StatusCode {
        match self {
            ShopError::Nothing => StatusCode::UNPROCESSABLE_ENTITY,
            ShopError::SoldOut { .. } => StatusCode::CONFLICT,
            ShopError::NoSuchPage => StatusCode::NOT_FOUND,
        }
    }
}
