//! Types of every kind that `tools/new-type` writes, which are proved with nothing beside them.
#![tactic(auto)]

mod account;
mod counts;
mod offsets;
mod order;
mod payment;
mod price;
mod search;

pub use account::Account;
pub use counts::Counts;
pub use offsets::Offsets;
pub use order::Order;
pub use payment::Payment;
pub use price::Price;
pub use search::Search;
