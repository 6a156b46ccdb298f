//! The traits whose calls an application makes on types of other crates.

pub use crate::builder::Build;
pub use crate::customize_responder::Customize;
