//! What the demo application is made of: its types, an item that its arguments read, and the layers
//! of configuration that the lines of a script ask for.
#![tactic(auto)]

mod app;
mod item;
mod item_pairs;
mod layer;
mod teapot;

pub use app::{Demo, DemoConn, DemoLocal};
pub use item::Item;
pub use layer::{DemoLayer, demo_layer, demo_layers};
pub use teapot::{Teapot, VendorType};
