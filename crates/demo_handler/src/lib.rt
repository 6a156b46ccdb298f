//! The demo application: its handler. The arguments of the handler stand in `demo_arguments`
//! and `demo_picked`, and are re-exported here.
#![tactic(auto)]

mod handler;
mod law;

pub use demo_app::{Demo, DemoConn, DemoLayer, DemoLocal, Item};
pub use demo_arguments::{
    AllLines, AllLinesFuture, CookieArguments, DataArguments, Delayed, Late, LateFuture, RawBody,
    Wait,
};
pub use demo_content::{Answer, Answering, DemoOutput};
pub use demo_picked::{
    BothFuture, BoxedFuture, CappedOrPartsFuture, DataFuture, DecodedFuture, EitherItemFuture,
    FormFuture, FutureOf, IntoPicked, JsonFuture, LinesFuture, OptionalFuture, Picked,
    PickedFuture, picked_law,
};
pub use handler::DemoHandler;
pub use law::demo_law;
