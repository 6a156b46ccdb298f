//! Services: what makes a response of a request and its payload, over some polls; routes to them,
//! and what changes their replies.
#![tactic(auto)]

mod endpoint;
mod handler_service;
mod immediate;
mod laws;
mod path_is;
mod plain_scope;
mod route;
mod route_table;
mod router;
mod scope;
mod services;
mod serving;
mod set_header;
mod state_service;
mod three_routes;
mod wrap;

pub use endpoint::{Endpoint, MethodPattern};
pub use handler_service::HandlerService;
pub use immediate::Immediate;
pub use laws::{route_law, wrap_law};
pub use path_is::{Any, Both, MethodIs, PathBelow, PathIs};
pub use plain_scope::{PlainScope, ScopedApp};
pub use route::{Choose, OneOf, Route};
pub use route_table::{Found, RefusedRoute, RouteError, RouteTable};
pub use router::{Router, RouterCall};
pub use scope::Scope;
pub use services::{Routes, Services};
pub use serving::serve_to_end;
pub use set_header::SetHeader;
pub use state_service::{StateHandler, StateService};
pub use three_routes::{Site, first_route_law};
pub use web_worker::{Service, Whole};
pub use wrap::{Change, Wrap};
