//! The arguments of `/data`, of `/cookies`, of `/doc`, of `/variant` and of `/raw`.
use demo_app::{Demo, DemoLocal};
use std::marker::Model;
use web_body::{Marks, Payload};
use web_request::{Data, HttpRequest, ReqData};

/// A number of the nearest layer that has one, the number of the request, and the request itself.
/// Contracts see the two numbers and the request.
#[derive(Drop)]
pub struct DataArguments {
    pub number: Data<u64>,
    pub local: ReqData<DemoLocal>,
    pub request: HttpRequest<Demo>,
}

impl Model for DataArguments {
    ghost use Rattle.demo_arguments.specs.DemoArguments.{DataView};

    ghost Value = { DataView };

    ghost view = { λ d. record {
      number = d.number;
      local = d.local.0;
      request = d.request.request;
    } };
}

/// A request whose cookies are to be read. Contracts see what its header fields say of them.
#[derive(Drop)]
pub struct CookieArguments {
    pub request: HttpRequest<Demo>,
}

impl Model for CookieArguments {
    ghost use Rattle.web_request.specs.KeptValues.{CookiesSaid, known_cookies};

    ghost Value = { CookiesSaid };

    ghost view = { λ c. known_cookies c.request };
}

/// A request that is replied to by its head. Contracts see the request.
#[derive(Drop)]
pub struct RequestArguments {
    pub request: HttpRequest<Demo>,
}

impl Model for RequestArguments {
    ghost use Rattle.demo_app.specs.DemoRequests.{DemoRequest};

    ghost Value = { DemoRequest };

    ghost view = { λ r. r.request.request };
}

/// A body that nothing was read of. Contracts see its marks, where they are stated.
#[derive(Drop)]
pub struct RawBody {
    pub payload: Payload<Marks>,
}

impl Model for RawBody {
    ghost use Rattle.std.specs.Prelude.{List, Option};
    ghost use Rattle.web_body.specs.Payload.{payload_feed};
    ghost use Rattle.web_request.specs.declared.source.Mark.{Mark};

    ghost Value = { Option (List Mark) };

    ghost view = { λ body. (payload_feed (λ feed. feed) body.payload).marks };
}
