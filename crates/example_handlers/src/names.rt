//! A list that grows: a service with a state, whose replies with 200 show what those with 201
//! before them left.
ghost use Rattle.std.specs.Prelude.{List, ℕ};
ghost use Rattle.web_request.specs.Request.{Request};
ghost use Rattle.web_worker.specs.Outcomes.{OutcomeView};
ghost use Rattle.web_worker.specs.ServiceStates.{Run};
ghost use Rattle.web_routing.specs.StateServices.{StateSteps};
ghost use Rattle.example_handlers.specs.NameLists.{Listed};

use http::{Method, StatusCode};
use std::alloc::Global;
use std::marker::Model;
use web_reply::{Error, Responder};
use web_request::{App, NoMemory};
use web_routing::StateHandler;

/// The names that were sent, each with a line end after it. If an allocation fails, a part of one
/// may have been added.
#[derive(Drop)]
pub struct Names {
    all: String,
}

impl Model for Names {
    ghost use Rattle.std.specs.Prelude.{List, string_bytes, ℕ};

    ghost Value = { List ℕ };

    ghost view = { λ names. string_bytes names.all };
}

impl Names {
    ghost use Rattle.std.specs.Prelude.{◌≡◌, []};

    /// No name.
    pub fn new(alloc: Global) -> Names
        ensures { result ≡ [] }
    {
        Names {
            all: String::new(alloc),
        }
    }
}

/// A POST adds its body, and is answered with 201 and that name; each other request with 200 and
/// all names.
impl StateHandler<(Method, String)> for Names {
    ghost use Rattle.std.specs.Prelude.{string_bytes};
    ghost use Rattle.example_handlers.specs.NameLists.{NamesReply};

    type Output = (String, StatusCode);

    ghost replies = { λ a v x b. NamesReply string_bytes a v.0 (string_bytes v.1) x b };

    fn reply(
        &mut self,
        _alloc: Global,
        args: (Method, String),
    ) -> Result<(String, StatusCode), NoMemory> {
        let (method, name) = args;
        if method != Method::POST {
            return Ok((self.all.clone()?, StatusCode::OK));
        }
        self.all.push_str(name.as_str())?;
        self.all.push_str("\n")?;
        Ok((name, StatusCode::CREATED))
    }
}

/// Whatever requests are served, one after another: a reply with 200 shows the list that the
/// replies with 201 before it left, and each of these shows the name that it added. A refused
/// request leaves the list as it is.
///
/// The contract is the law, over the runs of `StateService<(Method, String), Names>`; there is
/// nothing to call it for.
pub fn names_law<A: App>()
    ensures { (qs : List (Request A.Layer A.Local A.Conn)) (os : List OutcomeView) (a b : List ℕ)
        → Run (StateSteps ⟦<Names as StateHandler<(Method, String)>>⟧.replies
        ⟦<Error as Into<Error>>⟧.converts ⟦<(String, StatusCode) as Responder<A>>⟧.responds)
        qs os a b
        → Listed os a b }
{}
