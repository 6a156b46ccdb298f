//! A handler that keeps its calls.
ghost use Rattle.std.specs.Prelude.{◌≡◌, []};

use bytes::Bytes;
use std::alloc::Global;
use std::marker::Model;
use web_extract::Ready;
use web_request::NoMemory;
use web_worker::Handler;

/// Responds with the body of a request, and keeps the arguments of its calls.
///
/// Its second argument would be the rest of the body. The first argument takes all of it, so the
/// second is empty at each call.
#[derive(Drop)]
pub struct Echo {
    calls: Vec<(Bytes, Option<Bytes>)>,
}

impl Model for Echo {
    ghost use Rattle.std.specs.Prelude.{ℕ, List, Option};

    ghost Value = { List (List ℕ × Option (List ℕ)) };

    ghost view = { λ h. h.calls.items };
}

impl Echo {
    /// A handler that was not called yet.
    pub fn new(alloc: Global) -> Echo
        ensures { result ≡ [] }
    {
        Echo {
            calls: Vec::new(alloc),
        }
    }

    /// The arguments that it was called with, the oldest first.
    pub fn calls(&self) -> &[(Bytes, Option<Bytes>)]
        ensures { result.now ≡ self.now }
    {
        &self.calls
    }
}

impl Handler<(Bytes, Option<Bytes>)> for Echo {
    ghost use Rattle.std.specs.Prelude.{Some};

    type Output = Bytes;

    type Future = Ready<Bytes>;

    ghost answers = { λ h args n y. (n ≡ 0) × (y ≡ args.0) };

    ghost calls = { λ h. Some h };

    fn call(
        &mut self,
        _alloc: Global,
        args: (Bytes, Option<Bytes>),
    ) -> Result<Ready<Bytes>, NoMemory> {
        let (body, rest) = args;
        let response = body.clone()?;
        self.calls.push((body, rest))?;
        Ok(Ready::new(response))
    }
}
