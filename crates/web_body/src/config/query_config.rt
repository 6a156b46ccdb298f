//! How queries are read.
ghost use Rattle.std.specs.Prelude.{◌≡◌, Some};
ghost use Rattle.std.specs.Option.{option_copied};
ghost use Rattle.web_body.specs.DecoderSettings.{HandlerSettings, default_handler_settings};

use std::alloc::Global;
use std::marker::Model;
use web_texts::{Duplicate, NoMemory};

/// How an argument reads the query of a request: what answers in place of a refusal, a handler
/// `H`.
#[derive(Drop)]
pub struct QueryConfig<H> {
    handler: Option<H>,
}

impl<H> Model for QueryConfig<H> {
    ghost use Rattle.web_body.specs.DecoderSettings.{HandlerSettings};

    ghost Value = { HandlerSettings H };

    ghost view = { λ c. record { handler = c.handler } };
}

impl<H> QueryConfig<H> {
    /// The default, with no handler.
    pub fn new() -> QueryConfig<H>
        ensures { result ≡ default_handler_settings }
    {
        QueryConfig { handler: None }
    }

    /// The handler of refusals, if any.
    pub fn handler(&self) -> Option<&H>
        ensures { option_copied result ≡ self.now.handler }
    {
        self.handler.as_ref()
    }
}

impl<H: Drop> QueryConfig<H> {
    /// Sets the handler of refusals.
    pub fn error_handler<F>(self, f: F) -> QueryConfig<F>
        ensures { result ≡ record { handler = Some f } }
    {
        QueryConfig { handler: Some(f) }
    }
}

impl<H: Duplicate> Duplicate for QueryConfig<H> {
    fn duplicate(&self, alloc: Global) -> Result<QueryConfig<H>, NoMemory> {
        Ok(QueryConfig {
            handler: self.handler.duplicate(alloc)?,
        })
    }
}
