//! How the parameters of paths are read.
ghost use Rattle.std.specs.Prelude.{◌≡◌, Some};
ghost use Rattle.std.specs.Option.{option_copied};
ghost use Rattle.web_body.specs.DecoderSettings.{HandlerSettings, default_handler_settings};

use std::alloc::Global;
use std::marker::Model;
use web_texts::{Duplicate, NoMemory};

/// How an argument reads the parameters of a path: what answers in place of a refusal, a handler
/// `H`.
#[derive(Drop)]
pub struct PathConfig<H> {
    handler: Option<H>,
}

impl<H> Model for PathConfig<H> {
    ghost use Rattle.web_body.specs.DecoderSettings.{HandlerSettings};

    ghost Value = { HandlerSettings H };

    ghost view = { λ c. record { handler = c.handler } };
}

impl<H> PathConfig<H> {
    /// The default, with no handler.
    pub fn new() -> PathConfig<H>
        ensures { result ≡ default_handler_settings }
    {
        PathConfig { handler: None }
    }

    /// The handler of refusals, if any.
    pub fn handler(&self) -> Option<&H>
        ensures { option_copied result ≡ self.now.handler }
    {
        self.handler.as_ref()
    }
}

impl<H: Drop> PathConfig<H> {
    /// Sets the handler of refusals.
    pub fn error_handler<F>(self, f: F) -> PathConfig<F>
        ensures { result ≡ record { handler = Some f } }
    {
        PathConfig { handler: Some(f) }
    }
}

impl<H: Duplicate> Duplicate for PathConfig<H> {
    fn duplicate(&self, alloc: Global) -> Result<PathConfig<H>, NoMemory> {
        Ok(PathConfig {
            handler: self.handler.duplicate(alloc)?,
        })
    }
}
