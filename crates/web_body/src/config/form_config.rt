//! How forms are read.
ghost use Rattle.std.specs.Prelude.{◌≡◌, Some};
ghost use Rattle.std.specs.Option.{option_copied};
ghost use Rattle.web_body.specs.DecoderSettings.{FormSettings, default_form_settings};

use std::alloc::Global;
use std::marker::Model;
use web_texts::{Duplicate, NoMemory};

/// The limit of a form as an argument where no other is configured, in bytes.
pub const DEFAULT_FORM_CONFIG_LIMIT: usize = 16_384;

const _: () = prove!(DEFAULT_FORM_CONFIG_LIMIT == 16_384);

/// How an argument reads a form: up to which limit in bytes, by default 16,384, and what answers in
/// place of a refusal, a handler `H`.
#[derive(Drop)]
pub struct FormConfig<H> {
    limit: usize,
    handler: Option<H>,
}

impl<H> Model for FormConfig<H> {
    ghost use Rattle.web_body.specs.DecoderSettings.{FormSettings};

    ghost Value = { FormSettings H };

    ghost view = { λ c. record { limit = c.limit; handler = c.handler } };
}

impl<H> FormConfig<H> {
    /// The default, with no handler.
    pub fn new() -> FormConfig<H>
        ensures { result ≡ default_form_settings }
    {
        FormConfig {
            limit: DEFAULT_FORM_CONFIG_LIMIT,
            handler: None,
        }
    }

    /// Sets the limit, in bytes.
    pub fn limit(self, limit: usize) -> FormConfig<H>
        ensures { result ≡ record { limit = limit; handler = self.handler } }
    {
        FormConfig { limit, ..self }
    }

    /// The limit, in bytes.
    pub fn max_len(&self) -> usize
        ensures { result ≡ self.now.limit }
    {
        self.limit
    }

    /// The handler of refusals, if any.
    pub fn handler(&self) -> Option<&H>
        ensures { option_copied result ≡ self.now.handler }
    {
        self.handler.as_ref()
    }
}

impl<H: Drop> FormConfig<H> {
    /// Sets the handler of refusals.
    pub fn error_handler<F>(self, f: F) -> FormConfig<F>
        ensures { result ≡ record { limit = self.limit; handler = Some f } }
    {
        FormConfig {
            limit: self.limit,
            handler: Some(f),
        }
    }
}

impl<H: Duplicate> Duplicate for FormConfig<H> {
    fn duplicate(&self, alloc: Global) -> Result<FormConfig<H>, NoMemory> {
        Ok(FormConfig {
            limit: self.limit,
            handler: self.handler.duplicate(alloc)?,
        })
    }
}
