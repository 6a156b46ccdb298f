//! How JSON bodies are read.
ghost use Rattle.std.specs.Prelude.{◌≡◌, Some};
ghost use Rattle.std.specs.Option.{option_copied};
ghost use Rattle.web_body.specs.DecoderSettings.{JsonSettings, default_json_settings};

use std::alloc::Global;
use std::marker::Model;
use web_texts::{Duplicate, NoMemory};

/// The limit of a JSON body where no other is configured, in bytes.
pub const DEFAULT_JSON_LIMIT: usize = 2_097_152;

const _: () = prove!(DEFAULT_JSON_LIMIT == 2_097_152);

/// How an argument reads a JSON body: up to which limit in bytes, by default `DEFAULT_JSON_LIMIT`;
/// whether a media type of JSON is required, as it is by default; which others are read, by a
/// predicate `P`; and what answers in place of a refusal, a handler `H`.
#[derive(Drop)]
pub struct JsonConfig<H, P> {
    limit: usize,
    handler: Option<H>,
    predicate: Option<P>,
    type_required: bool,
}

impl<H, P> Model for JsonConfig<H, P> {
    ghost use Rattle.web_body.specs.DecoderSettings.{JsonSettings};

    ghost Value = { JsonSettings H P };

    ghost view = { λ c. record {
      limit = c.limit;
      handler = c.handler;
      predicate = c.predicate;
      type_required = c.type_required;
    } };
}

impl<H, P> JsonConfig<H, P> {
    /// The default, with no handler and no predicate.
    pub fn new() -> JsonConfig<H, P>
        ensures { result ≡ default_json_settings }
    {
        JsonConfig {
            limit: DEFAULT_JSON_LIMIT,
            handler: None,
            predicate: None,
            type_required: true,
        }
    }

    /// Sets the limit, in bytes.
    pub fn limit(self, limit: usize) -> JsonConfig<H, P>
        ensures { result ≡ record (self) { limit = limit } }
    {
        JsonConfig { limit, ..self }
    }

    /// Sets whether a body needs a media type that is read. Where it needs none, the predicate is
    /// not asked.
    pub fn content_type_required(self, required: bool) -> JsonConfig<H, P>
        ensures { result ≡ record (self) { type_required = required } }
    {
        JsonConfig {
            type_required: required,
            ..self
        }
    }

    /// The limit, in bytes.
    pub fn max_len(&self) -> usize
        ensures { result ≡ self.now.limit }
    {
        self.limit
    }

    /// The handler of refusals, if any.
    pub fn handler(&self) -> Option<&H>
        ensures { option_copied result ≡ self.now.handler }
    {
        self.handler.as_ref()
    }

    /// The predicate of media types, if any.
    pub fn predicate(&self) -> Option<&P>
        ensures { option_copied result ≡ self.now.predicate }
    {
        self.predicate.as_ref()
    }

    /// Whether a body needs a media type that is read.
    pub fn type_required(&self) -> bool
        ensures { result ≡ self.now.type_required }
    {
        self.type_required
    }
}

impl<H: Drop, P: Drop> JsonConfig<H, P> {
    /// Sets the handler of refusals.
    pub fn error_handler<F>(self, f: F) -> JsonConfig<F, P>
        ensures { result ≡ record {
          limit = self.limit;
          handler = Some f;
          predicate = self.predicate;
          type_required = self.type_required;
        } }
    {
        let JsonConfig {
            limit,
            predicate,
            type_required,
            ..
        } = self;
        JsonConfig {
            limit,
            handler: Some(f),
            predicate,
            type_required,
        }
    }

    /// Sets the predicate of the media types that are read beside those of JSON.
    pub fn content_type<F>(self, f: F) -> JsonConfig<H, F>
        ensures { result ≡ record {
          limit = self.limit;
          handler = self.handler;
          predicate = Some f;
          type_required = self.type_required;
        } }
    {
        let JsonConfig {
            limit,
            handler,
            type_required,
            ..
        } = self;
        JsonConfig {
            limit,
            handler,
            predicate: Some(f),
            type_required,
        }
    }
}

impl<H: Duplicate, P: Duplicate> Duplicate for JsonConfig<H, P> {
    fn duplicate(&self, alloc: Global) -> Result<JsonConfig<H, P>, NoMemory> {
        let handler = self.handler.duplicate(alloc)?;
        let predicate = self.predicate.duplicate(alloc)?;
        Ok(JsonConfig {
            limit: self.limit,
            handler,
            predicate,
            type_required: self.type_required,
        })
    }
}
