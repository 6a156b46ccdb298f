//! How the body of a request is collected.
ghost use Rattle.std.specs.Prelude.{◌≡◌, Some, None};
ghost use Rattle.std.specs.Option.{option_copied};
ghost use Rattle.web_body.specs.PayloadSettings.{PayloadSettings};

use crate::message_body::DEFAULT_LIMIT;
use std::alloc::Global;
use std::marker::Model;
use web_texts::{Duplicate, Mime, NoMemory};

/// How an argument reads the body of a request: up to which limit in bytes, and only where the
/// request has a certain media type, if any is required. By default the limit is `DEFAULT_LIMIT`
/// (262,144) and no media type is required.
#[derive(Debug, Drop)]
pub struct PayloadConfig {
    limit: usize,
    required_type: Option<Mime>,
}

impl Model for PayloadConfig {
    ghost use Rattle.web_body.specs.PayloadSettings.{PayloadSettings};

    ghost Value = { PayloadSettings };

    ghost view = { λ c. record { limit = c.limit; required_type = c.required_type } };
}

impl PayloadConfig {
    /// A configuration with this limit, in bytes, that requires no media type.
    pub fn new(limit: usize) -> PayloadConfig
        ensures { result ≡ record { limit = limit; required_type = None } }
    {
        PayloadConfig {
            limit,
            required_type: None,
        }
    }

    /// Sets the limit, in bytes.
    pub fn limit(self, limit: usize) -> PayloadConfig
        ensures { result ≡ record { limit = limit; required_type = self.required_type } }
    {
        PayloadConfig { limit, ..self }
    }

    /// Sets the media type that a request has to have: its Content-Type must be equal to this.
    pub fn mimetype(self, mt: Mime) -> PayloadConfig
        ensures { result ≡ record { limit = self.limit; required_type = Some mt } }
    {
        PayloadConfig {
            limit: self.limit,
            required_type: Some(mt),
        }
    }

    /// The limit, in bytes.
    pub fn max_len(&self) -> usize
        ensures { result ≡ self.now.limit }
    {
        self.limit
    }

    /// The media type that a request has to have, if any.
    pub fn required_type(&self) -> Option<&Mime>
        ensures { option_copied result ≡ self.now.required_type }
    {
        self.required_type.as_ref()
    }
}

impl Default for PayloadConfig {
    ghost use Rattle.std.specs.Prelude.{◌≡◌};
    ghost use Rattle.web_body.specs.PayloadSettings.{default_payload_settings};

    ghost is_default = { λ c. c ≡ default_payload_settings };

    fn default() -> PayloadConfig {
        PayloadConfig::new(DEFAULT_LIMIT)
    }
}

impl Duplicate for PayloadConfig {
    fn duplicate(&self, alloc: Global) -> Result<PayloadConfig, NoMemory> {
        Ok(PayloadConfig {
            limit: self.limit,
            required_type: self.required_type.duplicate(alloc)?,
        })
    }
}
