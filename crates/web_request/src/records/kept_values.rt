//! What is computed of a request once and then kept.
ghost use Rattle.std.specs.Prelude.{◌≡◌, OnErr, OnOk, Some, option_copied};
ghost use Rattle.std.specs.Option.{option_map};
ghost use Rattle.web_request.specs.Request.{nothing_kept};

use crate::peers::connection_info::ConnectionInfo;
use std::alloc::Global;
use std::marker::Model;
use web_cookies::CookiePair;
use web_texts::NoMemory;

/// What is computed of a request once and then kept, whatever its head is later.
///
/// It stands in memory of its own, which the first value takes, so that a request of which nothing
/// is computed is larger by a word or two alone.
#[derive(Drop)]
pub struct KeptValues {
    computed: Option<Box<ComputedValues>>,
}

#[derive(Drop)]
struct ComputedValues {
    connection: Option<ConnectionInfo>,
    decoded: Option<Vec<CookiePair>>,
    raw: Option<Vec<CookiePair>>,
}

impl Model for KeptValues {
    ghost use Rattle.std.specs.Option.{option_map};
    ghost use Rattle.web_request.specs.KeptValues.{kept_view};
    ghost use Rattle.web_request.specs.Request.{Kept};

    ghost Value = { Kept };

    ghost view = { λ k. kept_view (option_map (λ computed. computed.value) k.computed) };
}

impl KeptValues {
    /// What is kept of a request of which nothing was computed.
    pub fn none() -> KeptValues
        ensures { result ≡ nothing_kept }
    {
        KeptValues { computed: None }
    }

    /// Where the request came from and was sent to.
    pub fn connection(&self) -> Option<&ConnectionInfo>
        ensures { option_copied result ≡ self.now.connection }
    {
        match &self.computed {
            Some(computed) => computed.connection.as_ref(),
            None => None,
        }
    }

    /// The cookies, percent-decoded.
    pub fn decoded(&self) -> Option<&[CookiePair]>
        ensures { option_copied result ≡ self.now.decoded }
    {
        match &self.computed {
            Some(computed) => cookies_in(&computed.decoded),
            None => None,
        }
    }

    /// The cookies as they are.
    pub fn raw(&self) -> Option<&[CookiePair]>
        ensures { option_copied result ≡ self.now.raw }
    {
        match &self.computed {
            Some(computed) => cookies_in(&computed.raw),
            None => None,
        }
    }

    /// Keeps where the request came from and was sent to. Returns `NoMemory` where allocation
    /// failed; what is kept is then as before.
    pub fn keep_connection(&mut self, alloc: Global, info: ConnectionInfo) -> Result<(), NoMemory>
        ensures ok { OnOk result (self.new ≡ record self.old { connection = Some info }) }
        ensures err { OnErr result (self.new ≡ self.old) }
    {
        match &mut self.computed {
            Some(computed) => computed.connection = Some(info),
            None => {
                let computed = ComputedValues {
                    connection: Some(info),
                    decoded: None,
                    raw: None,
                };
                self.computed = Some(Box::new(alloc, computed)?);
            }
        }
        Ok(())
    }

    /// As `keep_connection`, of the percent-decoded cookies.
    pub fn keep_decoded(&mut self, alloc: Global, cookies: Vec<CookiePair>) -> Result<(), NoMemory>
        ensures ok { OnOk result (self.new ≡ record self.old { decoded = Some cookies.items }) }
        ensures err { OnErr result (self.new ≡ self.old) }
    {
        match &mut self.computed {
            Some(computed) => computed.decoded = Some(cookies),
            None => {
                let computed = ComputedValues {
                    connection: None,
                    decoded: Some(cookies),
                    raw: None,
                };
                self.computed = Some(Box::new(alloc, computed)?);
            }
        }
        Ok(())
    }

    /// As `keep_connection`, of the cookies as they are.
    pub fn keep_raw(&mut self, alloc: Global, cookies: Vec<CookiePair>) -> Result<(), NoMemory>
        ensures ok { OnOk result (self.new ≡ record self.old { raw = Some cookies.items }) }
        ensures err { OnErr result (self.new ≡ self.old) }
    {
        match &mut self.computed {
            Some(computed) => computed.raw = Some(cookies),
            None => {
                let computed = ComputedValues {
                    connection: None,
                    decoded: None,
                    raw: Some(cookies),
                };
                self.computed = Some(Box::new(alloc, computed)?);
            }
        }
        Ok(())
    }
}

fn cookies_in(kept: &Option<Vec<CookiePair>>) -> Option<&[CookiePair]>
    ensures { option_copied result ≡ option_map (λ cookies. cookies.items) kept.now }
{
    match kept {
        Some(cookies) => Some(cookies.as_slice()),
        None => None,
    }
}
