//! The text of a request for logs.
ghost use Rattle.std.specs.Prelude.{◌≡◌, IfOk, codes};
ghost use Rattle.web_request_log.specs.LogEntries.{log_text};
ghost use Rattle.web_request.specs.Descriptions.{logged};

use crate::app::App;
use crate::request::HttpRequest;
use std::alloc::Global;
use web_request_log::{LogEntry, describe};
use web_texts::{NoMemory, Text};

impl<A: App> HttpRequest<A> {
    /// The text of the request for logs, by `web_request_log::describe`: without the values of
    /// Authorization, Proxy-Authorization and Cookie. Returns `NoMemory` where allocation failed.
    pub fn describe(&self, alloc: Global) -> Result<Text, NoMemory>
        ensures { IfOk result (λ text.
            text ≡ log_text (logged (codes "HttpRequest") self.now.request)) }
    {
        self.describe_as(alloc, "HttpRequest")
    }

    /// As `describe`, under the name of a type that holds the request.
    pub fn describe_as(&self, alloc: Global, kind: &str) -> Result<Text, NoMemory>
        ensures { IfOk result (λ text. text ≡ log_text (logged kind.now self.now.request)) }
    {
        let entry = LogEntry {
            kind,
            version: self.version(),
            method: self.method().as_str(),
            path: self.path(),
            query: self.query_string(),
            params: self.match_info(),
            headers: self.headers(),
        };
        describe(alloc, &entry)
    }
}
