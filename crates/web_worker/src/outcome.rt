//! What became of an exchange.

use web_reply::{BoxBody, HttpResponse};
use web_request::App;

/// What became of an exchange.
#[derive(Drop)]
pub enum Outcome<A: App> {
    /// It was answered with this response.
    Reply(HttpResponse<BoxBody<A::Source>>),
    /// No response was ready when the plan was over, or when the outcome was taken.
    Unfinished,
    /// An allocation failed in one of its polls, which ended the exchange.
    NoMemory,
}

impl<A: App> Outcome<A> {
    ghost use Rattle.std.specs.Prelude.{◌≡◌};
    ghost use Rattle.web_worker.specs.Outcomes.{is_unfinished, outcome_view};

    /// Whether no response was ready.
    pub(crate) fn is_unfinished(&self) -> bool
        ensures { result ≡ is_unfinished (outcome_view A.Source.feed self.now) }
    {
        match self {
            Outcome::Unfinished => true,
            Outcome::Reply(_) | Outcome::NoMemory => false,
        }
    }
}
