//! The future of a JSON value as an argument.
ghost use Rattle.std.specs.Prelude.{◌≡◌, IfOk, IsOk, None, false};
ghost use Rattle.web_body.specs.PollSteps.{NeverNoMemory};
ghost use Rattle.web_extract_body.specs.HandledBodies.{HandlesStep, KeptErrors};
ghost use Rattle.web_extract_body.specs.JsonArgument.{json_handler, json_of};
ghost use Rattle.web_extract.specs.Refusals.{json_fault};

use crate::json_value::Json;
use std::alloc::Global;
use std::marker::Model;
use web_body::{JsonPayloadError, Poll, Step};
use web_codec::ReadJson;
use web_decoders::JsonBody;
use web_extract::{Configs, json_refused};
use web_reply::Error;
use web_request::{App, HttpRequest, NoMemory};

/// The future of a `Json` argument.
///
/// A refusal by the head is the result of the first poll, which reads nothing, and allocates
/// nothing where no handler answers it. Otherwise it collects the payload that it took, as
/// `JsonBody` does, and keeps it also when it is finished.
#[derive(Drop)]
pub struct JsonExtractFut<T, A: App> {
    body: JsonBody<T, A::Source>,
    /// Where a handler is configured, the request.
    request: Option<HttpRequest<A>>,
}

impl<T, A: App> Model for JsonExtractFut<T, A> {
    ghost use Rattle.web_request.specs.Request.{Record};
    ghost use Rattle.web_decoders.specs.JsonBodies.{JsonBody as Body};
    ghost use Rattle.web_extract_body.specs.HandledBodies.{HandledBody};

    ghost Value = { HandledBody (Body A.Source) (Record A.Layer A.Local A.Conn) };

    ghost view = { λ f. record { body = f.body; request = f.request } };
}

impl<T, A: App> JsonExtractFut<T, A> {
    pub(crate) fn new(
        body: JsonBody<T, A::Source>,
        request: Option<HttpRequest<A>>,
    ) -> JsonExtractFut<T, A>
        ensures { result ≡ record { body = body; request = request } }
    {
        JsonExtractFut { body, request }
    }
}

impl<T: ReadJson, A: App> Poll for JsonExtractFut<T, A>
where
    A::Layer: Configs,
{
    ghost use Rattle.std.specs.Prelude.{◌≡◌, false};
    ghost use Rattle.web_body.specs.PollSteps.{Ends, IfReady, NeverNoMemory, Shifts};
    ghost use Rattle.web_decoders.specs.JsonBodies.{json_body_finished, json_body_marks};
    ghost use Rattle.web_decoders.specs.JsonBodies.{json_body_refusal, json_gives, json_gives_some};
    ghost use Rattle.web_extract.specs.Refusals.{json_fault};
    ghost use Rattle.web_extract_body.specs.HandledBodies.{GivesHandled, HandledNeedsNoMemory};
    ghost use Rattle.web_extract_body.specs.HandledBodies.{HandlesStep, KeptErrors};
    ghost use Rattle.web_extract_body.specs.HandledBodies.{handled_some, kept_some};
    ghost use Rattle.web_extract_body.specs.JsonArgument.{PollsJson, json_handler, json_of};

    type Output = Result<Json<T>, Error>;

    ghost is_finished = { λ f. json_body_finished f.body };

    ghost gives = { λ f n x. GivesHandled json_of
        (KeptErrors A.Layer.OnJson.refuses json_fault
        (json_handler A.Layer.Configs.configurations) f.request)
        (json_gives A.Source.feed T.reads f.body) n x };

    ghost needs_no_memory = { λ f. HandledNeedsNoMemory f.request
        (json_body_refusal f.body) (json_body_marks A.Source.feed f.body) };

    ghost some = { λ f h. handled_some json_of
        (KeptErrors A.Layer.OnJson.refuses json_fault
        (json_handler A.Layer.Configs.configurations) f.request)
        (kept_some A.Layer.OnJson.refuses json_fault
        (json_handler A.Layer.Configs.configurations) f.request)
        (json_gives A.Source.feed T.reads f.body)
        (json_gives_some A.Source.feed T.reads f.body) };

    fn finished(&self) -> bool {
        self.body.finished()
    }

    fn poll(&mut self, alloc: Global) -> Step<Result<Json<T>, Error>>
        requires unfinished { json_body_finished self.old.body ≡ false }
        ensures ends { Ends result (json_body_finished self.new.body) }
        ensures value { IfReady result (GivesHandled json_of
            (KeptErrors A.Layer.OnJson.refuses json_fault
            (json_handler A.Layer.Configs.configurations) self.old.request)
            (json_gives A.Source.feed T.reads self.old.body) 0) }
        ensures shift { Shifts result
            (GivesHandled json_of (KeptErrors A.Layer.OnJson.refuses json_fault
            (json_handler A.Layer.Configs.configurations) self.old.request)
            (json_gives A.Source.feed T.reads self.old.body))
            (GivesHandled json_of (KeptErrors A.Layer.OnJson.refuses json_fault
            (json_handler A.Layer.Configs.configurations) self.new.request)
            (json_gives A.Source.feed T.reads self.new.body)) }
        ensures memory { HandledNeedsNoMemory self.old.request
            (json_body_refusal self.old.body) (json_body_marks A.Source.feed self.old.body)
            → NeverNoMemory result }
        ensures request { self.new.request ≡ self.old.request }
        ensures polls { PollsJson A.Source.feed T.reads
            (λ s. HandlesStep json_of (KeptErrors A.Layer.OnJson.refuses json_fault
            (json_handler A.Layer.Configs.configurations) self.old.request) s result)
            self.old.body self.new.body }
    {
        let step = self.body.poll(alloc);
        handle_step(alloc, &self.request, step)
    }
}

/// The step of the argument, of that of its body.
fn handle_step<T: Drop, A: App>(
    alloc: Global,
    request: &Option<HttpRequest<A>>,
    step: Step<Result<T, JsonPayloadError>>,
) -> Step<Result<Json<T>, Error>>
where
    A::Layer: Configs,
    ensures handles { HandlesStep json_of (KeptErrors A.Layer.OnJson.refuses json_fault
        (json_handler A.Layer.Configs.configurations) request.now) step result }
    ensures memory { request.now ≡ None → NeverNoMemory step → NeverNoMemory result }
{
    match step {
        Step::Pending => Step::Pending,
        Step::Ready(Ok(value)) => Step::Ready(Ok(Json(value))),
        Step::Ready(Err(fault)) => match handle(alloc, request, fault) {
            Ok(error) => Step::Ready(Err(error)),
            Err(_) => Step::NoMemory,
        },
        Step::NoMemory => Step::NoMemory,
    }
}

/// The error of a refusal.
fn handle<A: App>(
    alloc: Global,
    request: &Option<HttpRequest<A>>,
    fault: JsonPayloadError,
) -> Result<Error, NoMemory>
where
    A::Layer: Configs,
    ensures value { IfOk result (λ x. KeptErrors A.Layer.OnJson.refuses json_fault
        (json_handler A.Layer.Configs.configurations) request.now fault x) }
    ensures memory { request.now ≡ None → IsOk result }
{
    match request {
        Some(request) => json_refused(alloc, request, fault),
        None => Ok(Error::from(fault)),
    }
}
