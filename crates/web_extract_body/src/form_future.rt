//! The future of a form as an argument.
ghost use Rattle.std.specs.Prelude.{◌≡◌, IfOk, IsOk, None, false};
ghost use Rattle.web_body.specs.PollSteps.{NeverNoMemory};
ghost use Rattle.web_extract_body.specs.HandledBodies.{HandlesStep, KeptErrors};
ghost use Rattle.web_extract_body.specs.FormArgument.{form_handler, form_of};
ghost use Rattle.web_extract.specs.Refusals.{form_fault};

use crate::form_value::Form;
use std::alloc::Global;
use std::marker::Model;
use web_body::{Poll, Step, UrlencodedError};
use web_codec::ReadPairs;
use web_decoders::UrlEncoded;
use web_extract::{Configs, form_refused};
use web_reply::Error;
use web_request::{App, HttpRequest, NoMemory};

/// The future of a `Form` argument.
///
/// A refusal by the head is the result of the first poll, which reads nothing, and allocates
/// nothing where no handler answers it. Otherwise it collects the payload that it took, as
/// `UrlEncoded` does, and keeps it also when it is finished.
#[derive(Drop)]
pub struct FormExtractFut<T, A: App> {
    body: UrlEncoded<T, A::Source>,
    /// Where a handler is configured, the request.
    request: Option<HttpRequest<A>>,
}

impl<T, A: App> Model for FormExtractFut<T, A> {
    ghost use Rattle.web_request.specs.Request.{Record};
    ghost use Rattle.web_decoders.specs.FormBodies.{FormBody as Body};
    ghost use Rattle.web_extract_body.specs.HandledBodies.{HandledBody};

    ghost Value = { HandledBody (Body A.Source) (Record A.Layer A.Local A.Conn) };

    ghost view = { λ f. record { body = f.body; request = f.request } };
}

impl<T, A: App> FormExtractFut<T, A> {
    pub(crate) fn new(
        body: UrlEncoded<T, A::Source>,
        request: Option<HttpRequest<A>>,
    ) -> FormExtractFut<T, A>
        ensures { result ≡ record { body = body; request = request } }
    {
        FormExtractFut { body, request }
    }
}

impl<T: ReadPairs, A: App> Poll for FormExtractFut<T, A>
where
    A::Layer: Configs,
{
    ghost use Rattle.std.specs.Prelude.{◌≡◌, false};
    ghost use Rattle.web_body.specs.PollSteps.{Ends, IfReady, NeverNoMemory, Shifts};
    ghost use Rattle.web_decoders.specs.FormBodies.{form_body_finished, form_body_marks};
    ghost use Rattle.web_decoders.specs.FormBodies.{form_body_refusal, form_gives, form_gives_some};
    ghost use Rattle.web_extract.specs.Refusals.{form_fault};
    ghost use Rattle.web_extract_body.specs.HandledBodies.{GivesHandled, HandledNeedsNoMemory};
    ghost use Rattle.web_extract_body.specs.HandledBodies.{HandlesStep, KeptErrors};
    ghost use Rattle.web_extract_body.specs.HandledBodies.{handled_some, kept_some};
    ghost use Rattle.web_extract_body.specs.FormArgument.{PollsForm, form_handler, form_of};

    type Output = Result<Form<T>, Error>;

    ghost is_finished = { λ f. form_body_finished f.body };

    ghost gives = { λ f n x. GivesHandled form_of
        (KeptErrors A.Layer.OnForm.refuses form_fault
        (form_handler A.Layer.Configs.configurations) f.request)
        (form_gives A.Source.feed T.reads_pairs f.body) n x };

    ghost needs_no_memory = { λ f. HandledNeedsNoMemory f.request
        (form_body_refusal f.body) (form_body_marks A.Source.feed f.body) };

    ghost some = { λ f h. handled_some form_of
        (KeptErrors A.Layer.OnForm.refuses form_fault
        (form_handler A.Layer.Configs.configurations) f.request)
        (kept_some A.Layer.OnForm.refuses form_fault
        (form_handler A.Layer.Configs.configurations) f.request)
        (form_gives A.Source.feed T.reads_pairs f.body)
        (form_gives_some A.Source.feed T.reads_pairs f.body) };

    fn finished(&self) -> bool {
        self.body.finished()
    }

    fn poll(&mut self, alloc: Global) -> Step<Result<Form<T>, Error>>
        requires unfinished { form_body_finished self.old.body ≡ false }
        ensures ends { Ends result (form_body_finished self.new.body) }
        ensures value { IfReady result (GivesHandled form_of
            (KeptErrors A.Layer.OnForm.refuses form_fault
            (form_handler A.Layer.Configs.configurations) self.old.request)
            (form_gives A.Source.feed T.reads_pairs self.old.body) 0) }
        ensures shift { Shifts result
            (GivesHandled form_of (KeptErrors A.Layer.OnForm.refuses form_fault
            (form_handler A.Layer.Configs.configurations) self.old.request)
            (form_gives A.Source.feed T.reads_pairs self.old.body))
            (GivesHandled form_of (KeptErrors A.Layer.OnForm.refuses form_fault
            (form_handler A.Layer.Configs.configurations) self.new.request)
            (form_gives A.Source.feed T.reads_pairs self.new.body)) }
        ensures memory { HandledNeedsNoMemory self.old.request
            (form_body_refusal self.old.body) (form_body_marks A.Source.feed self.old.body)
            → NeverNoMemory result }
        ensures request { self.new.request ≡ self.old.request }
        ensures polls { PollsForm A.Source.feed T.reads_pairs
            (λ s. HandlesStep form_of (KeptErrors A.Layer.OnForm.refuses form_fault
            (form_handler A.Layer.Configs.configurations) self.old.request) s result)
            self.old.body self.new.body }
    {
        let step = self.body.poll(alloc);
        handle_step(alloc, &self.request, step)
    }
}

/// The step of the argument, of that of its body.
fn handle_step<T: Drop, A: App>(
    alloc: Global,
    request: &Option<HttpRequest<A>>,
    step: Step<Result<T, UrlencodedError>>,
) -> Step<Result<Form<T>, Error>>
where
    A::Layer: Configs,
    ensures handles { HandlesStep form_of (KeptErrors A.Layer.OnForm.refuses form_fault
        (form_handler A.Layer.Configs.configurations) request.now) step result }
    ensures memory { request.now ≡ None → NeverNoMemory step → NeverNoMemory result }
{
    match step {
        Step::Pending => Step::Pending,
        Step::Ready(Ok(value)) => Step::Ready(Ok(Form(value))),
        Step::Ready(Err(fault)) => match handle(alloc, request, fault) {
            Ok(error) => Step::Ready(Err(error)),
            Err(_) => Step::NoMemory,
        },
        Step::NoMemory => Step::NoMemory,
    }
}

/// The error of a refusal.
fn handle<A: App>(
    alloc: Global,
    request: &Option<HttpRequest<A>>,
    fault: UrlencodedError,
) -> Result<Error, NoMemory>
where
    A::Layer: Configs,
    ensures value { IfOk result (λ x. KeptErrors A.Layer.OnForm.refuses form_fault
        (form_handler A.Layer.Configs.configurations) request.now fault x) }
    ensures memory { request.now ≡ None → IsOk result }
{
    match request {
        Some(request) => form_refused(alloc, request, fault),
        None => Ok(Error::from(fault)),
    }
}
