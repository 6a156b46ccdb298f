//! Services that keep a state from one request to the next.
use std::alloc::Global;
use std::marker::PhantomData;
use web_body::{Payload, Poll, Step};
use web_extract::FromRequest;
use web_reply::Responder;
use web_request::{App, HttpRequest};
use web_texts::NoMemory;
use web_worker::{Outcome, Service, Whole, error_outcome, response_outcome};

/// A state that replies to arguments, and may be another afterwards. Its value is there at once.
pub trait StateHandler<Args>: Drop {
    ghost use Rattle.std.specs.Prelude.{Result};
    ghost use Rattle.web_texts.specs.declared.memory.NoMemory.{NoMemory};

    type Output: Drop;

    /// Whether, in the first state, these arguments may get this result and leave the second state.
    ghost replies: { Self → Args → Result Self.Output NoMemory → Self → Type 0 };

    /// Replies to these arguments.
    ///
    /// `Err(NoMemory)` if an allocation failed.
    fn reply(&mut self, alloc: Global, args: Args) -> Result<Self::Output, NoMemory>
        ensures { replies self.old args result self.new };
}

/// The service of a state: it replies to each request as the state does that the replies before it
/// left. A refused argument leaves the state as it is.
#[derive(Drop)]
pub struct StateService<Args, H> {
    handler: H,
    args: PhantomData<Args>,
}

impl<Args, H> StateService<Args, H> {
    ghost use Rattle.std.specs.Prelude.{◌≡◌};

    /// The service that begins with this state.
    pub fn new(handler: H) -> StateService<Args, H>
        ensures { result.handler ≡ handler }
    {
        StateService {
            handler,
            args: PhantomData,
        }
    }
}

impl<A: App, Args: FromRequest<A>, H: StateHandler<Args>> Service<A, Whole>
    for StateService<Args, H>
where
    H::Output: Responder<A>,
{
    ghost use Rattle.std.specs.Prelude.{[], refl};
    ghost use Rattle.web_worker.specs.HandlerServices.{extracting_promise, request_promise};
    ghost use Rattle.web_worker.specs.HandlerServices.{rules_of};
    ghost use Rattle.web_worker.specs.ServiceStates.{Reaches};
    ghost use Rattle.web_routing.specs.ServiceRoutes.{itself_keeps, whole_promise};
    ghost use Rattle.web_routing.specs.StateServices.{StateAnswers, StateSteps, kept_states};
    ghost use Rattle.web_routing.specs.StateServices.{extracting_open, reaches_on};

    type Call = Args::Future;

    ghost promise = { λ s q m. whole_promise (request_promise (rules_of Args.means
        Args.Error.converts (StateAnswers H.replies) H.Output.responds) q m) };

    ghost left = { λ s c q. whole_promise (extracting_promise (rules_of Args.means
        Args.Error.converts (StateAnswers H.replies) H.Output.responds) Args.Future.gives c q) };

    ghost is_finished = { λ c. Args.Future.is_finished c };

    ghost states = { kept_states (λ s. s.handler)
        (StateSteps H.replies Args.Error.converts H.Output.responds) };

    // The second state is what the replies to some requests made of the first: so whatever serves
    // requests, a connection too, says of it what a run of the steps says.
    ghost same_promises = { λ a b. Reaches
        (StateSteps H.replies Args.Error.converts H.Output.responds) a.handler b.handler };

    ghost open = { λ s c q. extracting_open (rules_of Args.means Args.Error.converts
        (StateAnswers H.replies) H.Output.responds) Args.Future.gives Args.Future.is_finished
        Args.Future.some c q };

    ghost same_itself = { λ a. ([], [], refl) };

    ghost same_on = { λ a b c first second. reaches_on
        (StateSteps H.replies Args.Error.converts H.Output.responds)
        a.handler b.handler c.handler first second };

    ghost keeps = { λ a b same. itself_keeps (λ q. q)
        (λ q m. whole_promise (request_promise (rules_of Args.means Args.Error.converts
        (StateAnswers H.replies) H.Output.responds) q m))
        (λ c q. whole_promise (extracting_promise (rules_of Args.means Args.Error.converts
        (StateAnswers H.replies) H.Output.responds) Args.Future.gives c q)) };

    fn begin(
        &mut self,
        alloc: Global,
        request: &mut HttpRequest<A>,
        payload: &mut Payload<A::Source>,
    ) -> Result<Args::Future, NoMemory> {
        Ok(Args::from_request(alloc, request, payload)?)
    }

    fn poll(
        &mut self,
        alloc: Global,
        call: &mut Args::Future,
        request: &HttpRequest<A>,
        outcome: &mut Outcome<A>,
    ) {
        match call.poll(alloc) {
            Step::Pending => {}
            Step::Ready(Ok(args)) => match self.handler.reply(alloc, args) {
                Ok(value) => *outcome = response_outcome(alloc, value, request),
                Err(_) => *outcome = Outcome::NoMemory,
            },
            Step::Ready(Err(error)) => *outcome = error_outcome(alloc, error),
            Step::NoMemory => *outcome = Outcome::NoMemory,
        }
    }
}
