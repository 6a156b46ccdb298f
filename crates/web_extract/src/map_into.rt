//! A future whose value and refusal are converted by `Into`.
ghost use Rattle.std.specs.Prelude.{◌≡◌, ◌⊎◌, false, IfOk, IsOk};
ghost use Rattle.web_body.specs.Payload.{payload_feed};
ghost use Rattle.web_extract.specs.ConvertedFutures.{ConvertsStep, GivesConverted};
ghost use Rattle.web_extract.specs.Extracts.{Extracts};

use crate::from_request::FromRequest;
use crate::into_some::IntoSome;
use std::alloc::Global;
use std::marker::{Model, PhantomData};
use web_body::{Payload, Poll, Step};
use web_request::{App, HttpRequest, NoMemory};

/// A future of a `Result<V, F>`, made of one whose value converts to `V` and whose refusal
/// converts to `F`. It takes as many polls as that future.
#[derive(Drop)]
pub struct MapInto<Fut, V, F> {
    fut: Fut,
    value: PhantomData<V>,
    refusal: PhantomData<F>,
}

impl<Fut, V, F> Model for MapInto<Fut, V, F> {
    ghost Value = { Fut };

    ghost view = { λ f. f.fut };
}

impl<Fut, V, F> MapInto<Fut, V, F> {
    /// Wraps a future.
    pub fn new(fut: Fut) -> MapInto<Fut, V, F>
        ensures { result ≡ fut }
    {
        MapInto {
            fut,
            value: PhantomData,
            refusal: PhantomData,
        }
    }
}

/// The step of a poll, with its value or its refusal converted.
fn convert_step<T: Into<V>, E: Into<F>, V, F>(step: Step<Result<T, E>>) -> Step<Result<V, F>>
    ensures { ConvertsStep T.converts E.converts step result }
{
    match step {
        Step::Pending => Step::Pending,
        Step::Ready(Ok(value)) => Step::Ready(Ok(value.into())),
        Step::Ready(Err(e)) => Step::Ready(Err(e.into())),
        Step::NoMemory => Step::NoMemory,
    }
}

impl<
    T: IntoSome<V> + Drop,
    E: IntoSome<F> + Drop,
    V: Drop,
    F: Drop,
    Fut: Poll<Output = Result<T, E>>,
> Poll for MapInto<Fut, V, F> {
    ghost use Rattle.web_extract.specs.ConvertedFutures.{GivesConverted, converted_some};

    type Output = Result<V, F>;

    ghost is_finished = { λ f. Fut.is_finished f };

    ghost gives = { λ f n x. GivesConverted T.converts E.converts (Fut.gives f) n x };

    ghost needs_no_memory = { λ f. Fut.needs_no_memory f };

    ghost some = { λ f h. converted_some T.converts E.converts T.converted E.converted
        (Fut.gives f) (Fut.some f h) };

    fn finished(&self) -> bool {
        self.fut.finished()
    }

    fn poll(&mut self, alloc: Global) -> Step<Result<V, F>> {
        convert_step(self.fut.poll(alloc))
    }
}

/// Begins to make an argument `T`, whose value converts to `V` and whose refusal to `F`: for an
/// argument that is one of several, chosen by the request. See [`FromRequest::from_request`].
pub fn from_request_into<A: App, T: FromRequest<A> + IntoSome<V>, V: Drop, F: Drop>(
    alloc: Global,
    req: &HttpRequest<A>,
    payload: &mut Payload<A::Source>,
) -> Result<MapInto<T::Future, V, F>, NoMemory>
where
    T::Error: IntoSome<F>,
    ensures fresh { IfOk result (λ f. T.Future.is_finished f ≡ false) }
    ensures extracts { IfOk result (λ f. Extracts
        (λ m rest n x. GivesConverted T.Into.converts ⟦<T::Error as Into<F>>⟧.converts
        (T.means req.now.request m rest) n x)
        (λ n x. GivesConverted T.Into.converts ⟦<T::Error as Into<F>>⟧.converts
        (T.Future.gives f) n x)
        (payload_feed A.Source.feed payload.old).marks
        (payload_feed A.Source.feed payload.new).marks) }
    ensures payload { (payload.new ≡ payload.old) ⊎ (payload.new ≡ Payload.None) }
    ensures memory { T.needs_no_memory req.now.request → IsOk result }
{
    match T::from_request(alloc, req, payload) {
        Ok(fut) => Ok(MapInto::new(fut)),
        Err(e) => Err(e),
    }
}
