//! Handlers whose value is there at once.
use crate::handler_service::HandlerService;
use std::alloc::Global;
use web_extract::Ready;
use web_texts::{Fail, NoMemory};
use web_worker::Handler;

/// A handler that calls a closure with the arguments, whose value is there at once.
///
/// The closure returns `Ok` with a value that responds, `Err(Fail::Of(error))` with an error that
/// is answered, or `Err(Fail::NoMemory)`.
#[derive(Drop)]
pub struct Immediate<F>(pub F);

impl<Args, T: Drop, E: Drop, F: Fn(Args) -> Result<T, Fail<E>>> Handler<Args> for Immediate<F> {
    ghost use Rattle.web_routing.specs.ImmediateAnswers.{ImmediateAnswers};

    type Output = Result<T, E>;

    type Future = Ready<Result<T, E>>;

    ghost answers = { λ h x n y. ImmediateAnswers (F.post h.0 x) n y };

    ghost ready = { λ h. F.IsAlwaysCallable h.0 };

    fn call(&mut self, _alloc: Global, args: Args) -> Result<Ready<Result<T, E>>, NoMemory> {
        match (self.0)(args) {
            Ok(value) => Ok(Ready::new(Ok(value))),
            Err(Fail::Of(error)) => Ok(Ready::new(Err(error))),
            Err(Fail::NoMemory) => Err(NoMemory),
        }
    }
}

impl<Args, F> HandlerService<Args, Immediate<F>> {
    ghost use Rattle.std.specs.Prelude.{◌≡◌};

    /// The service that calls this closure, as `Immediate` does.
    pub fn immediate<T: Drop, E: Drop>(closure: F) -> HandlerService<Args, Immediate<F>>
    where
        F: Fn(Args) -> Result<T, Fail<E>>,
        ensures { result.handler.0 ≡ closure }
    {
        HandlerService::new(Immediate(closure))
    }
}
