//! One place of an argument list.
ghost use Rattle.std.specs.Prelude.{◌≡◌, false, IsOk};
ghost use Rattle.web_extract.specs.Place.{Advances, PlaceNeedsNoMemory, place_comes};
ghost use Rattle.web_extract.specs.Place.{place_finished};

use std::alloc::Global;
use web_body::{Poll, Step};
use web_reply::Error;
use web_request::NoMemory;

/// One place of an argument list.
#[derive(Drop)]
pub enum Place<Fut, T> {
    /// The future of its value, which is still to come.
    Waiting(Fut),
    /// Its value or its refusal, while other places are still waiting.
    Done(Result<T, Error>),
    /// Its result was taken out.
    Taken,
}

impl<T: Drop, E: Into<Error> + Drop, Fut: Poll<Output = Result<T, E>>> Place<Fut, T> {
    pub fn finished(&self) -> bool
        ensures { result ≡ place_finished Fut.is_finished self.now }
    {
        match self {
            Place::Waiting(fut) => fut.finished(),
            Place::Done(_) => false,
            Place::Taken => true,
        }
    }

    /// Polls the future if the result is still to come. Returns whether the result is there.
    pub fn advance(&mut self, alloc: Global) -> Result<bool, NoMemory>
        requires unfinished { place_finished Fut.is_finished self.old ≡ false }
        ensures advances { Advances Fut.is_finished (place_comes E.converts Fut.gives)
            self.old result self.new }
        ensures memory { PlaceNeedsNoMemory Fut.needs_no_memory self.old → IsOk result }
    {
        match self {
            Place::Waiting(fut) => match fut.poll(alloc) {
                Step::Pending => Ok(false),
                Step::Ready(Ok(value)) => {
                    *self = Place::Done(Ok(value));
                    Ok(true)
                }
                Step::Ready(Err(refusal)) => {
                    *self = Place::Done(Err(refusal.into()));
                    Ok(true)
                }
                Step::NoMemory => Err(NoMemory),
            },
            Place::Done(_) => Ok(true),
            Place::Taken => unreachable!(),
        }
    }
}
