//! Errors whose replies are changed by mappers.
ghost use Rattle.std.specs.Prelude.{◌≡◌, ◌++◌, ◌∷◌, [], IfErr, IfOk, OnErr, OnOk};
ghost use Rattle.web_reply.specs.Mappers.{RunsAll};
ghost use Rattle.web_reply.specs.Replies.{after_giving, given_reply};

use crate::body::WholeBody;
use crate::errors::error::Error;
use crate::response::HttpResponse;
use std::alloc::Global;
use web_texts::NoMemory;

/// What changes the reply to an error, as by adding a header.
pub trait ResponseMapper: Drop {
    ghost use Rattle.web_reply.specs.Replies.{Reply};
    ghost use Rattle.web_reply.specs.declared.body.WholeBody.{WholeBody};

    /// Whether it may change the first reply to the second.
    ghost maps: { Self → Reply WholeBody → Reply WholeBody → Type 0 };

    /// Changes a reply. An earlier mapper may have changed it before.
    fn map(
        &self,
        alloc: Global,
        response: HttpResponse<WholeBody>,
    ) -> Result<HttpResponse<WholeBody>, NoMemory>
        ensures { IfOk result (λ reply. maps self.now response reply) };
}

/// An error with the mappers of its reply.
///
/// Only `error_response` runs them: the reply that a handler's error becomes is made from the error
/// itself, which has none.
#[derive(Drop)]
pub struct MappedError {
    pub error: Error,
    /// They run in this order.
    pub mappers: Vec<Box<dyn ResponseMapper>>,
}

impl MappedError {
    /// This error, with no mapper.
    pub fn new(alloc: Global, error: Error) -> MappedError
        ensures error { result.error ≡ error }
        ensures mappers { result.mappers.items ≡ [] }
    {
        MappedError {
            error,
            mappers: Vec::new(alloc),
        }
    }

    /// Adds a mapper, which runs after the others. It is handed back where allocation fails.
    pub fn add_response_mapper(
        &mut self,
        mapper: Box<dyn ResponseMapper>,
    ) -> Result<(), (NoMemory, Box<dyn ResponseMapper>)>
        ensures ok { OnOk result (self.new.mappers.items ≡ self.old.mappers.items ++ mapper ∷ []) }
        ensures err { OnErr result (self.new.mappers.items ≡ self.old.mappers.items) }
        ensures back { IfErr result (λ refused. refused.1 ≡ mapper) }
        ensures error { self.new.error ≡ self.old.error }
    {
        match self.mappers.push(mapper) {
            Ok(()) => Ok(()),
            Err(refused) => Err((NoMemory, refused.value)),
        }
    }

    /// The reply of the error, which is then given, as the mappers change it in the order in which
    /// they were added. Where allocation fails, here or in a mapper, the error is unchanged.
    pub fn error_response(&mut self, alloc: Global) -> Result<HttpResponse<WholeBody>, NoMemory>
        ensures value { IfOk result (λ reply.
            RunsAll (λ mapper. maps mapper) self.old.mappers.items
            (given_reply self.old.error) reply) }
        ensures after { OnOk result (self.new.error ≡ after_giving self.old.error) }
        ensures kept { OnErr result (self.new.error ≡ self.old.error) }
        ensures mappers { self.new.mappers ≡ self.old.mappers }
    {
        let first = self.error.copied_response(alloc)?;
        let last = run_mappers(alloc, self.mappers.as_slice(), first)?;
        self.error.note_given();
        Ok(last)
    }
}

/// Runs the mappers in their order.
fn run_mappers(
    alloc: Global,
    mappers: &[Box<dyn ResponseMapper>],
    response: HttpResponse<WholeBody>,
) -> Result<HttpResponse<WholeBody>, NoMemory>
    ensures { IfOk result (λ reply.
        RunsAll (λ mapper. maps mapper) mappers.now response reply) }
{
    let mut response = response;
    let mut left = mappers;
    while let Some((mapper, rest)) = left.split_first() {
        response = mapper.map(alloc, response)?;
        left = rest;
    }
    Ok(response)
}
