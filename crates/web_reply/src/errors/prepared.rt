//! Replies that were prepared.
ghost use Rattle.std.specs.Prelude.{◌≡◌, IfOk};
ghost use Rattle.web_reply.specs.PreparedReplies.{once_given, prepared_map};

use std::alloc::Global;
use std::{fmt, mem};
use web_texts::NoMemory;

/// Whether a reply was prepared, and whether it was given.
#[derive(Drop)]
pub(crate) enum Prepared<R> {
    /// None was prepared.
    Never,
    /// It was prepared, and is still to be given.
    Held(R),
    /// It was prepared and given.
    Given,
}

impl<R> Prepared<R> {
    /// Gives the reply, which is then given. Returns the state before.
    pub(crate) fn give(&mut self) -> Prepared<R>
        ensures before { result ≡ self.old }
        ensures after { self.new ≡ once_given self.old }
    {
        let after = match self {
            Prepared::Never => Prepared::Never,
            Prepared::Held(_) | Prepared::Given => Prepared::Given,
        };
        mem::replace(self, after)
    }

    /// The same state, with the reply in a `Box`.
    pub(crate) fn boxed(self, alloc: Global) -> Result<Prepared<Box<R>>, NoMemory>
    where
        R: Drop,
        ensures { IfOk result (λ boxed. prepared_map (λ reply. reply.value) boxed ≡ self) }
    {
        Ok(match self {
            Prepared::Never => Prepared::Never,
            Prepared::Held(reply) => Prepared::Held(Box::new(alloc, reply)?),
            Prepared::Given => Prepared::Given,
        })
    }
}

impl<R> fmt::Debug for Prepared<R> {
    fn fmt<W: fmt::Write>(&self, f: &mut fmt::Formatter<W>) -> fmt::Result {
        f.write_str(match self {
            Prepared::Never => "Never",
            Prepared::Held(_) => "Held",
            Prepared::Given => "Given",
        })
    }
}
