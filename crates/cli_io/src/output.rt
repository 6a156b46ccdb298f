//! Outputs.
ghost use Rattle.std.specs.Prelude.{◌<◌, length};
ghost use Rattle.cli_io.specs.IoAnswers.{Writes};
ghost use Rattle.cli_io.specs.IoState.{OutputState};

/// The result of a write.
#[derive(Clone, Copy, Debug, PartialEq, Eq)]
pub enum WriteAnswer {
    /// So many of the first bytes, at least one, were written.
    Wrote(usize),
    /// Writing failed, and nothing was written. Only this result changes the count of faults: it
    /// rises, or stays at the greatest `u64`.
    Failed,
}

/// A sink of bytes that counts its failures.
///
/// Contracts see how often it failed, and the bytes that were written, where those are known.
pub trait Output {
    /// The state that contracts see.
    ghost state: { Self → OutputState };

    /// Writes the first bytes, as many as it takes at once. There must be at least one.
    fn write(&mut self, bytes: &[u8]) -> WriteAnswer
        requires { 0 < length bytes.now }
        ensures { Writes result bytes.now (state self.old) (state self.new) };
}
