//! Inputs.
ghost use Rattle.std.specs.Prelude.{◌<◌, length};
ghost use Rattle.cli_io.specs.IoAnswers.{Reads};
ghost use Rattle.cli_io.specs.IoState.{InputState};

/// The result of a read.
#[derive(Clone, Copy, Debug, PartialEq, Eq)]
pub enum ReadAnswer {
    /// So many bytes, at least one, were put at the start of the buffer.
    Bytes(usize),
    /// The input has ended.
    End,
    /// Reading failed, and nothing was read. Only this result changes the count of faults: it
    /// rises, or stays at the greatest `u64`.
    Failed,
}

/// A source of bytes that counts its failures.
///
/// Contracts see how often it failed, whether its last result was `End`, how many bytes it gave (a
/// count that stops at the greatest `u64`), and the bytes that are left, where those are known.
pub trait Input {
    /// The state that contracts see.
    ghost state: { Self → InputState };

    /// Reads bytes into the start of the buffer, which must not be empty.
    fn read(&mut self, buf: &mut [u8]) -> ReadAnswer
        requires { 0 < length buf.old }
        ensures { Reads result buf.new (state self.old) (state self.new) };
}
