//! A buffer for text.
ghost use Rattle.std.specs.Prelude.{◌≡◌, ◌++◌, [], OnOk, OnErr, IfOk};

use bytes::{Bytes, BytesMut};
use std::alloc::Global;
use std::marker::Model;
use web_texts::NoMemory;

/// A buffer to which text is written, and from which it is taken as bytes. Contracts see the bytes
/// that it holds.
#[derive(Drop)]
pub struct Writer {
    buffer: BytesMut,
}

impl Model for Writer {
    ghost use Rattle.std.specs.Prelude.{List, ℕ};

    ghost Value = { List ℕ };

    ghost view = { λ w. w.buffer.items };
}

impl Writer {
    /// An empty writer. It allocates nothing yet.
    pub fn new(alloc: Global) -> Writer
        ensures { result ≡ [] }
    {
        Writer {
            buffer: BytesMut::new(alloc),
        }
    }

    /// Adds a text at the end. Returns `NoMemory` where allocation failed, and is then unchanged.
    pub fn write_str(&mut self, s: &str) -> Result<(), NoMemory>
        ensures ok { OnOk result (self.new ≡ self.old ++ s.now) }
        ensures err { OnErr result (self.new ≡ self.old) }
    {
        self.buffer.extend_from_slice(s.as_bytes())?;
        Ok(())
    }

    /// Gives what was written and leaves the writer empty. Returns `NoMemory` where allocation
    /// failed, and is then unchanged.
    pub fn take(&mut self) -> Result<Bytes, NoMemory>
        ensures written { IfOk result (λ bytes. bytes ≡ self.old) }
        ensures ok { OnOk result (self.new ≡ []) }
        ensures err { OnErr result (self.new ≡ self.old) }
    {
        let len = self.buffer.len();
        Ok(self.buffer.freeze_to(len)?)
    }
}
