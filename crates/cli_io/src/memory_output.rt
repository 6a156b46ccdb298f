//! Outputs in memory.
ghost use Rattle.std.specs.Prelude.{◌≡◌, ◌<◌, [], Some, IsTrue, length, min};
ghost use Rattle.cli_io.specs.IoAnswers.{IfWrote, Writes};
ghost use Rattle.cli_io.specs.MemoryIo.{MemoryOutput, next_call, is_to_fail};
ghost use Rattle.cli_io.specs.IoState.{OutputState};

use crate::failing::is_to_fail;
use crate::output::{Output, WriteAnswer};
use std::alloc::Global;
use std::marker::Model;

/// An output that keeps what is written. A write fails only where an allocation failed.
#[derive(Drop)]
pub struct PlainOutput {
    bytes: Vec<u8>,
    faults: u64,
}

impl Model for PlainOutput {
    ghost use Rattle.std.specs.Prelude.{Some};
    ghost use Rattle.cli_io.specs.IoState.{OutputState};

    ghost Value = { OutputState };

    ghost view = { λ s. record { faults = s.faults; written = Some s.bytes.items } };
}

impl PlainOutput {
    /// Makes an empty output. It allocates nothing.
    pub fn new(alloc: Global) -> Self
        ensures { result ≡ record { faults = 0; written = Some [] } }
    {
        PlainOutput {
            bytes: Vec::new(alloc),
            faults: 0,
        }
    }

    /// The bytes that were written.
    pub fn as_slice(&self) -> &[u8]
        ensures { self.now.written ≡ Some result.now }
    {
        self.bytes.as_slice()
    }
}

impl Output for PlainOutput {
    ghost state = { λ s. s };

    fn write(&mut self, bytes: &[u8]) -> WriteAnswer
        requires { 0 < length bytes.now }
        ensures writes { Writes result bytes.now self.old self.new }
        ensures most { IfWrote result (λ count. count ≡ length bytes.now) }
    {
        match self.bytes.extend_from_slice(bytes) {
            Ok(()) => WriteAnswer::Wrote(bytes.len()),
            Err(_) => {
                self.faults = self.faults.saturating_add(1);
                WriteAnswer::Failed
            }
        }
    }
}

/// An output that keeps what is written, for tests. A write takes at most so many bytes, and fails
/// where its number is one of those given, or where an allocation failed. The writes are numbered
/// from 1.
#[derive(Drop)]
pub struct MemOutput<'a> {
    bytes: Vec<u8>,
    faults: u64,
    most: usize,
    fails_at: &'a [u64],
    calls: u64,
}

impl<'a> Model for MemOutput<'a> {
    ghost use Rattle.std.specs.Prelude.{Some, ◌<◌};
    ghost use Rattle.cli_io.specs.MemoryIo.{MemoryOutput};

    ghost Value = { MemoryOutput };

    ghost view = { λ s. record {
      state = record { faults = s.faults; written = Some s.bytes.items };
      calls = s.calls;
      fails_at = s.fails_at.now;
      most = s.most;
    } };

    ghost invariant = { λ s. 0 < s.most };
}

impl<'a> MemOutput<'a> {
    /// Makes an empty output. A write takes at most `most` bytes, which is at least 1. It allocates
    /// nothing.
    pub fn new(alloc: Global, most: usize, fails_at: &'a [u64]) -> Self
        requires { 0 < most }
        ensures { result ≡ record {
          state = record { faults = 0; written = Some [] };
          calls = 0;
          fails_at = fails_at.now;
          most = most;
        } }
    {
        MemOutput {
            bytes: Vec::new(alloc),
            faults: 0,
            most,
            fails_at,
            calls: 0,
        }
    }

    /// The bytes that were written.
    pub fn as_slice(&self) -> &[u8]
        ensures { self.now.state.written ≡ Some result.now }
    {
        self.bytes.as_slice()
    }
}

impl<'a> Output for MemOutput<'a> {
    ghost state = { λ s. s.state };

    fn write(&mut self, bytes: &[u8]) -> WriteAnswer
        requires { 0 < length bytes.now }
        ensures writes { Writes result bytes.now self.old.state self.new.state }
        ensures fails { IsTrue (is_to_fail self.old.fails_at (next_call self.old.calls))
            → result ≡ WriteAnswer.Failed }
        ensures most { IfWrote result (λ count. count ≡ min (length bytes.now) self.old.most) }
        ensures kept { (self.new.fails_at ≡ self.old.fails_at) × (self.new.most ≡ self.old.most) }
        ensures calls { self.new.calls ≡ next_call self.old.calls }
    {
        self.calls = self.calls.saturating_add(1);
        if is_to_fail(self.fails_at, self.calls) {
            self.faults = self.faults.saturating_add(1);
            return WriteAnswer::Failed;
        }
        let count = bytes.len().min(self.most);
        match self.bytes.extend_from_slice(&bytes[..count]) {
            Ok(()) => WriteAnswer::Wrote(count),
            Err(_) => {
                self.faults = self.faults.saturating_add(1);
                WriteAnswer::Failed
            }
        }
    }
}
