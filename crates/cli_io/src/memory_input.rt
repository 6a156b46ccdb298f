//! Inputs in memory.
ghost use Rattle.std.specs.Prelude.{◌≡◌, ◌<◌, Some, IfSome, false, length};
ghost use Rattle.cli_io.specs.IoAnswers.{Reads};
ghost use Rattle.cli_io.specs.MemoryIo.{MemoryInput, next_call, given_of, memory_answer};
ghost use Rattle.cli_io.specs.IoState.{InputState};

use crate::failing::is_to_fail;
use crate::input::{Input, ReadAnswer};
use std::marker::Model;

/// An input over bytes in memory. A read fills the buffer as far as bytes are left, and never
/// fails.
#[derive(Drop)]
pub struct PlainInput<'a> {
    rest: &'a [u8],
    ended: bool,
    given: u64,
}

impl<'a> Model for PlainInput<'a> {
    ghost use Rattle.std.specs.Prelude.{Some};
    ghost use Rattle.cli_io.specs.IoState.{InputState};

    ghost Value = { InputState };

    ghost view = { λ s. record {
      faults = 0;
      ended = s.ended;
      left = Some s.rest.now;
      given = s.given;
    } };
}

impl<'a> PlainInput<'a> {
    /// Makes an input of these bytes.
    pub fn new(bytes: &'a [u8]) -> Self
        ensures { result ≡ record { faults = 0; ended = false; left = Some bytes.now; given = 0 } }
    {
        PlainInput {
            rest: bytes,
            ended: false,
            given: 0,
        }
    }
}

impl<'a> Input for PlainInput<'a> {
    ghost state = { λ s. s };

    fn read(&mut self, buf: &mut [u8]) -> ReadAnswer
        requires { 0 < length buf.old }
        ensures reads { Reads result buf.new self.old self.new }
        ensures gives { IfSome self.old.left
            (λ left. result ≡ given_of (length buf.old) (length left)) }
    {
        let count = self.rest.len().min(buf.len());
        if count == 0 {
            self.ended = true;
            return ReadAnswer::End;
        }
        let (front, rest) = self.rest.split_at(count);
        buf[..count].copy_from_slice(front);
        self.rest = rest;
        self.ended = false;
        self.given = self.given.saturating_add(count as u64);
        ReadAnswer::Bytes(count)
    }
}

/// An input over bytes in memory, for tests. A read gives at most so many bytes, and fails where
/// its number is one of those given. The reads are numbered from 1.
#[derive(Drop)]
pub struct MemInput<'a> {
    rest: &'a [u8],
    ended: bool,
    given: u64,
    faults: u64,
    most: usize,
    fails_at: &'a [u64],
    calls: u64,
}

impl<'a> Model for MemInput<'a> {
    ghost use Rattle.std.specs.Prelude.{Some, ◌<◌};
    ghost use Rattle.cli_io.specs.MemoryIo.{MemoryInput};

    ghost Value = { MemoryInput };

    ghost view = { λ s. record {
      state = record {
        faults = s.faults;
        ended = s.ended;
        left = Some s.rest.now;
        given = s.given;
      };
      calls = s.calls;
      fails_at = s.fails_at.now;
      most = s.most;
    } };

    ghost invariant = { λ s. 0 < s.most };
}

impl<'a> MemInput<'a> {
    /// Makes an input of these bytes. A read gives at most `most` bytes, which is at least 1.
    pub fn new(bytes: &'a [u8], most: usize, fails_at: &'a [u64]) -> Self
        requires { 0 < most }
        ensures { result ≡ record {
          state = record { faults = 0; ended = false; left = Some bytes.now; given = 0 };
          calls = 0;
          fails_at = fails_at.now;
          most = most;
        } }
    {
        MemInput {
            rest: bytes,
            ended: false,
            given: 0,
            faults: 0,
            most,
            fails_at,
            calls: 0,
        }
    }
}

impl<'a> Input for MemInput<'a> {
    ghost state = { λ s. s.state };

    fn read(&mut self, buf: &mut [u8]) -> ReadAnswer
        requires { 0 < length buf.old }
        ensures reads { Reads result buf.new self.old.state self.new.state }
        ensures gives { IfSome self.old.state.left
            (λ left. result ≡ memory_answer self.old left (length buf.old)) }
        ensures kept { (self.new.fails_at ≡ self.old.fails_at) × (self.new.most ≡ self.old.most) }
        ensures calls { self.new.calls ≡ next_call self.old.calls }
    {
        self.calls = self.calls.saturating_add(1);
        if is_to_fail(self.fails_at, self.calls) {
            self.faults = self.faults.saturating_add(1);
            self.ended = false;
            return ReadAnswer::Failed;
        }
        let count = self.rest.len().min(buf.len()).min(self.most);
        if count == 0 {
            self.ended = true;
            return ReadAnswer::End;
        }
        let (front, rest) = self.rest.split_at(count);
        buf[..count].copy_from_slice(front);
        self.rest = rest;
        self.ended = false;
        self.given = self.given.saturating_add(count as u64);
        ReadAnswer::Bytes(count)
    }
}
