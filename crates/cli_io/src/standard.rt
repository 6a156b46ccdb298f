//! Adapters of std's readers and writers.
ghost use Rattle.std.specs.Prelude.{◌≡◌, false};
ghost use Rattle.std.specs.Io.{ReadsAtMost, WritesAtMost};
ghost use Rattle.std.specs.Io.KnownBytes.{ReadConsumes, WriteAppends};

use crate::input::{Input, ReadAnswer};
use crate::output::{Output, WriteAnswer};
use std::io;
use std::io::{ErrorKind, Read, Write};
use std::marker::Model;

/// How often a call is made before it fails where a signal interrupts it each time.
const MOST_TRIES: u32 = 1_000;

/// A reader as an input. `Ok(0)` is the end, and an error is a failure. A read that a signal
/// interrupted is tried again, up to 1,000 times in all.
///
/// The bytes that are left are those that std says the reader has left. They are known of a reader
/// over memory, as of a slice, and unknown of standard input, a file and a socket.
#[derive(Drop)]
pub struct StdInput<R: Read> {
    reader: R,
    ended: bool,
    given: u64,
    faults: u64,
}

impl<R: Read> Model for StdInput<R> {
    ghost use Rattle.cli_io.specs.IoState.{InputState};

    ghost Value = { InputState };

    ghost view = { λ s. record {
      faults = s.faults;
      ended = s.ended;
      left = R.remaining s.reader;
      given = s.given;
    } };
}

impl<R: Read> StdInput<R> {
    /// Makes an input of a reader.
    pub fn new(reader: R) -> Self
        ensures { result
            ≡ record { faults = 0; ended = false; left = R.remaining reader; given = 0 } }
    {
        StdInput {
            reader,
            ended: false,
            given: 0,
            faults: 0,
        }
    }
}

impl<R: Read> Input for StdInput<R> {
    ghost state = { λ s. s };

    fn read(&mut self, buf: &mut [u8]) -> ReadAnswer {
        match read_uninterrupted(&mut self.reader, buf) {
            Ok(0) => {
                self.ended = true;
                ReadAnswer::End
            }
            Ok(count) => {
                self.ended = false;
                self.given = self.given.saturating_add(count as u64);
                ReadAnswer::Bytes(count)
            }
            Err(_) => {
                self.ended = false;
                self.faults = self.faults.saturating_add(1);
                ReadAnswer::Failed
            }
        }
    }
}

/// One read, tried again where a signal interrupted it.
fn read_uninterrupted<R: Read>(reader: &mut R, buf: &mut [u8]) -> io::Result<usize>
    ensures bound { ReadsAtMost result buf.new }
    ensures bytes { ReadConsumes (R.remaining reader.old) (R.remaining reader.new) result buf.new }
{
    'tries: for _ in 1..MOST_TRIES {
        match reader.read(buf) {
            Ok(count) => return Ok(count),
            Err(error) => {
                if error.kind() != ErrorKind::Interrupted {
                    return Err(error);
                }
            }
        }
    }
    reader.read(buf)
}

/// A writer as an output. `Ok(0)` and an error are failures. A write that a signal interrupted is
/// tried again, up to 1,000 times in all.
///
/// The bytes that were written are those that std says the writer holds. They are known of a writer
/// into memory, as of a `Vec`, and unknown of standard output, a file and a socket.
#[derive(Drop)]
pub struct StdOutput<W: Write> {
    writer: W,
    faults: u64,
}

impl<W: Write> Model for StdOutput<W> {
    ghost use Rattle.cli_io.specs.IoState.{OutputState};

    ghost Value = { OutputState };

    ghost view = { λ s. record { faults = s.faults; written = W.contents s.writer } };
}

impl<W: Write> StdOutput<W> {
    /// Makes an output of a writer.
    pub fn new(writer: W) -> Self
        ensures { result ≡ record { faults = 0; written = W.contents writer } }
    {
        StdOutput { writer, faults: 0 }
    }
}

impl<W: Write> Output for StdOutput<W> {
    ghost state = { λ s. s };

    fn write(&mut self, bytes: &[u8]) -> WriteAnswer {
        match write_uninterrupted(&mut self.writer, bytes) {
            Ok(0) | Err(_) => {
                self.faults = self.faults.saturating_add(1);
                WriteAnswer::Failed
            }
            Ok(count) => WriteAnswer::Wrote(count),
        }
    }
}

/// One write, tried again where a signal interrupted it.
fn write_uninterrupted<W: Write>(writer: &mut W, bytes: &[u8]) -> io::Result<usize>
    ensures bound { WritesAtMost result bytes.now }
    ensures bytes { WriteAppends (W.contents writer.old) (W.contents writer.new) result bytes.now }
{
    'tries: for _ in 1..MOST_TRIES {
        match writer.write(bytes) {
            Ok(count) => return Ok(count),
            Err(error) => {
                if error.kind() != ErrorKind::Interrupted {
                    return Err(error);
                }
            }
        }
    }
    writer.write(bytes)
}
