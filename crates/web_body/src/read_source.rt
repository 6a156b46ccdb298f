//! Bodies that a reader gives.
ghost use Rattle.std.specs.Prelude.{◌≡◌, ◌+◌, ◌<◌, ◌^◌};
ghost use Rattle.web_request.specs.Feed.{Next, bytes_given};
ghost use Rattle.web_request.specs.declared.source.Turn.TheVariants as turn;
ghost use Rattle.web_body.specs.ReaderBodies.{Reads, reader_body};

use bytes::Bytes;
use std::alloc::Global;
use std::io::Read;
use std::marker::Model;
use web_request::{Source, Turn};

/// The most bytes of one piece.
const PIECE_LIMIT: usize = 8_192;

/// A body that a reader gives, as a socket, a file or a pipe, in pieces of at most 8,192 bytes.
///
/// Each turn is one call of the reader. `Ok(0)` is the end of the body, and an error is a fault,
/// also that of a read which was interrupted. A source has a budget of turns: where none is left
/// before the end came, it fails too, so a body that was cut short is never taken as whole. Each
/// piece is copied into memory of its own; `NoMemory` comes where there is none for it. It never
/// stalls.
///
/// How a reader cuts its bytes is not known before, so the marks are not stated. Of a reader whose
/// bytes are known, as a slice, contracts say that each piece is the next of them, and that the
/// end comes where none is left. The count of faults stops at the greatest `u64`.
#[derive(Drop)]
pub struct ReadSource<R: Read + Drop> {
    alloc: Global,
    reader: R,
    turns: u64,
    is_over: bool,
    faults: u64,
    given: u64,
    lacked: bool,
}

impl<R: Read + Drop> Model for ReadSource<R> {
    ghost use Rattle.std.specs.Prelude.{◌+◌, ◌*◌, ◌<◌, ◌^◌, None};
    ghost use Rattle.web_body.specs.ReaderBodies.{ReaderBody, answers_left};

    ghost Value = { ReaderBody };

    ghost view = { λ s. record {
      feed = record {
        marks = None;
        faults = s.faults;
        stalls = 0;
        given = s.given;
        answers = answers_left s.is_over s.turns;
        lacked = s.lacked;
      };
      left = R.remaining s.reader;
    } };

    ghost invariant = { λ s. s.given + s.turns * 8192 < 2 ^ 63 };
}

impl<R: Read + Drop> ReadSource<R> {
    /// Makes a body of a reader, with a budget of fewer than 2^50 turns. It reads nothing yet.
    pub fn new(alloc: Global, reader: R, turns: u64) -> ReadSource<R>
        requires { turns < 2 ^ 50 }
        ensures { result ≡ reader_body turns (R.remaining reader) }
    {
        ReadSource {
            alloc,
            reader,
            turns,
            is_over: false,
            faults: 0,
            given: 0,
            lacked: false,
        }
    }

    /// The next result of the body, as `Source::next` gives it: one call of the reader, where a
    /// turn is left and the body is not over. Where no turn is left, it is a fault, and the reader
    /// is not called.
    pub fn read_next(&mut self) -> Turn
        ensures next { Next result self.old.feed self.new.feed }
        ensures given { self.new.feed.given ≡ self.old.feed.given + bytes_given result }
        ensures bounded { self.new.feed.given < 2 ^ 63 }
        ensures budget { self.old.feed.answers ≡ 1 → result ≡ turn.Fault }
        ensures reads { Reads result self.old self.new }
    {
        if self.is_over {
            return Turn::End;
        }
        let mut buffer = [0; PIECE_LIMIT];
        let read = if self.turns == 0 {
            None
        } else {
            self.turns -= 1;
            self.reader.read(&mut buffer).ok()
        };
        match read {
            Some(0) => {
                self.is_over = true;
                Turn::End
            }
            Some(count) => match Bytes::copy_from_slice(self.alloc, &buffer[..count]) {
                Ok(piece) => {
                    self.given += count as u64;
                    Turn::Piece(piece)
                }
                Err(_) => {
                    self.is_over = true;
                    self.lacked = true;
                    Turn::NoMemory
                }
            },
            None => {
                self.is_over = true;
                self.faults = self.faults.saturating_add(1);
                Turn::Fault
            }
        }
    }
}

impl<R: Read + Drop> Source for ReadSource<R> {
    ghost use Rattle.std.specs.Prelude.{◌≡◌, ◌+◌, ◌<◌, ◌^◌};
    ghost use Rattle.web_request.specs.Feed.{Next, bytes_given};
    ghost use Rattle.web_request.specs.declared.source.Turn.TheVariants as turn;
    ghost use Rattle.web_body.specs.ReaderBodies.{Reads};

    ghost feed = { λ s. s.feed };

    fn next(&mut self) -> Turn
        ensures next { Next result self.old.feed self.new.feed }
        ensures given { self.new.feed.given ≡ self.old.feed.given + bytes_given result }
        ensures bounded { self.new.feed.given < 2 ^ 63 }
        ensures budget { self.old.feed.answers ≡ 1 → result ≡ turn.Fault }
        ensures reads { Reads result self.old self.new }
    {
        self.read_next()
    }
}
