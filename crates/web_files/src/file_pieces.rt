//! The bytes of a file, in pieces.
ghost use Rattle.std.specs.Prelude.{◌≡◌, ◌+◌, ◌<◌, ◌^◌};
ghost use Rattle.web_request.specs.Feed.{Next, bytes_given};
ghost use Rattle.web_files.specs.Pieces.{ReadsPiece, pieces_of};

use bytes::Bytes;
use std::alloc::Global;
use std::io::Read;
use std::marker::Model;
use web_request::{Source, Turn};

/// The most bytes of one piece.
const PIECE_LIMIT: u64 = 65_536;

/// So many bytes of a reader, as of an open file, in pieces of at most 65,536 bytes. Each piece is
/// read when it is asked for, into memory of its own, and is not copied.
///
/// If the reader ends before, as a file that was cut, or fails, that is a fault. What the reader
/// has beyond that number is not read.
#[derive(Drop)]
pub struct FilePieces<R: Read + Drop> {
    alloc: Global,
    reader: R,
    left: u64,
    faults: u64,
    given: u64,
    lacked: bool,
}

impl<R: Read + Drop> Model for FilePieces<R> {
    ghost use Rattle.std.specs.Prelude.{◌+◌, ◌<◌, ◌^◌, None};
    ghost use Rattle.web_files.specs.Pieces.{PiecesLeft};

    ghost Value = { PiecesLeft };

    ghost view = { λ s. record {
      feed = record {
        marks = None;
        faults = s.faults;
        stalls = 0;
        given = s.given;
        answers = s.left;
        lacked = s.lacked;
      };
      left = R.remaining s.reader;
    } };

    ghost invariant = { λ s. s.given + s.left < 2 ^ 63 };
}

impl<R: Read + Drop> FilePieces<R> {
    /// The next `count` bytes of a reader, fewer than 2^63. It reads nothing yet.
    pub fn new(alloc: Global, reader: R, count: u64) -> FilePieces<R>
        requires { count < 2 ^ 63 }
        ensures { result ≡ pieces_of count (R.remaining reader) }
    {
        FilePieces {
            alloc,
            reader,
            left: count,
            faults: 0,
            given: 0,
            lacked: false,
        }
    }

    /// The next piece, as `Source::next` gives it.
    fn read_next(&mut self) -> Turn
        ensures next { Next result self.old.feed self.new.feed }
        ensures given { self.new.feed.given ≡ self.old.feed.given + bytes_given result }
        ensures bounded { self.new.feed.given < 2 ^ 63 }
        ensures reads { ReadsPiece result self.old self.new }
    {
        if self.left == 0 {
            return Turn::End;
        }
        let most = self.left.min(PIECE_LIMIT) as usize;
        let Ok(mut piece) = vec![in self.alloc; 0; most] else {
            self.left = 0;
            self.lacked = true;
            return Turn::NoMemory;
        };
        let count = self.reader.read(piece.as_mut_slice()).unwrap_or(0);
        if count == 0 {
            self.left = 0;
            self.faults = self.faults.saturating_add(1);
            return Turn::Fault;
        }
        piece.truncate(count);
        match Bytes::from_vec(piece) {
            Ok(piece) => {
                self.left -= count as u64;
                self.given += count as u64;
                Turn::Piece(piece)
            }
            Err(_) => {
                self.left = 0;
                self.lacked = true;
                Turn::NoMemory
            }
        }
    }
}

impl<R: Read + Drop> Source for FilePieces<R> {
    ghost use Rattle.std.specs.Prelude.{◌≡◌, ◌+◌, ◌<◌, ◌^◌};
    ghost use Rattle.web_request.specs.Feed.{Next, bytes_given};
    ghost use Rattle.web_files.specs.Pieces.{ReadsPiece};

    ghost feed = { λ s. s.feed };

    fn next(&mut self) -> Turn
        ensures next { Next result self.old.feed self.new.feed }
        ensures given { self.new.feed.given ≡ self.old.feed.given + bytes_given result }
        ensures bounded { self.new.feed.given < 2 ^ 63 }
        ensures reads { ReadsPiece result self.old self.new }
    {
        self.read_next()
    }
}
