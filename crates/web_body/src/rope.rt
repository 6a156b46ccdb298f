//! Pieces in a row, which are joined once.
ghost use Rattle.std.specs.Prelude.{◌≡◌, ◌+◌, ◌++◌, ◌<◌, ◌^◌, [], length};
ghost use Rattle.std.specs.Prelude.{IfOk, IsTrue, OnErr, OnOk};

use bytes::{Bytes, BytesQueue};
use std::alloc::Global;
use std::marker::Model;
use web_request::NoMemory;

/// The most bytes that one buffer can have.
const MOST_BYTES: usize = 9_223_372_036_854_775_807;

/// A piece of fewer bytes than this is copied after the small pieces before it. A shared piece
/// takes some 40 bytes beside its own, so that a row takes fewer than its pieces have.
const SMALL: usize = 256;

/// Pieces in a row, as many bytes as one buffer can have. Contracts see their bytes.
///
/// A large piece is shared, and copied once, when all are joined. Small pieces are copied together
/// as they come, so that many of them do not take more memory than their bytes do.
#[derive(Drop)]
pub struct Rope {
    pieces: BytesQueue,
    /// The small pieces after the last large one.
    small: Vec<u8>,
}

impl Model for Rope {
    ghost use Rattle.std.specs.Prelude.{ℕ, ◌+◌, ◌++◌, ◌<◌, ◌^◌, List, length};

    ghost Value = { List ℕ };

    ghost view = { λ r. r.pieces ++ r.small.items };

    ghost invariant = { λ r. length r.pieces + length r.small.items < 2 ^ 63 };
}

impl Rope {
    pub fn new(alloc: Global) -> Rope
        ensures { result ≡ [] }
    {
        Rope {
            pieces: BytesQueue::new(alloc),
            small: Vec::new(alloc),
        }
    }

    pub fn len(&self) -> usize
        ensures value { result ≡ length self.now }
        ensures bound { result < 2 ^ 63 }
    {
        self.pieces.len() + self.small.len()
    }

    /// Whether there are bytes, and a small piece of this size can be appended to them.
    // Inlined as `Held::add` is.
    #[inline(always)]
    pub fn takes_small(&self, size: usize) -> bool
        ensures some { IsTrue result → 0 < length self.now }
        ensures fits { IsTrue result → length self.now + size < 2 ^ 63 }
    {
        let held = self.len();
        0 < held && held <= MOST_BYTES - SMALL && size < SMALL
    }

    /// Appends a small piece.
    // Inlined as `Held::add` is.
    #[inline(always)]
    pub fn push_small(&mut self, piece: &[u8]) -> Result<(), NoMemory>
        requires fits { length self.old + length piece.now < 2 ^ 63 }
        ensures pushed { OnOk result (self.new ≡ self.old ++ piece.now) }
        ensures kept { OnErr result (self.new ≡ self.old) }
    {
        Ok(self.small.extend_from_slice(piece)?)
    }

    /// Appends a piece.
    pub fn push(&mut self, alloc: Global, piece: Bytes) -> Result<(), NoMemory>
        ensures pushed { OnOk result (self.new ≡ self.old ++ piece) }
        ensures kept { OnErr result (self.new ≡ self.old) }
    {
        if piece.len() > MOST_BYTES - self.len() {
            return Err(NoMemory);
        }
        if piece.len() < SMALL {
            return self.push_small(piece.as_slice());
        }
        share_small(alloc, &mut self.pieces, &mut self.small)?;
        Ok(self.pieces.push(piece)?)
    }

    /// Joins the pieces.
    pub fn join(self, alloc: Global) -> Result<Bytes, NoMemory>
        ensures { IfOk result (λ bytes. bytes ≡ self) }
    {
        let Rope { mut pieces, small } = self;
        if pieces.is_empty() {
            return Ok(Bytes::from_vec(small)?);
        }
        let mut joined = Vec::with_capacity(alloc, pieces.len() + small.len())?;
        while let Some(piece) = pieces.pop() {
            joined.extend_from_slice(piece.as_slice())?;
        }
        joined.extend_from_slice(small.as_slice())?;
        Ok(Bytes::from_vec(joined)?)
    }
}

/// Puts the small pieces into the row, as one.
fn share_small(alloc: Global, pieces: &mut BytesQueue, small: &mut Vec<u8>) -> Result<(), NoMemory>
    ensures row { OnOk result (pieces.new ≡ pieces.old ++ small.old.items) }
    ensures small { OnOk result (small.new.items ≡ []) }
    ensures kept { OnErr result (pieces.new ≡ pieces.old) }
    ensures small_kept { OnErr result (small.new.items ≡ small.old.items) }
{
    if !small.is_empty() {
        let piece = Bytes::copy_from_slice(alloc, small.as_slice())?;
        pieces.push(piece)?;
        small.clear();
    }
    Ok(())
}
