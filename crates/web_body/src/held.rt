//! The bytes that a collector holds.
ghost use Rattle.std.specs.Prelude.{◌≡◌, ◌++◌, ◌<◌, ◌^◌, [], length, OnOk, OnErr, IfOk};
ghost use Rattle.web_body.specs.HeldBytes.{held_bytes, IsCopied};

use crate::rope::Rope;
use bytes::Bytes;
use std::alloc::Global;
use std::mem;
use web_request::NoMemory;

/// The bytes that a collector holds: the first piece as it came, or several pieces, which are
/// joined when they are taken. So a body of one piece is not copied.
#[derive(Drop)]
pub enum Held {
    /// A single piece, or no bytes.
    One(Bytes),
    /// Several pieces.
    Many(Rope),
}

impl Held {
    pub fn new() -> Held
        ensures { held_bytes result ≡ [] }
    {
        Held::One(Bytes::new())
    }

    pub fn len(&self) -> usize
        ensures value { result ≡ length (held_bytes self.now) }
        ensures bound { result < 2 ^ 63 }
    {
        match self {
            Held::One(bytes) => bytes.len(),
            Held::Many(pieces) => pieces.len(),
        }
    }

    /// Appends a piece. It allocates only where bytes are held already.
    // All that a small piece after others goes through is inlined into the loop that collects:
    // collecting a piece of one byte takes 131 instructions so, and 303 by calls.
    #[inline(always)]
    pub fn add(&mut self, alloc: Global, piece: Bytes) -> Result<(), NoMemory>
        ensures added { OnOk result (held_bytes self.new ≡ held_bytes self.old ++ piece) }
        ensures kept { OnErr result (held_bytes self.new ≡ held_bytes self.old) }
        ensures memory { OnErr result (0 < length (held_bytes self.old)) }
        ensures single { OnOk result
            (held_bytes self.old ≡ [] → IsCopied self.new → ⊥) }
    {
        if let Held::Many(pieces) = self {
            if pieces.takes_small(piece.len()) {
                return pieces.push_small(piece.as_slice());
            }
        }
        self.add_any(alloc, piece)
    }

    /// The same, of any piece.
    #[inline(never)]
    fn add_any(&mut self, alloc: Global, piece: Bytes) -> Result<(), NoMemory>
        ensures added { OnOk result (held_bytes self.new ≡ held_bytes self.old ++ piece) }
        ensures kept { OnErr result (held_bytes self.new ≡ held_bytes self.old) }
        ensures memory { OnErr result (0 < length (held_bytes self.old)) }
        ensures single { OnOk result
            (held_bytes self.old ≡ [] → IsCopied self.new → ⊥) }
    {
        if self.len() == 0 {
            *self = Held::One(piece);
            return Ok(());
        }
        match self {
            Held::One(first) => {
                let both = two_pieces(alloc, first, piece)?;
                *self = Held::Many(both);
                Ok(())
            }
            Held::Many(pieces) => pieces.push(alloc, piece),
        }
    }

    /// Takes all bytes and leaves none. It allocates only where several pieces are held.
    pub fn take(&mut self, alloc: Global) -> Result<Bytes, NoMemory>
        ensures all { IfOk result (λ bytes. bytes ≡ held_bytes self.old) }
        ensures after { held_bytes self.new ≡ [] }
        ensures memory { OnErr result (IsCopied self.old) }
    {
        match mem::replace(self, Held::new()) {
            Held::One(bytes) => Ok(bytes),
            Held::Many(pieces) => {
                if pieces.len() == 0 {
                    return Ok(Bytes::new());
                }
                pieces.join(alloc)
            }
        }
    }
}

fn two_pieces(alloc: Global, first: &Bytes, second: Bytes) -> Result<Rope, NoMemory>
    ensures { IfOk result (λ both. both ≡ first.now ++ second) }
{
    let mut both = Rope::new(alloc);
    both.push(alloc, first.clone()?)?;
    both.push(alloc, second)?;
    Ok(both)
}
