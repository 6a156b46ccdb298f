//! Bodies of responses.
ghost use Rattle.std.specs.Prelude.{◌≡◌, IfOk, IsOk, ⊤};
ghost use Rattle.web_reply.specs.ResponseBodies.{Plain, box_plain, size_of};

use bytes::Bytes;
use std::alloc::Global;
use web_body::Payload;
use web_request::Source;
use web_texts::{Duplicate, NoMemory};

/// What is known of a body's length before it is sent.
#[derive(Clone, Copy, Debug, PartialEq, Eq)]
pub enum BodySize {
    /// No body, and no length to state. No body of this crate has this size.
    None,
    /// A body of this many bytes.
    Sized(u64),
    /// A body of unknown length.
    Stream,
}

/// A body in memory.
#[derive(Drop)]
pub enum WholeBody {
    Empty,
    Bytes(Bytes),
}

/// The common form of every body: bytes in memory, or a payload that is still to be read. A payload
/// is in a `Box`, so that a response without one stays small.
#[derive(Drop)]
pub enum BoxBody<S> {
    Empty,
    Bytes(Bytes),
    /// A payload of a declared length, in bytes.
    Sized(u64, Box<Payload<S>>),
    /// A payload of unknown length.
    Stream(Box<Payload<S>>),
}

/// A body of one of two types.
#[derive(Drop)]
pub enum EitherBody<L, R> {
    Left(L),
    Right(R),
}

/// A type of bodies of responses. The payloads of its bodies are read from sources of type `S`.
pub trait MessageBody<S: Source>: Sized + Drop {
    /// The body as a plain value, with the marks of its payload where the source states them.
    ghost plain: { Self → Plain };

    /// The bodies that `boxed` converts without allocating.
    ghost needs_no_memory: { Self → Type 0 } = { λ _. ⊥ };

    /// What is known of its length. An empty body has the length 0.
    fn size(&self) -> BodySize
        ensures { result ≡ size_of (plain self.now) };

    /// The same body in the common form. No byte of it is copied.
    fn boxed(self, alloc: Global) -> Result<BoxBody<S>, NoMemory>
        ensures value { IfOk result (λ body. box_plain S.feed body ≡ plain self) }
        ensures memory { needs_no_memory self → IsOk result };
}

impl Duplicate for WholeBody {
    fn duplicate(&self, _alloc: Global) -> Result<WholeBody, NoMemory> {
        Ok(match self {
            WholeBody::Empty => WholeBody::Empty,
            WholeBody::Bytes(bytes) => WholeBody::Bytes(bytes.clone()?),
        })
    }
}

impl<S: Source> MessageBody<S> for () {
    ghost use Rattle.web_reply.specs.ResponseBodies.{Plain.Empty as empty};

    ghost plain = { λ _. empty };

    ghost needs_no_memory = { λ _. ⊤ };

    fn size(&self) -> BodySize {
        BodySize::Sized(0)
    }

    fn boxed(self, _alloc: Global) -> Result<BoxBody<S>, NoMemory>
        ensures value { IfOk result (λ body. box_plain S.feed body ≡ empty) }
        ensures memory { IsOk result }
    {
        Ok(BoxBody::Empty)
    }
}

impl<S: Source> MessageBody<S> for WholeBody {
    ghost use Rattle.web_reply.specs.ResponseBodies.{whole_plain};

    ghost plain = { whole_plain };

    ghost needs_no_memory = { λ _. ⊤ };

    fn size(&self) -> BodySize {
        match self {
            WholeBody::Empty => BodySize::Sized(0),
            WholeBody::Bytes(bytes) => BodySize::Sized(bytes.len() as u64),
        }
    }

    fn boxed(self, _alloc: Global) -> Result<BoxBody<S>, NoMemory>
        ensures value { IfOk result (λ body. box_plain S.feed body ≡ whole_plain self) }
        ensures memory { IsOk result }
    {
        Ok(match self {
            WholeBody::Empty => BoxBody::Empty,
            WholeBody::Bytes(bytes) => BoxBody::Bytes(bytes),
        })
    }
}

impl<S: Source> MessageBody<S> for BoxBody<S> {
    ghost plain = { λ body. box_plain S.feed body };

    ghost needs_no_memory = { λ _. ⊤ };

    fn size(&self) -> BodySize {
        match self {
            BoxBody::Empty => BodySize::Sized(0),
            BoxBody::Bytes(bytes) => BodySize::Sized(bytes.len() as u64),
            BoxBody::Sized(size, _) => BodySize::Sized(*size),
            BoxBody::Stream(_) => BodySize::Stream,
        }
    }

    fn boxed(self, _alloc: Global) -> Result<BoxBody<S>, NoMemory>
        ensures value { IfOk result (λ body. body ≡ self) }
        ensures memory { IsOk result }
    {
        Ok(self)
    }
}

impl<S: Source, L: MessageBody<S>, R: MessageBody<S>> MessageBody<S> for EitherBody<L, R> {
    ghost use Rattle.web_reply.specs.ResponseBodies.{OnEither, either_plain};

    ghost plain = { λ body. either_plain L.plain R.plain body };

    ghost needs_no_memory = { λ body. OnEither L.needs_no_memory R.needs_no_memory body };

    fn size(&self) -> BodySize {
        match self {
            EitherBody::Left(body) => body.size(),
            EitherBody::Right(body) => body.size(),
        }
    }

    fn boxed(self, alloc: Global) -> Result<BoxBody<S>, NoMemory> {
        match self {
            EitherBody::Left(body) => body.boxed(alloc),
            EitherBody::Right(body) => body.boxed(alloc),
        }
    }
}
