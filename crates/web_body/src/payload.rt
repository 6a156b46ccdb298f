//! Payloads of requests.
ghost use Rattle.std.specs.Prelude.{◌≡◌};
ghost use Rattle.web_request.specs.Feed.{Next, bytes_given};
ghost use Rattle.web_body.specs.Payload.{payload_feed, GivesBytes};

use bytes::Bytes;
use web_request::{Source, Turn};

/// The body of a request that is still to be read.
#[derive(Drop)]
pub enum Payload<S> {
    /// No body, or a payload that was taken.
    None,
    /// The whole body in memory. It is one piece where it is not empty.
    Whole(Bytes),
    /// A source that gives the body piece by piece.
    Stream(S),
}

impl<S> Payload<S> {
    /// Takes the payload and leaves `None`.
    pub fn take(&mut self) -> Payload<S>
        ensures value { result ≡ self.old }
        ensures after { self.new ≡ Payload.None }
    {
        std::mem::replace(self, Payload::None)
    }

    /// Returns the payload. It stands for upstream's conversion to an inner type.
    pub fn into_inner(self) -> Payload<S>
        ensures { result ≡ self }
    {
        self
    }
}

impl<S: Source> Payload<S> {
    /// The next piece, stall, fault or end: of a stream what its source gives, of a body in memory
    /// its one piece and then the end. `NoMemory` comes only from a stream.
    // Inlined as `Held::add` is.
    #[inline(always)]
    pub fn poll_next(&mut self) -> Turn
        ensures next { Next result (payload_feed S.feed self.old) (payload_feed S.feed self.new) }
        ensures gave { GivesBytes S.feed self.old (bytes_given result) self.new }
    {
        match self {
            Payload::None => Turn::End,
            Payload::Whole(bytes) => {
                let bytes = std::mem::replace(bytes, Bytes::new());
                *self = Payload::None;
                if bytes.is_empty() {
                    Turn::End
                } else {
                    Turn::Piece(bytes)
                }
            }
            Payload::Stream(source) => source.next(),
        }
    }
}
