//! Sources of bodies.
ghost use Rattle.std.specs.Prelude.{◌≡◌, ◌+◌, ◌<◌, ◌^◌};
ghost use Rattle.web_request.specs.Feed.{Feed, Next, bytes_given};

use bytes::Bytes;

/// One mark of a body.
#[derive(Drop)]
pub enum Mark {
    /// Bytes of the body.
    Piece(Bytes),
    /// Nothing yet: the caller must try again later.
    Stall,
    /// Reading failed. Nothing follows.
    Fault,
}

/// What a source returns.
#[derive(Drop)]
pub enum Turn {
    /// Bytes of the body, at least one.
    Piece(Bytes),
    /// Nothing yet: the caller must try again later.
    Stall,
    /// Reading failed. Nothing follows.
    Fault,
    /// The body is complete.
    End,
    /// Allocation failed, in a source that allocates. Nothing follows.
    NoMemory,
}

/// Gives the marks of one body, one at each call.
///
/// Each call that does not return `End` lowers the number of results that are still to come, so a
/// loop over a source ends. After `Fault`, `NoMemory` or `End` every call returns `End`. The pieces
/// of one source total less than 2^63 bytes.
pub trait Source: Drop {
    /// The marks that are left, where the source states them, and its counts.
    ghost feed: { Self → Feed };

    /// The next mark, or `End` where none is left.
    fn next(&mut self) -> Turn
        ensures next { Next result (feed self.old) (feed self.new) }
        ensures given { (feed self.new).given ≡ (feed self.old).given + bytes_given result }
        ensures bounded { (feed self.new).given < 2 ^ 63 };
}
