//! A body that is read piece by piece, by a future of one's own.
ghost use Rattle.std.specs.Prelude.{◌≡◌, false};

use std::alloc::Global;
use web_body::{Payload, PayloadError, Poll, Step};
use web_reply::Error;
use web_request::{NoMemory, Source, Text, Turn};

/// Counts the bytes of a body as they come, and keeps none of them.
#[derive(Drop)]
pub struct Counted<S> {
    payload: Payload<S>,
    count: u64,
    is_finished: bool,
}

impl<S> Counted<S> {
    /// The count of this payload, which is not polled yet.
    pub fn new(payload: Payload<S>) -> Counted<S>
        ensures { result.is_finished ≡ false }
    {
        Counted {
            payload,
            count: 0,
            is_finished: false,
        }
    }
}

/// Takes pieces up to the next stall, fault or end, or a thousand of them. Returns the number of
/// their bytes, and what came last.
fn count_pieces<S: Source>(payload: &mut Payload<S>) -> (u64, Turn) {
    let mut count = 0u64;
    for _ in 0..1_000 {
        match payload.poll_next() {
            Turn::Piece(bytes) => count = count.saturating_add(bytes.len() as u64),
            last => return (count, last),
        }
    }
    (count, Turn::Stall)
}

fn count_text(alloc: Global, count: u64) -> Result<Text, NoMemory> {
    Ok(Text::from(format!(in alloc; "{count} bytes")?))
}

impl<S: Source> Poll for Counted<S> {
    ghost use Rattle.std.specs.Prelude.{Ok, [], ⊤};

    type Output = Result<Text, Error>;

    ghost is_finished = { λ f. f.is_finished };

    ghost gives = { λ f n x. ⊤ };

    ghost some = { λ f h none. none 0 (Ok []) tt };

    fn finished(&self) -> bool {
        self.is_finished
    }

    fn poll(&mut self, alloc: Global) -> Step<Result<Text, Error>> {
        let (count, last) = count_pieces(&mut self.payload);
        self.count = self.count.saturating_add(count);
        self.is_finished = !matches!(&last, Turn::Piece(_) | Turn::Stall);
        match last {
            Turn::Piece(_) | Turn::Stall => Step::Pending,
            Turn::Fault => Step::Ready(Err(Error::from(PayloadError::Io))),
            Turn::NoMemory => Step::NoMemory,
            Turn::End => match count_text(alloc, self.count) {
                Ok(text) => Step::Ready(Ok(text)),
                Err(NoMemory) => Step::NoMemory,
            },
        }
    }
}
