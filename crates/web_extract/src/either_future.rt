//! A future of one of two kinds.
use std::alloc::Global;
use web_body::{Poll, Step};

/// A future of one of two kinds, both of which give the same type of result. Nested, it is a
/// future of one of many kinds.
#[derive(Drop)]
pub enum EitherFuture<L, R> {
    Left(L),
    Right(R),
}

impl<T: Drop, L: Poll<Output = T>, R: Poll<Output = T>> Poll for EitherFuture<L, R> {
    ghost use Rattle.web_extract.specs.EitherFutures.{EitherNeedsNoMemory, either_finished};
    ghost use Rattle.web_extract.specs.EitherFutures.{either_gives, either_some};

    type Output = T;

    ghost is_finished = { λ f. either_finished L.is_finished R.is_finished f };

    ghost gives = { λ f n x. either_gives L.gives R.gives f n x };

    ghost needs_no_memory = { λ f. EitherNeedsNoMemory L.needs_no_memory R.needs_no_memory f };

    ghost some = { λ f h. either_some L.is_finished R.is_finished L.gives R.gives
        L.some R.some f h };

    fn finished(&self) -> bool {
        match self {
            EitherFuture::Left(future) => future.finished(),
            EitherFuture::Right(future) => future.finished(),
        }
    }

    fn poll(&mut self, alloc: Global) -> Step<T> {
        match self {
            EitherFuture::Left(future) => future.poll(alloc),
            EitherFuture::Right(future) => future.poll(alloc),
        }
    }
}
