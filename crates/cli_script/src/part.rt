//! Parts of shared bytes, which are not copied.
ghost use Rattle.std.specs.Prelude.{◌≡◌, ◌≤◌, ◌-◌, length, take, drop, IfOk};

use bytes::Bytes;
use std::alloc::AllocError;

/// The end of a line as a part of the bytes that begin with that line.
pub(crate) fn part_of(whole: &Bytes, line: &[u8], end: &[u8]) -> Result<Bytes, AllocError>
    requires line { line.now ≡ take (length line.now) whole.now }
    requires end { end.now ≡ drop (length line.now - length end.now) line.now }
    requires short { length end.now ≤ length line.now }
    ensures { IfOk result (λ part. part ≡ end.now) }
{
    whole.slice(line.len() - end.len()..line.len())
}
