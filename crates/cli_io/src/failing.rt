//! The calls of an input or output in memory that fail.
ghost use Rattle.std.specs.Prelude.{◌≡◌};
ghost use Rattle.cli_io.specs.MemoryIo.{is_to_fail};

/// Whether the call with this number is to fail.
pub(crate) fn is_to_fail(fails_at: &[u64], call: u64) -> bool
    ensures { result ≡ is_to_fail fails_at.now call }
{
    fails_at.contains(&call)
}
