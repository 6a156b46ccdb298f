//! Writing the text that goes with a status.
ghost use Rattle.web_cli.specs.WriteOrFault.{WritesOrFaults};

use crate::status::Status;
use cli_io::{Output, write_whole};

/// The text that is written where more bytes than the limit came.
pub(crate) const TOO_LONG: &[u8] = b"line 0: too long\n";

/// Writes the text and returns the status, or `WriteFault` where a write failed.
pub(crate) fn write_or_fault<O: Output>(output: &mut O, text: &[u8], status: Status) -> Status
    ensures { WritesOrFaults text.now status result (O.state output.old) (O.state output.new) }
{
    if write_whole(output, text) {
        status
    } else {
        Status::WriteFault
    }
}
