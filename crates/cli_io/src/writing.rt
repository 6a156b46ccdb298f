//! Writing a whole text.
ghost use Rattle.cli_io.specs.WholeWriting.{WritesWhole};

use crate::output::{Output, WriteAnswer};

/// Writes the whole text, or a prefix of it where a write fails. Returns whether all was written.
pub fn write_whole<O: Output>(output: &mut O, text: &[u8]) -> bool
    ensures { WritesWhole result text.now (O.state output.old) (O.state output.new) }
{
    let mut sent = 0;
    'writing: while sent < text.len() {
        match output.write(&text[sent..]) {
            WriteAnswer::Wrote(count) => sent += count,
            WriteAnswer::Failed => return false,
        }
    }
    true
}
