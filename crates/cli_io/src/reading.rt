//! Reading a whole text under a limit.
ghost use Rattle.cli_io.specs.WholeReading.{ReadsWhole};

use crate::input::{Input, ReadAnswer};
use std::alloc::Global;
use web_texts::NoMemory;

/// The greatest length of a script, in bytes.
pub const SCRIPT_LIMIT: usize = 16_777_216;

const _: () = prove!(SCRIPT_LIMIT == 16_777_216);

/// The result of reading a whole text.
#[derive(Drop)]
pub enum ReadWhole {
    /// All bytes, at most `SCRIPT_LIMIT`. Then the input ended.
    All(Vec<u8>),
    /// More bytes than `SCRIPT_LIMIT` came, and reading stopped there.
    TooLong,
    /// A read failed before more bytes than `SCRIPT_LIMIT` came.
    Failed,
}

/// Reads to the end of the input, or until a read fails or more bytes than `SCRIPT_LIMIT` came.
///
/// Returns `NoMemory` where an allocation failed. No read has failed then.
pub fn read_whole<I: Input>(alloc: Global, input: &mut I) -> Result<ReadWhole, NoMemory>
    ensures { ReadsWhole result (I.state input.old) (I.state input.new) }
{
    let mut bytes = Vec::new(alloc);
    let mut buf = [0u8; 65536];
    'reading: while bytes.len() <= SCRIPT_LIMIT {
        match input.read(&mut buf) {
            ReadAnswer::Bytes(count) => bytes.extend_from_slice(&buf[..count])?,
            ReadAnswer::End => return Ok(ReadWhole::All(bytes)),
            ReadAnswer::Failed => return Ok(ReadWhole::Failed),
        }
    }
    Ok(ReadWhole::TooLong)
}
