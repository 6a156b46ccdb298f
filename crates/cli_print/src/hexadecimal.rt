//! Bytes as hexadecimal digits.
ghost use Rattle.std.specs.Prelude.{◌≡◌, ◌≤◌, ◌++◌, OnOk, length};
ghost use Rattle.hex.specs.Hex.{encode_lower};
ghost use Rattle.cli_print.specs.TextLines.{line_text};

use crate::lines::put;
use hex::encode_to_slice;
use web_texts::NoMemory;

/// How many bytes are written at once.
const BLOCK: usize = 64;

/// The digits of one block.
fn put_block(out: &mut Vec<u8>, block: &[u8]) -> Result<(), NoMemory>
    requires { length block.now ≤ 64 }
    ensures { OnOk result (out.new.items ≡ out.old.items ++ encode_lower block.now) }
{
    let mut buffer = [0; 2 * BLOCK];
    let digits = &mut buffer[..2 * block.len()];
    match encode_to_slice(block, digits) {
        Ok(()) => put(out, digits),
        Err(_) => unreachable!(),
    }
}

fn put_digits(out: &mut Vec<u8>, bytes: &[u8]) -> Result<(), NoMemory>
    ensures { OnOk result (out.new.items ≡ out.old.items ++ encode_lower bytes.now) }
{
    let mut rest = bytes;
    'chunks: while rest.len() > BLOCK {
        let (block, more) = rest.split_at(BLOCK);
        put_block(out, block)?;
        rest = more;
    }
    put_block(out, rest)
}

/// A line of a word and the bytes in lower-case digits.
pub(crate) fn put_hexadecimal(out: &mut Vec<u8>, word: &[u8], bytes: &[u8]) -> Result<(), NoMemory>
    ensures { OnOk result (out.new.items
        ≡ out.old.items ++ line_text word.now (encode_lower bytes.now)) }
{
    put(out, word)?;
    put_digits(out, bytes)?;
    put(out, b"\n")
}
