//! Lines of a word with a text or a number.
ghost use Rattle.std.specs.Prelude.{◌≡◌, ◌++◌, OnOk, decimal};
ghost use Rattle.cli_print.specs.TextLines.{line_text, numbered_text};

use itoa::Buffer;
use web_texts::NoMemory;

pub(crate) fn put(out: &mut Vec<u8>, text: &[u8]) -> Result<(), NoMemory>
    ensures { OnOk result (out.new.items ≡ out.old.items ++ text.now) }
{
    Ok(out.extend_from_slice(text)?)
}

pub(crate) fn put_number(out: &mut Vec<u8>, number: u64) -> Result<(), NoMemory>
    ensures { OnOk result (out.new.items ≡ out.old.items ++ decimal number) }
{
    let mut buffer = Buffer::new();
    put(out, buffer.format(number).as_bytes())
}

/// A line of a word and a number.
pub(crate) fn put_numbered(out: &mut Vec<u8>, word: &[u8], number: u64) -> Result<(), NoMemory>
    ensures { OnOk result (out.new.items ≡ out.old.items ++ numbered_text word.now number) }
{
    put(out, word)?;
    put_number(out, number)?;
    put(out, b"\n")
}

/// A line of a word and a text.
pub(crate) fn put_line(out: &mut Vec<u8>, word: &[u8], text: &[u8]) -> Result<(), NoMemory>
    ensures { OnOk result (out.new.items ≡ out.old.items ++ line_text word.now text.now) }
{
    put(out, word)?;
    put(out, text)?;
    put(out, b"\n")
}
