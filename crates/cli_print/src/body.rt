//! The lines of a body.
ghost use Rattle.std.specs.Prelude.{◌≡◌, ◌++◌, OnOk};
ghost use Rattle.std.specs.List.{list_all};
ghost use Rattle.web_reply.specs.ResponseBodies.{box_plain};
ghost use Rattle.cli_print.specs.BodyLines.{body_text, bytes_text, is_visible};

use crate::hexadecimal::put_hexadecimal;
use crate::lines::{put, put_line, put_numbered};
use crate::marks::put_marks;
use web_body::Marks;
use web_reply::BoxBody;
use web_texts::NoMemory;

/// How many bytes are tested at once.
const BLOCK: usize = 256;

/// Whether all bytes are visible. No byte ends the loop, so that it is compiled to vector
/// instructions: a third of the instructions of a search for the first other byte, in bodies of
/// 8 kB.
fn is_visible_block(block: &[u8]) -> bool
    ensures { result ≡ list_all is_visible block.now }
{
    let mut is_text = true;
    for byte in block {
        is_text &= 32 <= *byte && *byte <= 126;
    }
    is_text
}

/// Whether all bytes are visible, block by block.
fn is_text(body: &[u8]) -> bool
    ensures { result ≡ list_all is_visible body.now }
{
    let mut rest = body;
    'chunks: while rest.len() > BLOCK {
        let (block, more) = rest.split_at(BLOCK);
        if !is_visible_block(block) {
            return false;
        }
        rest = more;
    }
    is_visible_block(rest)
}

fn put_bytes(out: &mut Vec<u8>, body: &[u8]) -> Result<(), NoMemory>
    ensures { OnOk result (out.new.items ≡ out.old.items ++ bytes_text body.now) }
{
    if body.is_empty() {
        return put(out, b"body\n");
    }
    if is_text(body) {
        return put_line(out, b"body text ", body);
    }
    put_hexadecimal(out, b"body hex ", body)
}

/// The lines of a body: its bytes, or the marks that are left of a stream.
pub(crate) fn put_body(out: &mut Vec<u8>, body: &BoxBody<Marks>) -> Result<(), NoMemory>
    ensures { OnOk result (out.new.items
        ≡ out.old.items ++ body_text (box_plain (λ feed. feed) body.now)) }
{
    match body {
        BoxBody::Empty => put(out, b"body\n"),
        BoxBody::Bytes(bytes) => put_bytes(out, bytes.as_slice()),
        BoxBody::Sized(size, payload) => {
            put_numbered(out, b"body sized ", *size)?;
            put_marks(out, &**payload)
        }
        BoxBody::Stream(payload) => {
            put(out, b"body stream\n")?;
            put_marks(out, &**payload)
        }
    }
}
