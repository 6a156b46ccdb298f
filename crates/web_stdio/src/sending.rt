//! What is sent of a reply, and what is dropped of what still comes.
ghost use Rattle.std.specs.Prelude.{◌≡◌, ◌≤◌, [], IfOk, OnOk};
ghost use Rattle.web_http1.specs.Connections.{bytes_open};

use crate::fault::ServeFault;
use std::alloc::Global;
use std::io::{Read, Write};
use web_http1::{BodyWritten, Connection, DueBody};
use web_request::Source;

/// How many bytes are read at once.
pub(crate) const PIECE: usize = 16_384;

/// The most bytes that are read and dropped after a refusal.
const MOST_DROPPED: u64 = 67_108_864;

/// Writes what is there, so that the client has it before it sends more, and empties it.
pub(crate) fn send<W: Write>(out: &mut Vec<u8>, output: &mut W) -> Result<(), ServeFault>
    ensures { OnOk result (out.new.items ≡ []) }
{
    if out.is_empty() {
        return Ok(());
    }
    output
        .write_all(out.as_slice())
        .map_err(ServeFault::Output)?;
    output.flush().map_err(ServeFault::Output)?;
    out.clear();
    Ok(())
}

/// Sends what is written of a reply together with the first piece of its body, and then the others
/// one by one. Returns the connection after the body: ended, where the body broke off.
pub(crate) fn send_body<S: Source, W: Write>(
    alloc: Global,
    body: DueBody<S>,
    out: &mut Vec<u8>,
    output: &mut W,
) -> Result<Connection, ServeFault>
    ensures left { IfOk result (λ connection. connection.left ≡ body.connection.left) }
    ensures open { IfOk result (λ connection.
        bytes_open connection ≤ bytes_open body.connection) }
{
    let mut body = body;
    'pieces: loop {
        let written = body.write_next(alloc, out);
        send(out, output)?;
        match written {
            BodyWritten::Piece | BodyWritten::Pending => {}
            BodyWritten::Done | BodyWritten::Broken => return Ok(body.into_connection()),
            BodyWritten::NoMemory => return Err(ServeFault::NoMemory),
        }
    }
}

/// Reads what a client still sends after a refusal, and drops it: a connection that is closed while
/// bytes come is reset, and the client loses the reply (RFC 7230, section 6.6).
pub(crate) fn drop_rest<R: Read>(input: &mut R) -> Result<(), ServeFault> {
    let mut buffer = [0; PIECE];
    let mut dropped = 0;
    'pieces: while dropped < MOST_DROPPED {
        let count = input.read(&mut buffer).map_err(ServeFault::Input)?;
        if count == 0 {
            break;
        }
        dropped += count as u64;
    }
    Ok(())
}
