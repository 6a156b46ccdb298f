//! One connection, from its first byte to its last.
ghost use Rattle.std.specs.Prelude.{◌≡◌, ◌+◌, ◌<◌, ◌≤◌, ◌^◌, IfOk, None, length};
ghost use Rattle.web_http1.specs.Connections.{WaitsForMore, bytes_open};

use crate::additions::Additions;
use crate::fault::ServeFault;
use crate::sending::{PIECE, drop_rest, send, send_body};
use crate::settings::ServeSettings;
use std::alloc::Global;
use std::hash::RandomState;
use std::io::{Read, Write};
use std::random::RandomSource;
use std::time::Clock;
use web_http1::{Answered, Begun, Connection, Ended, FeedError};
use web_messages::HeadRoom;
use web_request::App;
use web_worker::{Service, Worker};

/// The greatest `ServeSettings::last_byte`.
const GREATEST_LAST_BYTE: u64 = 1 << 61;

/// How many bytes may come after `ServeSettings::last_byte` before the message is complete whose
/// reply is the last.
const MOST_AFTER: u64 = 67_108_864;

/// The most bytes that are taken of a connection.
fn most_taken(settings: &ServeSettings) -> u64
    ensures { result ≤ 2 ^ 62 }
{
    settings.last_byte.min(GREATEST_LAST_BYTE) + MOST_AFTER
}

/// Answers the messages that are whole, and sends each reply before it makes the next one. A client
/// that waits before it sends a body is told to go on. Returns the connection, which has ended or
/// waits for more.
fn answer_whole<C: Clock, A: App, Args, S: Service<A, Args>, W: Write>(
    alloc: Global,
    clock: &C,
    worker: &mut Worker<A>,
    service: &mut S,
    additions: &mut Additions,
    taken: u64,
    connection: Connection,
    output: &mut W,
) -> Result<Connection, ServeFault>
    requires ready { S.ready service.old }
    requires room { worker.old.made + bytes_open connection < 2 ^ 64 }
    ensures ready { S.ready service.new }
    ensures made { IfOk result (λ after. worker.new.made + bytes_open after
        ≤ worker.old.made + bytes_open connection) }
    ensures waits { IfOk result (λ after. WaitsForMore after) }
{
    let mut connection = connection;
    let mut out = Vec::new(alloc);
    'messages: loop {
        additions.set_next(alloc, clock, taken)?;
        match connection.begin_next::<A, Args, S>(
            alloc,
            worker,
            service,
            additions.reply(),
            &mut out,
        ) {
            Begun::Answered(after, Answered::Replied) => {
                send(&mut out, output)?;
                additions.count_reply();
                connection = after;
            }
            Begun::Answered(after, Answered::Waits) => {
                after.write_continue(&mut out)?;
                send(&mut out, output)?;
                return Ok(after);
            }
            Begun::Answered(after, Answered::Ended(_)) => {
                send(&mut out, output)?;
                return Ok(after);
            }
            Begun::Due(body) => {
                additions.count_reply();
                connection = send_body(alloc, body, &mut out, output)?;
            }
        }
    }
}

/// Ends a connection that takes no more bytes: refuses what is left of a message.
fn finish<C: Clock, W: Write>(
    alloc: Global,
    clock: &C,
    additions: &mut Additions,
    taken: u64,
    connection: Connection,
    output: &mut W,
) -> Result<Connection, ServeFault>
    requires waits { WaitsForMore connection }
    ensures ended { IfOk result (λ after. bytes_open after ≡ 0) }
    ensures waits { IfOk result (λ after. WaitsForMore after) }
{
    let mut connection = connection;
    let mut out = Vec::new(alloc);
    additions.set_next(alloc, clock, taken)?;
    connection.finish_with(alloc, additions.reply(), &mut out);
    send(&mut out, output)?;
    Ok(connection)
}

/// Takes a piece, and answers each message that is whole then. Where more bytes than
/// `Limits::kept` would be kept, it refuses what is left. Returns the connection, which has ended
/// or waits for more.
fn take_piece<C: Clock, A: App, Args, S: Service<A, Args>, W: Write>(
    alloc: Global,
    clock: &C,
    worker: &mut Worker<A>,
    service: &mut S,
    additions: &mut Additions,
    taken: u64,
    connection: Connection,
    piece: &[u8],
    output: &mut W,
) -> Result<Connection, ServeFault>
    requires ready { S.ready service.old }
    requires unended { connection.ended ≡ None }
    requires waits { WaitsForMore connection }
    requires room { worker.old.made + (length connection.left + length piece.now) < 2 ^ 64 }
    ensures ready { S.ready service.new }
    ensures made { IfOk result (λ after. worker.new.made + bytes_open after
        ≤ worker.old.made + (length connection.left + length piece.now)) }
    ensures waits { IfOk result (λ after. WaitsForMore after) }
{
    let mut connection = connection;
    match connection.feed(alloc, piece) {
        Ok(()) => {}
        Err(FeedError::TooMuchKept) => {
            return finish(alloc, clock, additions, taken, connection, output);
        }
        Err(FeedError::NoMemory) => return Err(ServeFault::NoMemory),
    }
    let after = answer_whole::<C, A, Args, S, W>(
        alloc, clock, worker, service, additions, taken, connection, output,
    )?;
    Ok(after)
}

/// Reads piece by piece until the connection ends: at the end of the input, after a reply that
/// closes, where it would keep more than `Limits::kept`, or after the most bytes that are taken.
fn serve_pieces<C, A, Args, S, R, W>(
    alloc: Global,
    clock: &C,
    worker: &mut Worker<A>,
    service: &mut S,
    settings: ServeSettings,
    room: HeadRoom,
    input: &mut R,
    output: &mut W,
) -> Result<Connection, ServeFault>
where
    C: Clock,
    A: App,
    S: Service<A, Args>,
    R: Read,
    W: Write,
    requires ready { S.ready service.old }
    requires room { worker.old.made ≤ 2 ^ 62 }
    ensures ready { S.ready service.new }
{
    let mut connection = Connection::with_room(alloc, settings.limits, room);
    let most = most_taken(&settings);
    let mut additions = Additions::new(settings);
    let mut buffer = [0; PIECE];
    let mut taken = 0;
    'pieces: while taken < most {
        let count = input.read(&mut buffer).map_err(ServeFault::Input)?;
        if count == 0 {
            return finish(alloc, clock, &mut additions, taken, connection, output);
        }
        taken += count as u64;
        connection = take_piece::<C, A, Args, S, W>(
            alloc,
            clock,
            worker,
            service,
            &mut additions,
            taken,
            connection,
            &buffer[..count],
            output,
        )?;
        if connection.ended().is_some() {
            return Ok(connection);
        }
    }
    finish(alloc, clock, &mut additions, taken, connection, output)
}

/// Whether the client may still send what was refused. After another reply that closes the program
/// ends at once, since the client may wait for the end.
fn may_send(connection: &Connection) -> bool {
    match connection.ended() {
        Some(Ended::Refused(_)) => true,
        Some(Ended::Closed) | Some(Ended::SourceFault) | Some(Ended::NoMemory) | None => false,
    }
}

/// Serves one connection: reads pieces, and answers each message that is whole before it reads on.
/// One reply is in memory at a time, and of a body that is not in memory one piece.
///
/// Header maps have random keys of `rt`. The worker needs room for one record. The service keeps
/// what it keeps from one message to the next: behind a front that pools connections those are of
/// several clients.
///
/// A connection ends at the end of the input, after a reply that closes, after a refusal, and where
/// more bytes than `Limits::kept` would be kept: then what is left is refused. After a refusal what
/// still comes is read and dropped, up to 64 MiB. Returns how the connection ended.
/// `Ended::SourceFault` is a reply whose body broke off: the program has to end, so that the client
/// sees that it is cut.
///
/// # Errors
///
/// Where reading, writing or memory failed. A program writes no text of its own then: where inetd
/// started it, standard error is the connection too.
pub fn serve<C, A, Args, S, R, W>(
    alloc: Global,
    rt: &C,
    worker: &mut Worker<A>,
    service: &mut S,
    settings: ServeSettings,
    input: &mut R,
    output: &mut W,
) -> Result<Ended, ServeFault>
where
    C: Clock + RandomSource,
    A: App,
    S: Service<A, Args>,
    R: Read,
    W: Write,
    requires ready { S.ready service.old }
    requires room { worker.old.made ≤ 2 ^ 62 }
    ensures ready { S.ready service.new }
{
    let keys = RandomState::new(rt).map_err(ServeFault::Input)?;
    let room = HeadRoom::with_keys(alloc, keys);
    let connection = serve_pieces::<C, A, Args, S, R, W>(
        alloc, rt, worker, service, settings, room, input, output,
    )?;
    if may_send(&connection) {
        drop_rest(input)?;
    }
    match connection.ended() {
        Some(Ended::NoMemory) | None => Err(ServeFault::NoMemory),
        Some(ended) => Ok(ended),
    }
}
