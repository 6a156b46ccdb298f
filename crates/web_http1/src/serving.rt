//! A connection over a source.
ghost use Rattle.std.specs.Prelude.{◌≡◌, ◌+◌, ◌-◌, ◌<◌, ◌≤◌, ◌^◌, List, None, Some, false};
ghost use Rattle.std.specs.Prelude.{length, true};
ghost use Rattle.web_request.specs.Body.{ends_in_fault, piece_bytes};
ghost use Rattle.web_request.specs.declared.source.Mark.{Mark as MarkOf};
ghost use Rattle.web_worker.specs.PlanPools.{with_records};
ghost use Rattle.web_http1.specs.Connections.{open_bytes};
ghost use Rattle.web_http1.specs.ConnectionSteps.{TakesPiece};
ghost use Rattle.web_http1.specs.Serving.{AnswersAll, AnswersUpToFault, Appends, StopsAtFault};
ghost use Rattle.web_http1.specs.Serving.{UnlessLacking};

use crate::connection::Connection;
use crate::ended::Ended;
use bytes::Bytes;
use std::alloc::Global;
use web_messages::{HeadRoom, Limits};
use web_request::{App, Source, Turn};
use web_worker::{Serves, Service, Worker};

/// Takes a piece, and answers what is whole then. Returns how the connection ended, if it did.
fn take_piece<A: App, Args, S: Service<A, Args>>(
    alloc: Global,
    worker: &mut Worker<A>,
    service: &mut S,
    connection: &mut Connection,
    piece: &Bytes,
    out: &mut Vec<u8>,
) -> Option<Ended>
    requires unended { connection.old.ended ≡ None }
    requires ready { S.ready service.old }
    requires room { worker.old.made + (length connection.old.left + length piece.now) < 2 ^ 64 }
    ensures ready { S.ready service.new }
    ensures same_promises { S.same_promises service.old service.new }
    ensures made { worker.new.made + open_bytes result (length connection.new.left)
        ≤ worker.old.made + (length connection.old.left + length piece.now) }
    ensures kept { worker.new ≡ with_records worker.new.serials worker.new.made worker.old }
    ensures takes { TakesPiece (⟦<S as Serves<A, Args>>⟧.setting service.old worker.old)
        connection.old connection.new piece.now out.old.items out.new.items result }
{
    let piece = piece.as_slice();
    if connection.take(alloc, worker, service, piece, out).is_err() {
        return Some(Ended::NoMemory);
    }
    connection.ended()
}

/// Serves a connection: reads the source, and appends the reply to each message to `out`.
///
/// Each message becomes an exchange without parameters, layers of its own, connection data, request
/// data and peer, and is polled until it is answered; a stall of the source is passed over. The
/// source is read until it ends or fails, or until a reply closes the connection. Where the source
/// lacks memory for a piece, so that bytes are lost, the connection ends in `NoMemory`.
///
/// Its header maps have keys of zero, for senders that do not choose names that collide;
/// `serve_connection_with` takes keys.
pub fn serve_connection<A: App, Args, S: Service<A, Args>, I: Source>(
    alloc: Global,
    worker: &mut Worker<A>,
    service: &mut S,
    limits: Limits,
    source: &mut I,
    out: &mut Vec<u8>,
) -> Ended
    requires ready { S.ready service.old }
    requires room { worker.old.made ≤ 2 ^ 63 }
    ensures ready { S.ready service.new }
    ensures same_promises { S.same_promises service.old service.new }
    ensures whole { (marks : List MarkOf) → (I.feed source.old).marks ≡ Some marks
        → ends_in_fault marks ≡ false
        → AnswersAll (⟦<S as Serves<A, Args>>⟧.setting service.old worker.old) limits
        (piece_bytes marks) result out.old.items out.new.items }
    ensures fault { (marks : List MarkOf) → (I.feed source.old).marks ≡ Some marks
        → ends_in_fault marks ≡ true
        → AnswersUpToFault (⟦<S as Serves<A, Args>>⟧.setting service.old worker.old) limits
        (piece_bytes marks) result out.old.items out.new.items }
    ensures appends { Appends out.old.items out.new.items }
    ensures faults { StopsAtFault result (I.feed source.old).faults (I.feed source.new).faults }
    ensures lacked { UnlessLacking result
        ((I.feed source.new).lacked ≡ (I.feed source.old).lacked) }
    ensures made { worker.new.made
        ≤ worker.old.made + ((I.feed source.new).given - (I.feed source.old).given) }
    ensures kept { worker.new ≡ with_records worker.new.serials worker.new.made worker.old }
{
    let room = HeadRoom::new(alloc);
    serve_connection_with(alloc, worker, service, limits, room, source, out)
}

/// As `serve_connection`, with header maps of the keys that the room has.
pub fn serve_connection_with<A: App, Args, S: Service<A, Args>, I: Source>(
    alloc: Global,
    worker: &mut Worker<A>,
    service: &mut S,
    limits: Limits,
    room: HeadRoom,
    source: &mut I,
    out: &mut Vec<u8>,
) -> Ended
    requires ready { S.ready service.old }
    requires room { worker.old.made ≤ 2 ^ 63 }
    ensures ready { S.ready service.new }
    ensures same_promises { S.same_promises service.old service.new }
    ensures whole { (marks : List MarkOf) → (I.feed source.old).marks ≡ Some marks
        → ends_in_fault marks ≡ false
        → AnswersAll (⟦<S as Serves<A, Args>>⟧.setting service.old worker.old) limits
        (piece_bytes marks) result out.old.items out.new.items }
    ensures fault { (marks : List MarkOf) → (I.feed source.old).marks ≡ Some marks
        → ends_in_fault marks ≡ true
        → AnswersUpToFault (⟦<S as Serves<A, Args>>⟧.setting service.old worker.old) limits
        (piece_bytes marks) result out.old.items out.new.items }
    ensures appends { Appends out.old.items out.new.items }
    ensures faults { StopsAtFault result (I.feed source.old).faults (I.feed source.new).faults }
    ensures lacked { UnlessLacking result
        ((I.feed source.new).lacked ≡ (I.feed source.old).lacked) }
    ensures made { worker.new.made
        ≤ worker.old.made + ((I.feed source.new).given - (I.feed source.old).given) }
    ensures kept { worker.new ≡ with_records worker.new.serials worker.new.made worker.old }
{
    let mut connection = Connection::with_room(alloc, limits, room);
    'turns: loop {
        match source.next() {
            Turn::Piece(piece) => {
                let ended = take_piece(alloc, worker, service, &mut connection, &piece, out);
                if let Some(ended) = ended {
                    return ended;
                }
            }
            Turn::Stall => {}
            Turn::Fault => return Ended::SourceFault,
            Turn::End => return connection.finish(alloc, out),
            Turn::NoMemory => return Ended::NoMemory,
        }
    }
}
