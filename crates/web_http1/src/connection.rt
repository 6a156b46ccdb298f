//! A connection whose bytes come in pieces.
ghost use Rattle.std.specs.Prelude.{◌≡◌, ◌+◌, ◌++◌, ◌<◌, ◌≤◌, ◌^◌, OnErr, OnOk, Some, length};
ghost use Rattle.web_worker.specs.PlanPools.{with_records};
ghost use Rattle.web_http1.specs.BegunReplies.{AddsNothing};
ghost use Rattle.web_http1.specs.BegunAnswers.{AllHaveTheirLength, BeginsNext, BegunSteps};
ghost use Rattle.web_http1.specs.BegunAnswers.{BegunWaits, after_begun};
ghost use Rattle.web_http1.specs.BegunAnswers.{BeginsOne, IsInside, TurnsTo, WaitsAfter};
ghost use Rattle.web_http1.specs.BegunAnswers.{after_reply, answered_after, begun_left};
ghost use Rattle.web_http1.specs.BegunAnswers.{end_after, moved};
ghost use Rattle.web_http1.specs.ConnectionSteps.{WaitsBehind, with_piece};
ghost use Rattle.web_http1.specs.DueBodies.{cut};
ghost use Rattle.web_http1.specs.Connections.{Finishes, IsOwnEnd, StepsFrom, StepsTo};
ghost use Rattle.web_http1.specs.Connections.{WaitsForMore, bytes_open, ended_at, open_at};
ghost use Rattle.web_http1.specs.Expecting.{AwaitsContinue, Continues};
ghost use Rattle.web_http1.specs.Keeping.{KeepsFew};
ghost use Rattle.web_http1.specs.InPlace.{KeepsRest};
ghost use Rattle.web_http1.specs.OneAnswer.{IsAnswered, Waits, WaitsWhere};
ghost use Rattle.web_http1.specs.RefusalReplies.{FinishesWhere};

use crate::answered::Answered;
use crate::answering::{Left, Rooms, Turned, answer_rest, finish_rest, serve_next};
use crate::beginning::{BegunReply, BegunTurn, begin_step};
use crate::begun::Begun;
use crate::due_body::DueBody;
use crate::ended::Ended;
use crate::expecting::{awaits_continue, put_continue};
use crate::feed_error::FeedError;
use crate::refusing::finish_rest_as;
use crate::settings::ReplySettings;
use std::alloc::Global;
use std::marker::Model;
use std::mem;
use web_messages::{HeadRoom, Limits, Progress};
use web_request::App;
use web_texts::NoMemory;
use web_worker::{Serves, Service, Worker};

/// Puts a value in the place of another.
fn put_in<T: Drop>(place: &mut T, value: T)
    ensures { place.new ≡ value }
{
    *place = value;
}

/// How a connection ends after a reply.
fn end_after(closes: bool) -> Option<Ended>
    ensures { result ≡ end_after closes }
{
    if closes {
        return Some(Ended::Closed);
    }
    None
}

/// What a whole reply came to.
fn answered_after(closes: bool) -> Answered
    ensures { result ≡ answered_after closes }
{
    if closes {
        return Answered::Ended(Ended::Closed);
    }
    Answered::Replied
}

/// A connection of HTTP/1.1 (RFC 7230), whose bytes come in pieces.
///
/// `feed` takes a piece, and `answer` writes the reply to each message that is whole then. Where no
/// byte follows, `finish` writes what is due for the bytes that are left.
#[derive(Drop)]
pub struct Connection {
    limits: Limits,
    buffer: Vec<u8>,
    /// The bytes before this place were answered, or are no more needed.
    start: usize,
    /// How far those after it were read.
    progress: Progress,
    ended: Option<Ended>,
    rooms: Rooms,
}

impl Model for Connection {
    ghost use Rattle.std.specs.Prelude.{◌≤◌, drop, length};
    ghost use Rattle.web_messages.specs.Progress.{IsProgress};
    ghost use Rattle.web_http1.specs.Connections.{ConnectionView};

    ghost Value = { ConnectionView };

    ghost view = { λ c. record {
      limits = c.limits;
      left = drop c.start c.buffer.items;
      ended = c.ended;
    } };

    ghost invariant = { λ c. (c.start ≤ length c.buffer.items)
        × IsProgress c.limits (drop c.start c.buffer.items) c.progress };
}

impl Connection {
    ghost use Rattle.std.specs.Prelude.{◌≡◌, ◌+◌, ◌++◌, ◌<◌, ◌≤◌, ◌^◌, [], IfOk, None, OnErr};
    ghost use Rattle.std.specs.Prelude.{◌⊎◌, ◌↔◌, IsErrOf, OnOk, Some, false, length, true};
    ghost use Rattle.web_messages.specs.Progress.{HasFewBlank};

    /// A connection of which no byte came. Its header maps have keys of zero, for senders that do
    /// not choose names that collide.
    pub fn new(alloc: Global, limits: Limits) -> Connection
        ensures { result ≡ record { limits = limits; left = []; ended = None } }
    {
        Connection::with_room(alloc, limits, HeadRoom::new(alloc))
    }

    /// The same, with header maps of the keys that the room has.
    pub fn with_room(alloc: Global, limits: Limits, room: HeadRoom) -> Connection
        ensures { result ≡ record { limits = limits; left = []; ended = None } }
    {
        Connection {
            limits,
            buffer: Vec::new(alloc),
            start: 0,
            progress: Progress::start(),
            ended: None,
            rooms: Rooms {
                head: room,
                reply: Vec::new(alloc),
            },
        }
    }

    /// How it ended, if it did. Nothing is written from then on.
    pub fn ended(&self) -> Option<Ended>
        ensures { result ≡ self.now.ended }
    {
        self.ended
    }

    /// How many bytes are kept: those that came after the last message that was answered. Of empty
    /// lines alone they are no more than a head may have, and of chunks no more than a head and a
    /// body of the greatest size, a sixteenth of this size, and 20,738 bytes: the lines of chunks
    /// that were read are dropped, so that they may be fewer bytes than came. A loop may end a
    /// connection that keeps too many by `finish`.
    pub fn kept(&self) -> usize
        ensures { result ≡ length self.now.left }
    {
        self.buffer.len() - self.start
    }

    /// Drops the bytes that are no more needed, where they are at least half of all.
    fn drop_answered(&mut self, alloc: Global) -> Result<(), NoMemory>
        ensures { self.new ≡ self.old }
    {
        if self.start == 0 {
            return Ok(());
        }
        if self.start == self.buffer.len() {
            self.buffer.clear();
            self.start = 0;
            return Ok(());
        }
        if self.start < self.buffer.len() - self.start {
            return Ok(());
        }
        let left = Vec::from_slice(alloc, &self.buffer[self.start..])?;
        self.buffer = left;
        self.start = 0;
        Ok(())
    }

    /// Whether so many bytes can be kept besides, by `Limits::kept`.
    fn has_room(&self, more: usize) -> bool
        ensures fits { result ≡ true → length self.now.left + more ≤ self.now.limits.kept }
        ensures full { result ≡ false → self.now.limits.kept < length self.now.left + more }
    {
        let kept = self.kept();
        if kept > self.limits.kept {
            return false;
        }
        more <= self.limits.kept - kept
    }

    /// Takes the next bytes of the connection.
    ///
    /// # Errors
    ///
    /// `TooMuchKept` where more bytes than `Limits::kept` would be kept then, and only there: a
    /// loop may end the connection by `finish`. `NoMemory` where an allocation failed. Nothing
    /// was taken then.
    pub fn feed(&mut self, alloc: Global, piece: &[u8]) -> Result<(), FeedError>
        ensures ok { OnOk result (self.new ≡ record {
          limits = self.old.limits;
          left = self.old.left ++ piece.now;
          ended = self.old.ended;
        }) }
        ensures err { OnErr result (self.new ≡ self.old) }
        ensures kept { OnOk result
            (length self.old.left + length piece.now ≤ self.old.limits.kept) }
        ensures too_much { IsErrOf result FeedError.TooMuchKept
            ↔ (self.old.limits.kept < length self.old.left + length piece.now) }
    {
        if !self.has_room(piece.len()) {
            return Err(FeedError::TooMuchKept);
        }
        match self.add_bytes(alloc, piece) {
            Ok(()) => Ok(()),
            Err(NoMemory) => Err(FeedError::NoMemory),
        }
    }

    /// Adds bytes to those that are left. Where an allocation fails, nothing was added.
    fn add_bytes(&mut self, alloc: Global, piece: &[u8]) -> Result<(), NoMemory>
        ensures ok { OnOk result (self.new ≡ record {
          limits = self.old.limits;
          left = self.old.left ++ piece.now;
          ended = self.old.ended;
        }) }
        ensures err { OnErr result (self.new ≡ self.old) }
    {
        self.drop_answered(alloc)?;
        Ok(self.buffer.extend_from_slice(piece)?)
    }

    /// Writes the reply to each message that is whole, in their order, and the reply of a refusal
    /// that no byte that follows can lift; that of a head once its empty line is there, or as many
    /// bytes as it may have. It ends after a reply that closes, and after a refusal. Where an
    /// allocation failed it ends too, with `Ended::NoMemory`. Of empty lines before a head no more
    /// are kept than a head may have.
    pub fn answer<A: App, Args, S: Service<A, Args>>(
        &mut self,
        alloc: Global,
        worker: &mut Worker<A>,
        service: &mut S,
        out: &mut Vec<u8>,
    )
        requires ready { S.ready service.old }
        requires room { worker.old.made + bytes_open self.old < 2 ^ 64 }
        ensures ready { S.ready service.new }
        ensures same_promises { S.same_promises service.old service.new }
        ensures made { worker.new.made + bytes_open self.new
            ≤ worker.old.made + bytes_open self.old }
        ensures kept { worker.new ≡ with_records worker.new.serials worker.new.made worker.old }
        ensures limits { self.new.limits ≡ self.old.limits }
        ensures waits { WaitsForMore self.new }
        ensures few { self.new.ended ≡ None → HasFewBlank self.new.limits self.new.left }
        ensures keeps { self.new.ended ≡ None → KeepsFew self.new.limits self.new.left }
        ensures own { self.old.ended ≡ None → IsOwnEnd self.new.ended }
        ensures steps { StepsFrom (⟦<S as Serves<A, Args>>⟧.setting service.old worker.old)
            self.old self.new out.old.items out.new.items }
    {
        if self.ended.is_some() {
            return;
        }
        let progress = mem::replace(&mut self.progress, Progress::start());
        let answered = answer_rest(
            alloc,
            worker,
            service,
            &self.limits,
            self.buffer.as_slice(),
            self.start,
            progress,
            &mut self.rooms,
            out,
        );
        self.start = answered.place;
        match answered.left {
            Left::Open(progress) => {
                self.wait(alloc, 0, progress);
            }
            Left::Ended(ended) => self.ended = Some(ended),
        }
    }

    /// Takes the next bytes and answers what is whole then: `feed`, and `answer` after it. Where
    /// nothing is kept, the bytes are answered where they stand, and only those are copied that are
    /// kept then; so a piece with all of a connection is not copied.
    ///
    /// # Errors
    ///
    /// As of `feed`: nothing was taken and written then. Where an allocation fails later, the
    /// connection ends in `Ended::NoMemory`, as by `answer`.
    pub fn take<A: App, Args, S: Service<A, Args>>(
        &mut self,
        alloc: Global,
        worker: &mut Worker<A>,
        service: &mut S,
        piece: &[u8],
        out: &mut Vec<u8>,
    ) -> Result<(), FeedError>
        requires ready { S.ready service.old }
        requires room { worker.old.made + bytes_open (with_piece self.old piece.now) < 2 ^ 64 }
        ensures ready { S.ready service.new }
        ensures same_promises { S.same_promises service.old service.new }
        ensures made { OnOk result (worker.new.made + bytes_open self.new
            ≤ worker.old.made + bytes_open (with_piece self.old piece.now)) }
        ensures kept { worker.new ≡ with_records worker.new.serials worker.new.made worker.old }
        ensures limits { self.new.limits ≡ self.old.limits }
        ensures too_much { IsErrOf result FeedError.TooMuchKept
            ↔ (self.old.limits.kept < length self.old.left + length piece.now) }
        ensures err { OnErr result ((self.new ≡ self.old) × (worker.new ≡ worker.old)
            × (service.new ≡ service.old) × (out.new.items ≡ out.old.items)) }
        ensures waits { OnOk result (WaitsForMore self.new) }
        ensures few { OnOk result
            (self.new.ended ≡ None → HasFewBlank self.new.limits self.new.left) }
        ensures keeps { OnOk result
            (self.new.ended ≡ None → KeepsFew self.new.limits self.new.left) }
        ensures own { OnOk result (self.old.ended ≡ None → IsOwnEnd self.new.ended) }
        ensures steps { OnOk result
            (StepsFrom (⟦<S as Serves<A, Args>>⟧.setting service.old worker.old)
            (with_piece self.old piece.now) self.new out.old.items out.new.items) }
    {
        if !self.has_room(piece.len()) {
            return Err(FeedError::TooMuchKept);
        }
        if self.is_fresh() {
            self.answer_in_place(alloc, worker, service, piece, out);
            return Ok(());
        }
        match self.add_bytes(alloc, piece) {
            Ok(()) => {
                self.answer(alloc, worker, service, out);
                Ok(())
            }
            Err(NoMemory) => Err(FeedError::NoMemory),
        }
    }

    /// Whether it did not end, and nothing is kept.
    fn is_fresh(&self) -> bool
        ensures { result ≡ true → (self.now.ended ≡ None) × (self.now.left ≡ []) }
    {
        if self.ended.is_some() {
            return false;
        }
        self.start == self.buffer.len()
    }

    /// Answers the messages of a piece where it stands, and keeps what is left of it.
    fn answer_in_place<A: App, Args, S: Service<A, Args>>(
        &mut self,
        alloc: Global,
        worker: &mut Worker<A>,
        service: &mut S,
        piece: &[u8],
        out: &mut Vec<u8>,
    )
        requires unended { self.old.ended ≡ None }
        requires empty { self.old.left ≡ [] }
        requires ready { S.ready service.old }
        requires room { worker.old.made + length piece.now < 2 ^ 64 }
        ensures ready { S.ready service.new }
        ensures same_promises { S.same_promises service.old service.new }
        ensures made { worker.new.made + bytes_open self.new ≤ worker.old.made + length piece.now }
        ensures kept { worker.new ≡ with_records worker.new.serials worker.new.made worker.old }
        ensures limits { self.new.limits ≡ self.old.limits }
        ensures waits { self.new.ended ≡ None → Waits self.new }
        ensures own { IsOwnEnd self.new.ended }
        ensures steps { StepsTo (⟦<S as Serves<A, Args>>⟧.setting service.old worker.old)
            (open_at self.old.limits piece.now) self.new out.old.items out.new.items }
    {
        let answered = answer_rest(
            alloc,
            worker,
            service,
            &self.limits,
            piece,
            0,
            Progress::start(),
            &mut self.rooms,
            out,
        );
        let place = answered.place;
        match answered.left {
            Left::Open(progress) => {
                self.keep(alloc, &piece[place..], progress);
            }
            Left::Ended(ended) => self.end(ended),
        }
    }

    /// Keeps these bytes, of which so much was read, where nothing is kept, and waits for more.
    fn keep(&mut self, alloc: Global, rest: &[u8], progress: Progress) -> Answered
        requires unended { self.old.ended ≡ None }
        requires empty { self.old.left ≡ [] }
        requires behind { WaitsBehind self.old.limits rest.now (Turned.Waits 0 progress) }
        ensures { KeepsRest self.old.limits rest.now self.new result }
    {
        match self.add_bytes(alloc, rest) {
            Ok(()) => self.wait(alloc, 0, progress),
            Err(NoMemory) => {
                self.end(Ended::NoMemory);
                Answered::Ended(Ended::NoMemory)
            }
        }
    }

    /// Writes the reply to the next message, where it is whole, or the reply of a refusal that no
    /// byte that follows can lift: at most one reply. A loop that sends it and then calls again has
    /// one reply in memory at a time.
    pub fn answer_next<A: App, Args, S: Service<A, Args>>(
        &mut self,
        alloc: Global,
        worker: &mut Worker<A>,
        service: &mut S,
        out: &mut Vec<u8>,
    ) -> Answered
        requires ready { S.ready service.old }
        requires room { worker.old.made + bytes_open self.old < 2 ^ 64 }
        ensures ready { S.ready service.new }
        ensures same_promises { S.same_promises service.old service.new }
        ensures made { worker.new.made + bytes_open self.new
            ≤ worker.old.made + bytes_open self.old }
        ensures kept { worker.new ≡ with_records worker.new.serials worker.new.made worker.old }
        ensures limits { self.new.limits ≡ self.old.limits }
        ensures waits { WaitsWhere result self.new }
        ensures answered { IsAnswered (⟦<S as Serves<A, Args>>⟧.setting service.old worker.old)
            self.old self.new out.old.items out.new.items result }
        ensures steps { StepsFrom (⟦<S as Serves<A, Args>>⟧.setting service.old worker.old)
            self.old self.new out.old.items out.new.items }
    {
        if let Some(ended) = self.ended {
            return Answered::Ended(ended);
        }
        let progress = mem::replace(&mut self.progress, Progress::start());
        let mut flights = Vec::new(alloc);
        let turned = serve_next(
            alloc,
            worker,
            service,
            &self.limits,
            &self.buffer[self.start..],
            progress,
            &mut self.rooms,
            &mut flights,
            out,
        );
        match turned {
            Turned::Goes(used) => {
                self.start += used;
                Answered::Replied
            }
            Turned::Waits(skipped, progress) => self.wait(alloc, skipped, progress),
            Turned::Ended(ended) => {
                self.ended = Some(ended);
                Answered::Ended(ended)
            }
        }
    }

    /// Writes `100 Continue` for a sender that waits for it before it sends a body (RFC 7231,
    /// section 5.1.1): after `Answered::Waits`, where a head that expects it was taken, and no byte
    /// came after it. Returns whether it was written. A loop calls it once after each piece.
    pub fn write_continue(&self, out: &mut Vec<u8>) -> Result<bool, NoMemory>
        requires waits { WaitsForMore self.now }
        ensures ok { IfOk result (Continues self.now out.old.items out.new.items) }
        ensures err { OnErr result (out.new.items ≡ out.old.items) }
    {
        if self.awaits_continue() {
            put_continue(out)?;
            return Ok(true);
        }
        Ok(false)
    }

    /// Whether the bytes that are left are a head that expects to be continued.
    fn awaits_continue(&self) -> bool
        ensures { result ≡ true → (self.now.ended ≡ None)
            × AwaitsContinue self.now.limits self.now.left }
    {
        if self.ended.is_some() {
            return false;
        }
        awaits_continue(&self.progress, self.buffer.len() - self.start)
    }

    /// Begins the reply to the next message, where it is whole. It does as `answer_next`, but a
    /// body that is not in memory is handed back, with the connection, and written piece by piece.
    /// Its length is stated if the response states it. Otherwise it is written in chunks, or to
    /// HTTP/1.0 until the connection ends.
    pub fn begin_next<A: App, Args, S: Service<A, Args>>(
        self,
        alloc: Global,
        worker: &mut Worker<A>,
        service: &mut S,
        settings: &ReplySettings,
        out: &mut Vec<u8>,
    ) -> Begun<A::Source>
        requires ready { S.ready service.old }
        requires room { worker.old.made + bytes_open self < 2 ^ 64 }
        ensures ready { S.ready service.new }
        ensures same_promises { S.same_promises service.old service.new }
        ensures made { worker.new.made + bytes_open (after_begun result)
            ≤ worker.old.made + bytes_open self }
        ensures kept { worker.new ≡ with_records worker.new.serials worker.new.made worker.old }
        ensures limits { (after_begun result).limits ≡ self.limits }
        ensures waits { BegunWaits result }
        ensures begun { BeginsNext (⟦<S as Serves<A, Args>>⟧.setting service.old worker.old)
            settings.now self out.old.items out.new.items result }
        ensures steps { AddsNothing settings.now
            → AllHaveTheirLength (⟦<S as Serves<A, Args>>⟧.setting service.old worker.old)
            → BegunSteps (⟦<S as Serves<A, Args>>⟧.setting service.old worker.old) self
            out.old.items out.new.items result }
    {
        let mut connection = self;
        if let Some(ended) = connection.ended() {
            return Begun::Answered(connection, Answered::Ended(ended));
        }
        match connection.begin(alloc, worker, service, settings, out) {
            BegunTurn::Begun(used, reply) => connection.after_reply(used, reply),
            BegunTurn::Turned(turned) => connection.after_turn(alloc, turned),
        }
    }

    /// One step over the bytes that are left, which stay.
    fn begin<A: App, Args, S: Service<A, Args>>(
        &mut self,
        alloc: Global,
        worker: &mut Worker<A>,
        service: &mut S,
        settings: &ReplySettings,
        out: &mut Vec<u8>,
    ) -> BegunTurn<A::Source>
        requires ready { S.ready service.old }
        requires room { worker.old.made + length self.old.left < 2 ^ 64 }
        ensures same { self.new ≡ self.old }
        ensures ready { S.ready service.new }
        ensures same_promises { S.same_promises service.old service.new }
        ensures made { worker.new.made + begun_left result (length self.old.left)
            ≤ worker.old.made + length self.old.left }
        ensures kept { worker.new ≡ with_records worker.new.serials worker.new.made worker.old }
        ensures one { BeginsOne (⟦<S as Serves<A, Args>>⟧.setting service.old worker.old)
            settings.now self.old.limits self.old.left out.old.items out.new.items result }
    {
        let progress = mem::replace(&mut self.progress, Progress::start());
        let mut flights = Vec::new(alloc);
        begin_step(
            alloc,
            worker,
            service,
            settings,
            &self.limits,
            &self.buffer[self.start..],
            progress,
            &mut self.rooms,
            &mut flights,
            out,
        )
    }

    /// Goes on after a message of so many bytes, and its reply.
    fn pass(&mut self, bytes: usize, closes: bool)
        requires inside { bytes ≤ length self.old.left }
        ensures { self.new ≡ moved self.old bytes closes }
    {
        self.start += bytes;
        put_in(&mut self.progress, Progress::start());
        self.ended = end_after(closes);
    }

    /// Waits for more bytes, after so many that are no more needed. Of chunks that were read the
    /// lines are dropped, where they are many.
    fn wait(&mut self, alloc: Global, skipped: usize, progress: Progress) -> Answered
        requires unended { self.old.ended ≡ None }
        requires behind { WaitsBehind self.old.limits self.old.left
            (Turned.Waits skipped progress) }
        ensures { WaitsAfter (moved self.old skipped false) self.new result }
    {
        self.start += skipped;
        let mut progress = progress;
        let joined = progress.join_chunks(alloc, &self.limits, &self.buffer[self.start..]);
        put_in(&mut self.progress, progress);
        match joined {
            Ok(Some(joined)) => {
                self.buffer = joined;
                self.start = 0;
                Answered::Waits
            }
            Ok(None) => Answered::Waits,
            Err(NoMemory) => {
                self.ended = Some(Ended::NoMemory);
                Answered::Ended(Ended::NoMemory)
            }
        }
    }

    /// Ends so.
    fn end(&mut self, ended: Ended)
        ensures { self.new ≡ ended_at self.old.limits self.old.left ended }
    {
        self.ended = Some(ended);
    }

    /// After a message of so many bytes, whose reply was begun.
    fn after_reply<S>(self, used: usize, reply: BegunReply<S>) -> Begun<S>
        requires inside { used ≤ length self.left }
        ensures { result ≡ after_reply self used reply.closes reply.due }
    {
        let mut connection = self;
        connection.pass(used, reply.closes);
        match reply.due {
            Some(due) => Begun::Due(DueBody::new(connection, due)),
            None => Begun::Answered(connection, answered_after(reply.closes)),
        }
    }

    /// After a step that began no reply.
    fn after_turn<S>(self, alloc: Global, turned: Turned) -> Begun<S>
        requires unended { self.ended ≡ None }
        requires inside { IsInside self turned }
        ensures { TurnsTo self turned result }
    {
        let mut connection = self;
        match turned {
            Turned::Waits(skipped, progress) => {
                let answered = connection.wait(alloc, skipped, progress);
                Begun::Answered(connection, answered)
            }
            Turned::Ended(ended) => {
                connection.end(ended);
                Begun::Answered(connection, Answered::Ended(ended))
            }
            Turned::Goes(_) => unreachable!(),
        }
    }

    /// The same, ended within the body of a reply.
    pub(crate) fn cut(self) -> Connection
        ensures { result ≡ cut self }
    {
        let mut connection = self;
        connection.end(Ended::SourceFault);
        connection
    }

    /// Ends where no byte follows, after `answer`: writes the reply of a refusal where bytes are
    /// left that are no empty lines. Returns how it ended.
    pub fn finish(&mut self, alloc: Global, out: &mut Vec<u8>) -> Ended
        requires waits { WaitsForMore self.old }
        ensures ended { self.new.ended ≡ Some result }
        ensures finishes { Finishes self.old result out.old.items out.new.items }
    {
        if let Some(ended) = self.ended {
            return ended;
        }
        let progress = mem::replace(&mut self.progress, Progress::start());
        let rest = &self.buffer[self.start..];
        let ended = finish_rest(alloc, &self.limits, rest, progress, &mut self.rooms, out);
        self.ended = Some(ended);
        ended
    }

    /// Ends as `finish` does, after `begin_next`: the reply of a refusal is as the settings say.
    pub fn finish_with(
        &mut self,
        alloc: Global,
        settings: &ReplySettings,
        out: &mut Vec<u8>,
    ) -> Ended
        requires waits { WaitsForMore self.old }
        ensures ended { self.new.ended ≡ Some result }
        ensures finishes { FinishesWhere settings.now self.old result out.old.items out.new.items }
        ensures same { AddsNothing settings.now
            → Finishes self.old result out.old.items out.new.items }
    {
        if let Some(ended) = self.ended {
            return ended;
        }
        let progress = mem::replace(&mut self.progress, Progress::start());
        let rest = &self.buffer[self.start..];
        let rooms = &mut self.rooms;
        let ended = finish_rest_as(alloc, &self.limits, rest, progress, rooms, settings, out);
        self.ended = Some(ended);
        ended
    }
}
