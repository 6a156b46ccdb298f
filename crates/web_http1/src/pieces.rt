//! What a connection writes, however its bytes are cut into pieces.
ghost use Rattle.std.specs.Prelude.{◌++◌, [], List, ℕ};
ghost use Rattle.web_request.specs.Pool.{Pool};
ghost use Rattle.web_messages.specs.declared.limits.Limits.{Limits as LimitsOf};
ghost use Rattle.web_http1.specs.ConnectionPieces.{AnswersWhole, Fed, FinishedWith};
ghost use Rattle.web_http1.specs.ConnectionPieces.{IsPrefixOfAnswers, joined};
ghost use Rattle.web_http1.specs.BegunCalls.{CalledOrBegun};
ghost use Rattle.web_http1.specs.ConnectionCalls.{Call, Called, fed};
ghost use Rattle.web_http1.specs.Connections.{ConnectionView, WaitsForMore, open_at};
ghost use Rattle.web_http1.specs.Serving.{AnswersAll};
ghost use Rattle.web_http1.specs.declared.ended.Ended.{Ended as EndedAs};

use web_request::App;
use web_worker::{Serves, Service};

/// A connection took pieces by `Connection::feed`, and after each `Connection::answer` was called.
/// What was written by then is a prefix of the answers of all bytes that came and may follow. It
/// has the reply to each message that is whole by then. With what `Connection::finish` writes it is
/// the answers of all bytes, or a prefix of them where an allocation failed.
///
/// The contract is a law, over the clauses of these calls; there is nothing to call it for.
pub fn pieces_law<A: App, Args, S: Service<A, Args>>()
    ensures prefix { (service : S) (pool : Pool A.Layer) (limits : LimitsOf)
        (pieces : List (List ℕ)) (new : ConnectionView) (given : List ℕ)
        → Fed (⟦<S as Serves<A, Args>>⟧.setting service pool) (open_at limits []) pieces new given
        → IsPrefixOfAnswers (⟦<S as Serves<A, Args>>⟧.setting service pool) limits
        (joined pieces) given }
    ensures whole { (service : S) (pool : Pool A.Layer) (limits : LimitsOf)
        (pieces : List (List ℕ)) (new : ConnectionView) (given : List ℕ)
        → Fed (⟦<S as Serves<A, Args>>⟧.setting service pool) (open_at limits []) pieces new given
        → AnswersWhole (⟦<S as Serves<A, Args>>⟧.setting service pool) limits
        (joined pieces) new.ended given }
    ensures all { (service : S) (pool : Pool A.Layer) (limits : LimitsOf)
        (pieces : List (List ℕ)) (new : ConnectionView) (given tail : List ℕ) (end : EndedAs)
        → Fed (⟦<S as Serves<A, Args>>⟧.setting service pool) (open_at limits []) pieces new given
        → FinishedWith new end tail
        → AnswersAll (⟦<S as Serves<A, Args>>⟧.setting service pool) limits
        (joined pieces) end [] (given ++ tail) }
{}

/// A connection took pieces by `Connection::feed`, and `Connection::answer_next` or
/// `Connection::answer` was called between them as often as the caller liked. What was written by
/// then is a prefix of the answers of all bytes that came and may follow. Where it waits for more
/// bytes, the reply to each message that is whole was written, and with what `Connection::finish`
/// writes it is the answers of all bytes, or a prefix of them where an allocation failed.
///
/// The contract is a law, over the clauses of these calls; there is nothing to call it for.
pub fn calls_law<A: App, Args, S: Service<A, Args>>()
    ensures prefix { (service : S) (pool : Pool A.Layer) (limits : LimitsOf)
        (calls : List Call) (new : ConnectionView) (given : List ℕ)
        → Called (⟦<S as Serves<A, Args>>⟧.setting service pool) (open_at limits []) calls new given
        → IsPrefixOfAnswers (⟦<S as Serves<A, Args>>⟧.setting service pool) limits
        (fed calls) given }
    ensures whole { (service : S) (pool : Pool A.Layer) (limits : LimitsOf)
        (calls : List Call) (new : ConnectionView) (given : List ℕ)
        → Called (⟦<S as Serves<A, Args>>⟧.setting service pool) (open_at limits []) calls new given
        → WaitsForMore new
        → AnswersWhole (⟦<S as Serves<A, Args>>⟧.setting service pool) limits
        (fed calls) new.ended given }
    ensures all { (service : S) (pool : Pool A.Layer) (limits : LimitsOf)
        (calls : List Call) (new : ConnectionView) (given tail : List ℕ) (end : EndedAs)
        → Called (⟦<S as Serves<A, Args>>⟧.setting service pool) (open_at limits []) calls new given
        → WaitsForMore new → FinishedWith new end tail
        → AnswersAll (⟦<S as Serves<A, Args>>⟧.setting service pool) limits
        (fed calls) end [] (given ++ tail) }
{}

/// As `calls_law`, where `Connection::begin_next` was called too, with no settings, and each body
/// that was due was written to its end before the next call. So a reply that is sent piece by piece
/// has the bytes of one that is collected, where each body has the length that it states.
///
/// The contract is a law, over the clauses of these calls; there is nothing to call it for.
pub fn begun_calls_law<A: App, Args, S: Service<A, Args>>()
    ensures prefix { (service : S) (pool : Pool A.Layer) (limits : LimitsOf)
        (calls : List Call) (new : ConnectionView) (given : List ℕ)
        → CalledOrBegun (⟦<S as Serves<A, Args>>⟧.setting service pool) (open_at limits [])
        calls new given
        → IsPrefixOfAnswers (⟦<S as Serves<A, Args>>⟧.setting service pool) limits
        (fed calls) given }
    ensures whole { (service : S) (pool : Pool A.Layer) (limits : LimitsOf)
        (calls : List Call) (new : ConnectionView) (given : List ℕ)
        → CalledOrBegun (⟦<S as Serves<A, Args>>⟧.setting service pool) (open_at limits [])
        calls new given
        → WaitsForMore new
        → AnswersWhole (⟦<S as Serves<A, Args>>⟧.setting service pool) limits
        (fed calls) new.ended given }
    ensures all { (service : S) (pool : Pool A.Layer) (limits : LimitsOf)
        (calls : List Call) (new : ConnectionView) (given tail : List ℕ) (end : EndedAs)
        → CalledOrBegun (⟦<S as Serves<A, Args>>⟧.setting service pool) (open_at limits [])
        calls new given
        → WaitsForMore new → FinishedWith new end tail
        → AnswersAll (⟦<S as Serves<A, Args>>⟧.setting service pool) limits
        (fed calls) end [] (given ++ tail) }
{}
