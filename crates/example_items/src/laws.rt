//! The one reply of each handler, as contracts of functions that the site cites. A call of one has
//! no effect.
ghost use Rattle.std.specs.Prelude.{List};
ghost use Rattle.web_request.specs.declared.app.NoData.{NoData as Nothing};
ghost use Rattle.web_request.specs.declared.source.Mark.{Mark};
ghost use Rattle.web_request.specs.Request.{Request};
ghost use Rattle.web_reply.specs.Responders.{empty_reply};
ghost use Rattle.example_items.specs.ItemReplies.{RepliesOnce, list_reply, note_reply};
ghost use Rattle.example_items.specs.ItemReplies.{reply_now, show_reply};

use crate::handlers::{ListItems, NoItem, NoteItem, ShowItem};
use web_extract::{ByBytes, Itself, list_law, same_error_law, seen_places_law};
use web_extract_head::{Path, path_law};
use web_request::{PlainApp, Source};
use web_worker::{SeenTwo, Service, exchange_law, list_exchange_law};

/// `ListItems` has this one reply to each request.
pub(crate) fn list_items_law<S: Source>(handler: &ListItems)
    ensures { (q : Request Nothing Nothing Nothing) (m : List Mark) → RepliesOnce
        (⟦<ListItems as Service<PlainApp<S>, ()>>⟧.promise handler.now q m) list_reply }
{
    exchange_law::<PlainApp<S>, (), Itself, ListItems>(handler);
}

/// `ShowItem` has this one reply to each request.
pub(crate) fn show_item_law<S: Source>(handler: &ShowItem)
    ensures { (q : Request Nothing Nothing Nothing) (m : List Mark) → RepliesOnce
        (⟦<ShowItem as Service<PlainApp<S>, Path<u32>>>⟧.promise handler.now q m)
        (show_reply q.params) }
{
    path_law::<PlainApp<S>, u32>();
    list_exchange_law::<PlainApp<S>, Path<u32>, Itself, ShowItem>(handler);
}

/// `NoteItem` has this one reply to each request.
pub(crate) fn note_item_law<S: Source>(handler: &NoteItem)
    ensures { (q : Request Nothing Nothing Nothing) (m : List Mark) → RepliesOnce
        (⟦<NoteItem as Service<PlainApp<S>, (Path<u32>, String)>>⟧.promise handler.now q m)
        (note_reply q.params q.head.headers m) }
{
    path_law::<PlainApp<S>, u32>();
    same_error_law::<PlainApp<S>, Path<u32>, Itself>();
    seen_places_law::<PlainApp<S>>();
    list_law::<PlainApp<S>, Path<u32>, String, String, String, Itself, ByBytes, ByBytes, ByBytes>();
    list_exchange_law::<PlainApp<S>, (Path<u32>, String), SeenTwo<Itself, ByBytes>, NoteItem>(
        handler,
    );
}

/// `NoItem` has this one reply to each request.
pub(crate) fn no_item_law<S: Source>(handler: &NoItem)
    ensures { (q : Request Nothing Nothing Nothing) (m : List Mark) → RepliesOnce
        (⟦<NoItem as Service<PlainApp<S>, ()>>⟧.promise handler.now q m)
        (reply_now (empty_reply 404)) }
{
    exchange_law::<PlainApp<S>, (), Itself, NoItem>(handler);
}
