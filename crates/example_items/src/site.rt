//! The site: a router of the three routes.
ghost use Rattle.std.specs.Prelude.{IfErr, IfOk, List};
ghost use Rattle.web_request.specs.declared.app.NoData.{NoData as Nothing};
ghost use Rattle.web_request.specs.declared.source.Mark.{Mark};
ghost use Rattle.web_request.specs.Request.{Request};
ghost use Rattle.example_items.specs.ItemReplies.{RepliesOnce};
ghost use Rattle.example_items.specs.ItemSites.{LacksMemory, item_reply};

use crate::handlers::{ListItems, NoItem, NoteItem, ShowItem};
use crate::laws::{list_items_law, no_item_law, note_item_law, show_item_law};
use http::Method;
use std::alloc::Global;
use web_extract_head::Path;
use web_request::{PlainApp, Source};
use web_routing::{Endpoint, HandlerService, RefusedRoute, Router, Service, Whole};

type ListRoute = Endpoint<HandlerService<(), ListItems>>;

type ShowRoute = Endpoint<HandlerService<Path<u32>, ShowItem>>;

type NoteRoute = Endpoint<HandlerService<(Path<u32>, String), NoteItem>>;

/// The three routes, and all other paths.
pub type ItemSite = Router<(ListRoute, (ShowRoute, NoteRoute)), HandlerService<(), NoItem>>;

/// The site. Each request has one reply after one delay, that which `item_reply` gives.
///
/// # Errors
///
/// There was no memory for a route.
pub fn item_site<S: Source>(alloc: Global) -> Result<ItemSite, RefusedRoute>
    ensures replies { IfOk result (λ site. (q : Request Nothing Nothing Nothing) (m : List Mark)
        → RepliesOnce (⟦<ItemSite as Service<PlainApp<S>, Whole>>⟧.promise site q m)
        (item_reply q m)) }
    ensures refused { IfErr result (λ e. LacksMemory e.cause) }
{
    list_items_law::<S>(&ListItems);
    show_item_law::<S>(&ShowItem);
    note_item_law::<S>(&NoteItem);
    no_item_law::<S>(&NoItem);
    let list = Endpoint::new(Method::GET, "/", HandlerService::new(ListItems));
    let show = Endpoint::new(Method::GET, "/items/{id}", HandlerService::new(ShowItem));
    let note = Endpoint::new(Method::POST, "/items/{id}", HandlerService::new(NoteItem));
    let other = HandlerService::new(NoItem);
    Router::new(alloc, (list, (show, note)), other)
}
