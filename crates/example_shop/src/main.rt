//! A shop that takes orders behind a program that opens the socket: the application that the page
//! `docs/FIRST-APPLICATION.md` builds.
#![tactic(auto)]

mod error;
mod handler;
mod item;
mod item_handler;
mod item_layer;
mod layer;
mod order;
mod price;

use crate::handler::{no_such_page, take_order};
use crate::layer::{Shop, ShopLayer};
use anyhow::Result;
use std::process::ExitCode;
use std::rc::Rc;
use web::header::{HeaderValue, SERVER};
use web::{Router, Scope, ServeSettings, SetHeader, Worker, Wrap, handler, post, replied, serve};

/// The most bytes of an item.
const LIMIT: usize = 200;

/// The most bytes of an item of which a sample is ordered.
const SAMPLE_LIMIT: usize = 40;

/// Serves the connection that standard input and output are.
fn serve_connection(rt: &HostRuntime) -> Result<()> {
    let alloc = rt.alloc();
    let orders = post("/orders").to(move |order| replied(alloc, take_order(alloc, order)));
    let samples = Scope::new(
        Rc::new(alloc, ShopLayer::new(SAMPLE_LIMIT))?,
        handler(move |order| replied(alloc, take_order(alloc, order))),
    );
    let routes = (orders, post("/samples").service(samples));
    let others = handler(move |_none: ()| replied(alloc, no_such_page()));
    let server = SetHeader {
        name: SERVER,
        value: HeaderValue::from_static("shop"),
    };
    let mut shop = Wrap::new(Router::new(alloc, routes, others)?, server);
    let mut worker = Worker::<Shop>::local(alloc, ShopLayer::new(LIMIT))?;
    serve(
        alloc,
        rt,
        &mut worker,
        &mut shop,
        ServeSettings::from_words(rt)?,
        &mut rt.stdin(),
        &mut rt.stdout(),
    )?;
    Ok(())
}

/// It writes no message if it fails: behind inetd standard error is the connection too.
fn main(rt: HostRuntime) -> ExitCode {
    match serve_connection(&rt) {
        Ok(()) => ExitCode::SUCCESS,
        Err(_) => ExitCode::FAILURE,
    }
}
