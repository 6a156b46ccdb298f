//! A service of three routes behind a program that opens the socket: a program to copy.
#![tactic(auto)]

mod handlers;

use crate::handlers::{greet, hello, missing, note};
use anyhow::Result;
use std::process::ExitCode;
use web::{
    ErrorsAsJson, Marks, NoData, PlainApp, Router, ServeSettings, Worker, Wrap, get, handler, put,
    serve,
};

/// An application without configuration or data of its own, whose bodies are in memory.
type Site = PlainApp<Marks>;

/// Serves the connection that standard input and output are.
fn serve_connection(rt: &HostRuntime) -> Result<()> {
    let alloc = rt.alloc();
    let routes = (
        get("/").to(move |_none: ()| hello(alloc)),
        (
            get("/hello/{name}").to(move |name| greet(alloc, name)),
            put("/notes/{id}").to(move |args| note(alloc, args)),
        ),
    );
    let others = handler(move |_none: ()| missing(alloc));
    let mut site = Wrap::new(Router::new(alloc, routes, others)?, ErrorsAsJson);
    let mut worker = Worker::<Site>::local(alloc, NoData)?;
    serve(
        alloc,
        rt,
        &mut worker,
        &mut site,
        ServeSettings::from_words(rt)?,
        &mut rt.stdin(),
        &mut rt.stdout(),
    )?;
    Ok(())
}

/// It writes no message if it fails: behind inetd standard error is the connection too.
fn main(rt: HostRuntime) -> ExitCode {
    match serve_connection(&rt) {
        Ok(()) => ExitCode::SUCCESS,
        Err(_) => ExitCode::FAILURE,
    }
}
