//! The functions that the program's arguments and handler meet.
ghost use Rattle.demo_picked.specs.PickedFunctions.{picked_arguments};
ghost use Rattle.demo_app.specs.ServiceFunctions.{ArgumentsMeet, HandlerMeets};
ghost use Rattle.demo_handler.specs.DemoFunctions.{demo_handler};

use crate::handler::DemoHandler;
use demo_app::Demo;
use demo_content::DemoOutput;
use demo_picked::Picked;
use web_extract::FromRequest;
use web_reply::{Error, Responder};
use web_worker::Handler;

/// The program's arguments have one delay and one result for each request and its marks, and its
/// handler has one wait and one reply for each of their values.
pub fn demo_law()
    ensures arguments { ArgumentsMeet ⟦<Picked as FromRequest<Demo>>⟧.means
        ⟦<Error as Into<Error>>⟧.converts picked_arguments }
    ensures handler { (h : DemoHandler)
        → HandlerMeets (⟦<DemoHandler as Handler<Picked>>⟧.answers h)
        ⟦<DemoOutput as Responder<Demo>>⟧.responds demo_handler }
{}
