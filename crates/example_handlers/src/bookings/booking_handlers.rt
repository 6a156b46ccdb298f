//! A handler of JSON bodies and one of forms, each served by a function whose contract says what
//! its exchanges are answered with.
ghost use Rattle.std.specs.Prelude.{◌+◌, ◌<◌, ◌^◌, length, IfOk};
ghost use Rattle.web_worker.specs.AnsweredExchanges.{AreAnswered, reply_or_error};
ghost use Rattle.web_worker.specs.Outcomes.{outcome_views};
ghost use Rattle.example_handlers.specs.BookingReplies.{form_argument, form_booking};
ghost use Rattle.example_handlers.specs.BookingReplies.{json_argument, json_booking};

use crate::bookings::booking::Booking;
use crate::bookings::booking_layer::Bookings;
use crate::serving::Outcomes;
use std::alloc::Global;
use web_body::Marks;
use web_extract::{Itself, Ready};
use web_extract_body::{Form, Json, form_law, json_law};
use web_request::{NoMemory, Source};
use web_worker::{Exchange, FnHandler, Worker, list_exchange_law, plan_law, serve_all};

/// Serves the exchanges by a closure that responds with the booking of a JSON body, as JSON.
///
/// An exchange whose body states its marks is answered once the plan has polled it more often than
/// its body stalls: with the booking, or with the refusal of the configuration that counts for it.
/// Before that it is unfinished. Where the head refuses the body, the reply to that comes at the
/// first poll. A failed allocation is the exception.
pub fn serve_json_bookings(
    alloc: Global,
    worker: &mut Worker<Bookings>,
    exchanges: Vec<Exchange<Bookings>>,
    plan: &[usize],
) -> Outcomes<Bookings>
    requires room { worker.old.made + length exchanges.items < 2 ^ 64 }
    ensures { IfOk result (λ os. AreAnswered ⟦<Marks as Source>⟧.feed
        (λ x. (json_argument ⟦<Marks as Source>⟧.feed worker.old x).delay)
        (λ x. reply_or_error json_booking
        (json_argument ⟦<Marks as Source>⟧.feed worker.old x).result)
        plan.now exchanges.items (outcome_views ⟦<Marks as Source>⟧.feed os.items)) }
{
    json_law::<Bookings, Booking>();
    let mut handler = FnHandler(|booking: Json<Booking>| -> Result<Ready<Json<Booking>>, NoMemory> {
        Ok(Ready::new(booking))
    });
    list_exchange_law::<Bookings, Json<Booking>, Itself, _>(&handler);
    plan_law::<Bookings, Json<Booking>, _>(&handler);
    serve_all(alloc, worker, exchanges, plan, &mut handler)
}

/// Serves the exchanges by a closure that responds with the booking of a form, as a form.
///
/// They are answered as `serve_json_bookings` says.
pub fn serve_form_bookings(
    alloc: Global,
    worker: &mut Worker<Bookings>,
    exchanges: Vec<Exchange<Bookings>>,
    plan: &[usize],
) -> Outcomes<Bookings>
    requires room { worker.old.made + length exchanges.items < 2 ^ 64 }
    ensures { IfOk result (λ os. AreAnswered ⟦<Marks as Source>⟧.feed
        (λ x. (form_argument ⟦<Marks as Source>⟧.feed worker.old x).delay)
        (λ x. reply_or_error form_booking
        (form_argument ⟦<Marks as Source>⟧.feed worker.old x).result)
        plan.now exchanges.items (outcome_views ⟦<Marks as Source>⟧.feed os.items)) }
{
    form_law::<Bookings, Booking>();
    let mut handler = FnHandler(|booking: Form<Booking>| -> Result<Ready<Form<Booking>>, NoMemory> {
        Ok(Ready::new(booking))
    });
    list_exchange_law::<Bookings, Form<Booking>, Itself, _>(&handler);
    plan_law::<Bookings, Form<Booking>, _>(&handler);
    serve_all(alloc, worker, exchanges, plan, &mut handler)
}
