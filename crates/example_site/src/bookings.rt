//! `POST /bookings`: redirects to what was booked, or gives the form back with what was refused of
//! it. Nothing is kept.
use crate::booking::Booking;
use crate::extracted::extracted;
use crate::page::Page;
use crate::posted::Posted;
use crate::reply::{Answer, Plain};
use http::StatusCode;
use std::alloc::Global;
use web_body::{Marks, Payload};
use web_build::Redirect;
use web_codec::pairs_text;
use web_extract_body::Form;
use web_extract_head::Query;
use web_reply::Responder;
use web_request::HttpRequest;
use web_texts::{NoMemory, Pair, Text, read_digits};

/// The most seats of a booking.
const MOST_SEATS: u64 = 8;

/// What is refused of each field.
#[derive(Clone, Copy, Debug, Default, PartialEq, Eq)]
pub struct Refused {
    pub name: Option<&'static str>,
    pub seats: Option<&'static str>,
}

/// What is refused of the fields.
fn refusals_of(posted: &Posted) -> Refused {
    let seats = read_digits(posted.seats.as_str(), MOST_SEATS).unwrap_or(0);
    Refused {
        name: if posted.name.as_str().is_empty() {
            Some("say a name")
        } else {
            None
        },
        seats: if seats == 0 {
            Some("one to eight")
        } else {
            None
        },
    }
}

/// Writes a field of the form, with what is refused of it.
fn write_field(
    page: &mut Page,
    label: &str,
    name: &str,
    value: &str,
    refused: Option<&str>,
) -> Result<(), NoMemory> {
    page.push("<label>")?;
    page.push(label)?;
    page.push(" <input name=\"")?;
    page.push(name)?;
    page.push("\" value=\"")?;
    page.push_text(value)?;
    page.push("\"></label> <em>")?;
    page.push(refused.unwrap_or(""))?;
    page.push("</em><br>\n")
}

/// Writes the form with these values in it.
pub fn write_form(page: &mut Page, posted: &Posted, refused: Refused) -> Result<(), NoMemory> {
    page.push("<h1>Bookings</h1>\n<form method=\"post\" action=\"/bookings\">\n")?;
    write_field(page, "Name", "name", posted.name.as_str(), refused.name)?;
    write_field(page, "Seats", "seats", posted.seats.as_str(), refused.seats)?;
    page.push("<button>Book</button>\n</form>\n")
}

/// The page with the form as it was posted, and what was refused of it.
fn given_back(alloc: Global, posted: &Posted, refused: Refused) -> Answer {
    let mut page = Page::new(alloc, "Bookings")?;
    write_form(&mut page, posted, refused)?;
    Ok(page.reply(alloc, StatusCode::UNPROCESSABLE_ENTITY)?)
}

/// Sends the client to the page of this booking, which it may load again as often as it likes.
fn redirected(alloc: Global, request: &HttpRequest<Plain>, posted: &Posted) -> Answer {
    let pairs = vec![in alloc;
        Pair::new(alloc, "name", posted.name.as_str())?,
        Pair::new(alloc, "seats", posted.seats.as_str())?,
    ]?;
    let query = pairs_text(alloc, &pairs)?;
    let target = Text::from(format!(in alloc; "/booked?{query}")?);
    let reply = Redirect::to(alloc, target)?
        .see_other()
        .respond_to(alloc, request)?;
    Ok(reply.map_into_boxed_body(alloc)?)
}

/// Takes a booking, or gives the form back with what was refused of it.
pub fn take_booking(
    alloc: Global,
    request: &HttpRequest<Plain>,
    payload: Payload<Marks>,
) -> Answer {
    let mut payload = payload;
    let Form(posted) = extracted::<Form<Posted>>(alloc, request, &mut payload)?;
    let refused = refusals_of(&posted);
    if refused == Refused::default() {
        redirected(alloc, request, &posted)
    } else {
        given_back(alloc, &posted, refused)
    }
}

/// `GET /booked`: the page of a booking, which stands in the query.
pub fn show_booking(alloc: Global, request: &HttpRequest<Plain>) -> Answer {
    let mut payload = Payload::None;
    let Query(booking) = extracted::<Query<Booking>>(alloc, request, &mut payload)?;
    let mut page = Page::new(alloc, "Booked")?;
    page.push("<h1>Booked</h1>\n<p>")?;
    page.push_text(booking.name.as_str())?;
    page.push(": ")?;
    page.push_number(booking.seats)?;
    page.push("</p>\n<p><a href=\"/\">Another one</a></p>\n")?;
    Ok(page.reply(alloc, StatusCode::OK)?)
}
