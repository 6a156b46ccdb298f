//! `GET /`: the page with the form.
use crate::bookings::{Refused, write_form};
use crate::page::Page;
use crate::posted::Posted;
use crate::reply::Reply;
use http::StatusCode;
use std::alloc::Global;
use web_texts::{NoMemory, Text};

/// What stands below the form.
const BELOW: &str = "<h2>Upload</h2>\n\
    <form method=\"post\" action=\"/upload\" enctype=\"multipart/form-data\">\n\
    <input name=\"note\"> <input type=\"file\" name=\"file\"> <button>Send</button>\n\
    </form>\n\
    <p><a href=\"/items/7\">An item</a>, <a href=\"/files/guide.txt\">a file</a>,\n\
    <a href=\"/greeting\">a greeting</a>, <a href=\"/visits\">your visits</a>,\n\
    <a href=\"/old\">the old page</a></p>\n";

/// The page with an empty form.
pub fn home(alloc: Global) -> Result<Reply, NoMemory> {
    let posted = Posted {
        name: Text::of(alloc, "")?,
        seats: Text::of(alloc, "")?,
    };
    let mut page = Page::new(alloc, "Bookings")?;
    write_form(&mut page, &posted, Refused::default())?;
    page.push(BELOW)?;
    page.reply(alloc, StatusCode::OK)
}
