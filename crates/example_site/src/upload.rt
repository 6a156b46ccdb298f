//! `POST /upload`: lists the parts of a form with files.
use crate::extracted::extracted;
use crate::page::Page;
use crate::reply::{Answer, Plain};
use http::StatusCode;
use std::alloc::Global;
use web_body::{Marks, Payload};
use web_multipart::{Multipart, Part};
use web_request::HttpRequest;
use web_texts::NoMemory;

/// Writes the line of a part: its name, the name of its file, its media type and its size.
fn write_line(alloc: Global, page: &mut Page, part: &Part) -> Result<(), NoMemory> {
    page.push("<tr><td>")?;
    page.push_text(part.name.as_str())?;
    page.push("<td>")?;
    if let Some(file) = &part.filename {
        page.push_text(file.as_str())?;
    }
    page.push("<td>")?;
    if let Some(media_type) = &part.media_type {
        page.push_text(format!(in alloc; "{media_type}")?.as_str())?;
    }
    page.push("<td>")?;
    page.push_number(part.body.len() as u64)?;
    page.push("\n")
}

/// Lists the parts, each of at most 32,768 bytes. None is kept.
pub fn list_parts(alloc: Global, request: &HttpRequest<Plain>, payload: Payload<Marks>) -> Answer {
    let mut payload = payload;
    let form = extracted::<Multipart<32_768>>(alloc, request, &mut payload)?;
    let mut page = Page::new(alloc, "Parts")?;
    page.push("<h1>Parts</h1>\n<table>\n<tr><th>name<th>file<th>type<th>bytes\n")?;
    for part in form.parts() {
        write_line(alloc, &mut page, part)?;
    }
    page.push("</table>\n")?;
    Ok(page.reply(alloc, StatusCode::OK)?)
}
