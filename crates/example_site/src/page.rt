//! Pages. Each is written into one text, from its front to its end.
use crate::reply::Reply;
use http::StatusCode;
use std::alloc::Global;
use std::fmt::Write;
use web_build::prelude::*;
use web_reply::HttpResponse;
use web_texts::NoMemory;

/// What stands before the title of each page.
const FRONT: &str = "<!doctype html>\n<html lang=\"en\">\n<meta charset=\"utf-8\">\n\
    <meta name=\"viewport\" content=\"width=device-width\">\n\
    <link rel=\"icon\" href=\"/files/icon.svg\">\n<title>";

/// The bytes for which a new page has room. Most pages need no more.
const USUAL_LENGTH: usize = 1_024;

/// A page whose content is being written.
#[derive(Drop)]
pub struct Page {
    html: String,
}

/// A character as it stands in HTML, also within the quotes of an attribute, or `None` where it
/// stands for itself.
fn escape_of(c: char) -> Option<&'static str> {
    match c {
        '&' => Some("&amp;"),
        '<' => Some("&lt;"),
        '>' => Some("&gt;"),
        '"' => Some("&quot;"),
        '\'' => Some("&#39;"),
        _ => None,
    }
}

impl Page {
    /// A page of this title, which is HTML, without content.
    pub fn new(alloc: Global, title: &str) -> Result<Page, NoMemory> {
        let mut html = String::with_capacity(alloc, USUAL_LENGTH)?;
        html.push_str(FRONT)?;
        html.push_str(title)?;
        html.push_str("</title>\n")?;
        Ok(Page { html })
    }

    /// Adds HTML.
    pub fn push(&mut self, html: &str) -> Result<(), NoMemory> {
        Ok(self.html.push_str(html)?)
    }

    /// Adds a text from outside, so that the page shows it as it is.
    pub fn push_text(&mut self, text: &str) -> Result<(), NoMemory> {
        for c in text.chars() {
            match escape_of(c) {
                Some(escape) => self.html.push_str(escape)?,
                None => self.html.push(c)?,
            }
        }
        Ok(())
    }

    /// Adds a number.
    pub fn push_number(&mut self, number: u64) -> Result<(), NoMemory> {
        Ok(write!(self.html, "{number}")?)
    }

    /// The response of this page.
    pub fn reply(self, alloc: Global, status: StatusCode) -> Result<Reply, NoMemory> {
        let mut html = self.html;
        html.push_str("</html>\n")?;
        let mut builder = HttpResponse::build(alloc, status);
        builder.content_type("text/html; charset=utf-8")?;
        builder.take().body(html)
    }
}
