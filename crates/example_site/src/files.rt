//! `GET /files/{name}`: a document, which has ranges, a tag and a date.
use crate::reply::{Plain, Reply};
use anyhow::{Result, bail};
use bytes::Bytes;
use http::{Method, StatusCode};
use httpdate::HttpDate;
use std::alloc::Global;
use web_body::Payload;
use web_docs::{Document, Store, answer_document};
use web_entities::EntityTag;
use web_reply::BoxBody;
use web_request::HttpRequest;
use web_texts::{Fail, Mime, NoMemory, Text};

/// When the documents were last changed, in seconds since 1970.
const LAST_CHANGE: u64 = 1_700_000_000;

const GUIDE: &[u8] = b"0123456789\nThis is a document: ask for a part of it.\n";

const ICON: &[u8] = b"<svg xmlns=\"http://www.w3.org/2000/svg\" viewBox=\"0 0 8 8\">\
    <circle cx=\"4\" cy=\"4\" r=\"3\" fill=\"teal\"/></svg>\n";

/// A media type that is known to be one.
pub fn media_type(alloc: Global, text: &str) -> Result<Mime> {
    match Mime::parse(alloc, text) {
        Ok(media_type) => Ok(media_type),
        Err(Fail::NoMemory) => Err(NoMemory.into()),
        Err(Fail::Of(_)) => bail!("{text} is no media type"),
    }
}

/// A document of this path, media type and content.
fn document(alloc: Global, path: &str, kind: &str, body: &'static [u8]) -> Result<Document> {
    let Ok(modified) = HttpDate::from_unix_secs(LAST_CHANGE) else {
        bail!("no date");
    };
    Ok(Document {
        path: Text::of(alloc, path)?,
        media_type: media_type(alloc, kind)?,
        tag: EntityTag::new_strong(Text::of(alloc, "v1")?),
        modified,
        body: Bytes::from_static(body),
    })
}

/// The documents of the site.
pub fn new_store(alloc: Global) -> Result<Store> {
    let documents = vec![in alloc;
        document(
            alloc,
            "/files/guide.txt",
            "text/plain; charset=utf-8",
            GUIDE
        )?,
        document(alloc, "/files/icon.svg", "image/svg+xml", ICON)?,
    ]?;
    match Store::new(alloc, documents) {
        Ok(store) => Ok(store),
        Err(Fail::NoMemory) => Err(NoMemory.into()),
        Err(Fail::Of(fault)) => Err(fault.into()),
    }
}

/// The length of a document whose reply to HEAD is this.
fn length_at_head(files: &Store, request: &HttpRequest<Plain>, reply: &Reply) -> Option<u64> {
    if *request.method() != Method::HEAD || reply.status() != StatusCode::OK {
        return None;
    }
    let document = files.find(request.path())?;
    Some(document.body.len() as u64)
}

/// Responds with the document of the path, or a part of it, or that it did not change, or 404. The
/// reply to HEAD has a body of the document's length, which is not sent.
pub fn answer_file(
    alloc: Global,
    files: &Store,
    request: &HttpRequest<Plain>,
) -> Result<Reply, NoMemory> {
    let reply = answer_document(alloc, files, request)?.map_into_boxed_body(alloc)?;
    match length_at_head(files, request, &reply) {
        Some(length) => {
            let unread = Box::new(alloc, Payload::None)?;
            Ok(reply.set_body(BoxBody::Sized(length, unread)))
        }
        None => Ok(reply),
    }
}
