//! The documents of `/doc`.
ghost use Rattle.std.specs.Prelude.{◌≡◌, IfOk, OnOk};
ghost use Rattle.web_docs.specs.DocumentFunctions.{document_reply};
ghost use Rattle.web_docs.specs.Stores.{store_of};
ghost use Rattle.demo_content.specs.StoredDocuments.{demo_date, demo_documents, empty_document};
ghost use Rattle.demo_content.specs.StoredDocuments.{IsKeptStore, digits_document, found_document};
ghost use Rattle.demo_content.specs.StoredDocuments.{plain_text};

use crate::media_types::media_type;
use bytes::Bytes;
use httpdate::HttpDate;
use std::alloc::Global;
use std::marker::Model;
use web_docs::{Document, Store, answer_document};
use web_entities::EntityTag;
use web_reply::{HttpResponse, WholeBody};
use web_request::{App, HttpRequest};
use web_texts::{Fail, Mime, NoMemory, Text};

/// When the documents were last changed, in seconds since 1970.
const LAST_CHANGE: u64 = 1_700_000_000;

/// The documents of `/doc`, which are stored when the first of them is asked for.
#[derive(Drop)]
pub struct DemoDocuments {
    store: Option<Store>,
}

impl Model for DemoDocuments {
    ghost use Rattle.std.specs.Prelude.{⊤};
    ghost use Rattle.demo_content.specs.StoredDocuments.{IsKeptStore};

    ghost Value = { ⊤ };

    ghost view = { λ _. tt };

    ghost invariant = { λ d. IsKeptStore d.store };
}

fn plain_text(alloc: Global) -> Result<Mime, NoMemory>
    ensures { IfOk result (λ made. made ≡ plain_text) }
{
    let made = media_type(alloc, "text/plain")?;
    Ok(made)
}

fn last_change() -> HttpDate
    ensures { result ≡ demo_date }
{
    match HttpDate::from_unix_secs(LAST_CHANGE) {
        Ok(date) => date,
        Err(_) => unreachable!(),
    }
}

/// `/doc/a`, of the tag `v1`: ten digits.
fn digits(alloc: Global) -> Result<Document, NoMemory>
    ensures { IfOk result (λ made. made ≡ digits_document) }
{
    Ok(Document {
        path: Text::of(alloc, "/doc/a")?,
        media_type: plain_text(alloc)?,
        tag: EntityTag::new_strong(Text::of(alloc, "v1")?),
        modified: last_change(),
        body: Bytes::from_static(b"0123456789"),
    })
}

/// `/doc/empty`, of the weak tag `e`.
fn empty(alloc: Global) -> Result<Document, NoMemory>
    ensures { IfOk result (λ made. made ≡ empty_document) }
{
    Ok(Document {
        path: Text::of(alloc, "/doc/empty")?,
        media_type: plain_text(alloc)?,
        tag: EntityTag::new_weak(Text::of(alloc, "e")?),
        modified: last_change(),
        body: Bytes::new(),
    })
}

/// Both documents.
fn all_documents(alloc: Global) -> Result<Vec<Document>, NoMemory>
    ensures { IfOk result (λ made. made.items ≡ demo_documents) }
{
    let mut documents = Vec::with_capacity(alloc, 2)?;
    documents.push(digits(alloc)?)?;
    documents.push(empty(alloc)?)?;
    Ok(documents)
}

fn make_store(alloc: Global) -> Result<Store, NoMemory>
    ensures { IfOk result (λ made. made ≡ store_of demo_documents) }
{
    match Store::new(alloc, all_documents(alloc)?) {
        Ok(store) => Ok(store),
        Err(Fail::NoMemory) => Err(NoMemory),
        Err(Fail::Of(_)) => unreachable!(),
    }
}

/// Stores the documents where none is stored.
fn keep_store(alloc: Global, kept: &mut Option<Store>) -> Result<(), NoMemory>
    requires { IsKeptStore kept.old }
    ensures kept { IsKeptStore kept.new }
    ensures stored { OnOk result (kept.new ≡ Some (store_of demo_documents)) }
{
    if kept.is_none() {
        *kept = Some(make_store(alloc)?);
    }
    Ok(())
}

impl DemoDocuments {
    /// No document is stored yet.
    pub const fn new() -> DemoDocuments {
        DemoDocuments { store: None }
    }

    /// The reply to a request for one of the documents. Returns `NoMemory` where allocation failed.
    pub fn answer<A: App>(
        &mut self,
        alloc: Global,
        req: &HttpRequest<A>,
    ) -> Result<HttpResponse<WholeBody>, NoMemory>
        ensures { IfOk result (λ reply. reply
            ≡ document_reply (found_document req.now.request.head) req.now.request.head) }
    {
        keep_store(alloc, &mut self.store)?;
        let Some(store) = &self.store else {
            unreachable!()
        };
        answer_document(alloc, store, req)
    }
}
