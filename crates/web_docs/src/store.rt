//! Stores of documents.
ghost use Rattle.std.specs.Prelude.{◌≡◌, option_copied};
ghost use Rattle.std.specs.FinMap as map;
ghost use Rattle.web_docs.specs.Stores.{AddsDocument, MakesStore};

use crate::document::{Document, StoreFault};
use crate::stored::StoredDocument;
use std::alloc::Global;
use std::collections::HashMap;
use std::marker::Model;
use web_texts::Fail;

/// Documents, each of which is found by its path. Contracts see the map from paths to documents.
#[derive(Drop)]
pub struct Store {
    documents: HashMap<String, StoredDocument>,
}

impl Model for Store {
    ghost use Rattle.std.specs.FinMap as map;
    ghost use Rattle.std.specs.Ordering.{nat_cmp};
    ghost use Rattle.std.specs.Cmp.Lexicographic.{slice_cmp};
    ghost use Rattle.std.specs.Coded.{coded_list, coded_ℕ};
    ghost use Rattle.web_docs.specs.declared.document.Document.{Document};
    ghost use Rattle.web_docs.specs.contracts.document.Document.{the_row};
    ghost use Rattle.web_docs.specs.TextMaps.{by_text};

    ghost Value = { map.FinMap (slice_cmp nat_cmp) Document };

    ghost coded = { map.code (coded_list coded_ℕ) the_row.coded };

    ghost view = { λ s. by_text s.documents.entries };
}

impl Store {
    /// A store of these documents. The first document that is wrong refuses the list: with
    /// `StoreFault::DuplicatePath` where an earlier one has its path, and else with
    /// `StoreFault::Value` where its media type or its tag may stand in no header. Returns
    /// `NoMemory` where allocation failed.
    pub fn new(alloc: Global, documents: Vec<Document>) -> Result<Store, Fail<StoreFault>>
        ensures { MakesStore documents.items result }
    {
        let mut store = Store {
            documents: HashMap::new(alloc),
        };
        for document in documents {
            store.add(alloc, document)?;
        }
        Ok(store)
    }

    /// Adds a document, unless something is wrong with it beside those that are there.
    fn add(&mut self, alloc: Global, document: Document) -> Result<(), Fail<StoreFault>>
        ensures { AddsDocument self.old document result self.new }
    {
        if self.documents.contains_key(document.path.as_str()) {
            return Err(Fail::Of(StoreFault::DuplicatePath(document.path)));
        }
        let path = String::from_str(alloc, document.path.as_str())?;
        let stored = StoredDocument::of(alloc, document)?;
        self.documents.insert(path, stored)?;
        Ok(())
    }

    /// The document of this path. The time that it takes does not grow with the number of
    /// documents.
    pub fn find(&self, path: &str) -> Option<&Document>
        ensures { option_copied result ≡ map.get self.now path.now }
    {
        match self.stored(path) {
            Some(stored) => Some(stored.document()),
            None => None,
        }
    }

    /// The document of this path, with its values of headers.
    pub(crate) fn stored(&self, path: &str) -> Option<&StoredDocument>
        ensures { option_copied result ≡ map.get self.now path.now }
    {
        self.documents.get(path)
    }
}
