//! Documents with the headers that they are sent with, printed once.
ghost use Rattle.std.specs.Prelude.{◌≡◌, IfOk, IfSome};
ghost use Rattle.web_docs.specs.DescribedReplies.{part_headers as part_headers_lem};
ghost use Rattle.web_docs.specs.Descriptions.{description, validator_headers as validators_lem};
ghost use Rattle.web_docs.specs.Descriptions.{whole_headers as whole_headers_lem};
ghost use Rattle.web_docs.specs.Documents.{StoresDocument, date_value, field_value_of};
ghost use Rattle.web_docs.specs.Documents.{text_values as text_values_lem};

use crate::document::{Document, StoreFault};
use crate::header_maps::{part_map, validator_map, whole_map, with_range};
use crate::reply_headers::ReplyHeaders;
use bytes::Bytes;
use http_header::{HeaderMap, HeaderValue};
use httpdate::HttpDate;
use std::alloc::Global;
use std::fmt;
use std::marker::Model;
use web_entities::EntityTag;
use web_headers::printed_value;
use web_texts::{Fail, NoMemory};

/// A document, with the headers of a 304, those of the document itself, and those of a part.
#[derive(Drop)]
pub struct StoredDocument {
    document: Document,
    validators: HeaderMap<HeaderValue>,
    whole: HeaderMap<HeaderValue>,
    /// With an empty Content-Range, so that a reply sets it in a copy that need not grow.
    part: HeaderMap<HeaderValue>,
}

impl Model for StoredDocument {
    ghost use Rattle.web_docs.specs.declared.document.Document.{Document};

    ghost Value = { Document };

    ghost view = { λ s. s.document };

    ghost use Rattle.web_docs.specs.PrintedDocuments.{IsPrinted};

    ghost invariant = { IsPrinted };
}

/// The value of the text that an item prints, if it may stand in a header.
pub fn field_value<T: fmt::Display>(
    alloc: Global,
    item: &T,
) -> Result<Option<HeaderValue>, NoMemory>
    ensures { IfSome (T.output item.now) (λ text.
        IfOk result (λ value. value ≡ field_value_of text)) }
{
    match printed_value(alloc, item) {
        Ok(value) => {
            // It says that a header may hold the value.
            let _bytes = value.as_bytes();
            Ok(Some(value))
        }
        Err(Fail::Of(_)) => Ok(None),
        Err(Fail::NoMemory) => Err(NoMemory),
    }
}

/// The value of Last-Modified.
pub fn date_field_value(alloc: Global, date: HttpDate) -> Result<HeaderValue, NoMemory>
    ensures { IfOk result (λ value. value ≡ date_value date) }
{
    let printed = field_value(alloc, &date)?;
    match printed {
        Some(value) => Ok(value),
        None => unreachable!(),
    }
}

/// The values of Content-Type and ETag, if both may stand in a header.
fn text_values(
    alloc: Global,
    document: &Document,
) -> Result<Option<(HeaderValue, HeaderValue)>, NoMemory>
    ensures { IfOk result (λ values. values ≡ text_values_lem document.now) }
{
    let Some(media_type) = field_value(alloc, &document.media_type)? else {
        return Ok(None);
    };
    let Some(tag) = field_value(alloc, &document.tag)? else {
        return Ok(None);
    };
    Ok(Some((media_type, tag)))
}

impl StoredDocument {
    /// Prints the headers of a document. `StoreFault::Value` comes where the media type or the tag
    /// may stand in no header.
    pub fn of(alloc: Global, document: Document) -> Result<StoredDocument, Fail<StoreFault>>
        ensures { StoresDocument document result }
    {
        let values = text_values(alloc, &document)?;
        match values {
            Some(values) => {
                let modified = date_field_value(alloc, document.modified)?;
                let validators = validator_map(alloc, &values.1, &modified)?;
                let whole = whole_map(alloc, values.0, values.1, modified)?;
                let part = part_map(&whole)?;
                Ok(StoredDocument {
                    document,
                    validators,
                    whole,
                    part,
                })
            }
            None => Err(Fail::Of(StoreFault::Value(document.path))),
        }
    }

    pub fn document(&self) -> &Document
        ensures { result.now ≡ self.now }
    {
        &self.document
    }

    pub fn body(&self) -> &Bytes
        ensures { result.now ≡ self.now.body }
    {
        &self.document.body
    }

    /// A copy of the headers of a 304.
    pub fn validators(&self) -> Result<HeaderMap<HeaderValue>, NoMemory>
        ensures { IfOk result (λ map. map ≡ validators_lem (description self.now)) }
    {
        Ok(self.validators.clone()?)
    }

    /// The headers of a part, with this value of Content-Range.
    pub fn part(&self, range: HeaderValue) -> Result<HeaderMap<HeaderValue>, NoMemory>
        ensures { IfOk result (λ map. map ≡ part_headers_lem range (description self.now)) }
    {
        let map = with_range(&self.part, range)?;
        Ok(map)
    }

    /// A copy of the headers of the document.
    pub fn whole(&self) -> Result<HeaderMap<HeaderValue>, NoMemory>
        ensures { IfOk result (λ map. map ≡ whole_headers_lem (description self.now)) }
    {
        Ok(self.whole.clone()?)
    }
}

impl ReplyHeaders for StoredDocument {
    ghost use Rattle.web_docs.specs.Descriptions.{description};

    ghost describes = { description };

    fn entity_tag(&self) -> &EntityTag {
        &self.document().tag
    }

    fn last_change(&self) -> Option<HttpDate> {
        Some(self.document().modified)
    }

    fn validator_headers(&self, _alloc: Global) -> Result<HeaderMap<HeaderValue>, NoMemory> {
        let map = self.validators()?;
        Ok(map)
    }

    fn whole_headers(&self, _alloc: Global) -> Result<HeaderMap<HeaderValue>, NoMemory> {
        let map = self.whole()?;
        Ok(map)
    }

    fn part_headers(
        &self,
        _alloc: Global,
        range: HeaderValue,
    ) -> Result<HeaderMap<HeaderValue>, NoMemory> {
        let map = self.part(range)?;
        Ok(map)
    }
}
