//! What is said of content that need not be in memory.
ghost use Rattle.std.specs.Prelude.{◌≡◌, ◌∷◌, [], IfOk, codes};
ghost use Rattle.std.specs.Option.{option_map};
ghost use Rattle.web_docs.specs.DescribedReplies.{part_headers as part_headers_lem};
ghost use Rattle.web_docs.specs.Descriptions.{MakesDescription, with_last_modified};
ghost use Rattle.web_docs.specs.Descriptions.{validator_headers as validator_headers_lem};
ghost use Rattle.web_docs.specs.Descriptions.{whole_headers as whole_headers_lem};
ghost use Rattle.web_docs.specs.Documents.{date_value};

use crate::header_maps::put;
use crate::reply_headers::ReplyHeaders;
use crate::stored::{date_field_value, field_value};
use http_header::{
    ACCEPT_RANGES, CONTENT_RANGE, CONTENT_TYPE, ETAG, HeaderMap, HeaderValue, LAST_MODIFIED,
};
use httpdate::HttpDate;
use std::alloc::Global;
use std::marker::Model;
use web_entities::EntityTag;
use web_texts::{Fail, InvalidHeaderValue, NoMemory};

/// What is said of content beside its bytes, as of a file: its media type, the tag of this version,
/// and when it was last changed, where that is known. The tag and the date are printed once.
#[derive(Drop)]
pub struct Described {
    media_type: HeaderValue,
    tag: EntityTag,
    modified: Option<HttpDate>,
    printed_tag: HeaderValue,
    printed_date: Option<HeaderValue>,
}

impl Model for Described {
    ghost use Rattle.std.specs.Prelude.{◌≡◌};
    ghost use Rattle.std.specs.Option.{option_map};
    ghost use Rattle.http_header.specs.FieldValue.{plain_value};
    ghost use Rattle.web_entities.specs.EntityTags.{tag_text};
    ghost use Rattle.web_docs.specs.Descriptions.{Description};
    ghost use Rattle.web_docs.specs.Documents.{date_value};

    ghost Value = { Description };

    ghost view = { λ d. record {
      media_type = d.media_type;
      tag = d.tag;
      modified = d.modified;
    } };

    ghost invariant = { λ d. (d.printed_tag ≡ plain_value (tag_text d.tag))
        × (d.printed_date ≡ option_map date_value d.modified) };
}

/// The value of Last-Modified, where there is a date.
fn some_date_value(
    alloc: Global,
    modified: Option<HttpDate>,
) -> Result<Option<HeaderValue>, NoMemory>
    ensures { IfOk result (λ value. value ≡ option_map date_value modified) }
{
    match modified {
        Some(date) => Ok(Some(date_field_value(alloc, date)?)),
        None => Ok(None),
    }
}

/// The headers with Last-Modified, where there is a value of it.
fn with_date(
    headers: HeaderMap<HeaderValue>,
    value: &Option<HeaderValue>,
) -> Result<HeaderMap<HeaderValue>, NoMemory>
    ensures { IfOk result (λ map. map ≡ with_last_modified headers value.now) }
{
    let mut map = headers;
    match value {
        Some(value) => {
            put(&mut map, LAST_MODIFIED, value.clone()?)?;
            Ok(map)
        }
        None => Ok(map),
    }
}

impl Described {
    /// A description. `media_type` is the value of Content-Type (RFC 9110, section 8.3). A weak tag
    /// answers no If-Match and no If-Range. Without a date there is no Last-Modified, and the dates
    /// of If-Modified-Since, If-Unmodified-Since and If-Range count for nothing. It returns
    /// `InvalidHeaderValue` where the tag may stand in no header, and `NoMemory` where allocation
    /// failed.
    pub fn new(
        alloc: Global,
        media_type: HeaderValue,
        tag: EntityTag,
        modified: Option<HttpDate>,
    ) -> Result<Described, Fail<InvalidHeaderValue>>
        ensures { MakesDescription
            (record { media_type = media_type; tag = tag; modified = modified }) result }
    {
        let printed = field_value(alloc, &tag)?;
        match printed {
            Some(printed_tag) => {
                let printed_date = some_date_value(alloc, modified)?;
                Ok(Described {
                    media_type,
                    tag,
                    modified,
                    printed_tag,
                    printed_date,
                })
            }
            None => Err(Fail::Of(InvalidHeaderValue)),
        }
    }

    /// The tag of this version.
    pub fn tag(&self) -> &EntityTag
        ensures { result.now ≡ self.now.tag }
    {
        &self.tag
    }

    /// When it was last changed, where that is known.
    pub fn modified(&self) -> Option<HttpDate>
        ensures { result ≡ self.now.modified }
    {
        self.modified
    }

    fn validators(&self, alloc: Global) -> Result<HeaderMap<HeaderValue>, NoMemory>
        ensures { IfOk result (λ map. map ≡ validator_headers_lem self.now) }
    {
        let mut map = HeaderMap::empty(alloc);
        put(&mut map, ETAG, self.printed_tag.clone()?)?;
        let dated = with_date(map, &self.printed_date)?;
        Ok(dated)
    }

    fn whole(&self, alloc: Global) -> Result<HeaderMap<HeaderValue>, NoMemory>
        ensures { IfOk result (λ map. map ≡ whole_headers_lem self.now) }
    {
        let mut map = HeaderMap::empty(alloc);
        put(&mut map, ACCEPT_RANGES, HeaderValue::from_static("bytes"))?;
        put(&mut map, CONTENT_TYPE, self.media_type.clone()?)?;
        put(&mut map, ETAG, self.printed_tag.clone()?)?;
        let dated = with_date(map, &self.printed_date)?;
        Ok(dated)
    }

    fn part(&self, alloc: Global, range: HeaderValue) -> Result<HeaderMap<HeaderValue>, NoMemory>
        ensures { IfOk result (λ map. map ≡ part_headers_lem range self.now) }
    {
        let mut map = self.whole(alloc)?;
        put(&mut map, CONTENT_RANGE, range)?;
        Ok(map)
    }
}

impl ReplyHeaders for Described {
    ghost describes = { λ d. d };

    fn entity_tag(&self) -> &EntityTag {
        self.tag()
    }

    fn last_change(&self) -> Option<HttpDate> {
        self.modified()
    }

    fn validator_headers(&self, alloc: Global) -> Result<HeaderMap<HeaderValue>, NoMemory> {
        let map = self.validators(alloc)?;
        Ok(map)
    }

    fn whole_headers(&self, alloc: Global) -> Result<HeaderMap<HeaderValue>, NoMemory> {
        let map = self.whole(alloc)?;
        Ok(map)
    }

    fn part_headers(
        &self,
        alloc: Global,
        range: HeaderValue,
    ) -> Result<HeaderMap<HeaderValue>, NoMemory> {
        let map = self.part(alloc, range)?;
        Ok(map)
    }
}
