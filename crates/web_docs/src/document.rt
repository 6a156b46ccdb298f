//! Documents, and what is wrong with them.
use bytes::Bytes;
use httpdate::HttpDate;
use std::error::Error;
use std::fmt;
use web_entities::EntityTag;
use web_texts::{Mime, Text};

/// A document in memory, with what is sent beside it.
#[derive(Drop)]
pub struct Document {
    /// The path of the request target under which it is found, byte for byte, as `/doc/a`. A path
    /// that a client may spell with other percent-encodings is another path.
    pub path: Text,
    /// Content-Type (RFC 9110, section 8.3).
    pub media_type: Mime,
    /// The tag of this version (RFC 9110, section 8.8.3). A weak tag answers no If-Match and no
    /// If-Range.
    pub tag: EntityTag,
    /// When it was last changed (RFC 9110, section 8.8.2), in whole seconds.
    pub modified: HttpDate,
    /// The content. Replies share it.
    pub body: Bytes,
}

/// Why a list of documents is no store. Each variant has the path of the first document that is
/// wrong.
#[derive(Debug, Drop, PartialEq, Eq)]
pub enum StoreFault {
    /// An earlier document has the same path.
    DuplicatePath(Text),
    /// The media type or the tag may stand in no header value (RFC 9110, section 5.5).
    Value(Text),
}

impl fmt::Display for StoreFault {
    ghost use Rattle.std.specs.Prelude.{Some};
    ghost use Rattle.web_docs.specs.StoreFaultTexts.{store_fault_text};

    ghost output = { λ fault. Some (store_fault_text fault) };

    fn fmt<W: fmt::Write>(&self, f: &mut fmt::Formatter<W>) -> fmt::Result {
        match self {
            StoreFault::DuplicatePath(path) => {
                write!(f, "more than one document has the path {path}")
            }
            StoreFault::Value(path) => {
                write!(f, "no header can have the media type or the tag of {path}")
            }
        }
    }
}

impl Error for StoreFault {}
