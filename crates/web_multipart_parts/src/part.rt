//! A part, and why there is none.
use bytes::Bytes;
use web_texts::{Mime, Text};

/// A part of a multipart body.
#[derive(Drop)]
pub struct Part {
    /// The name of the form's field.
    pub name: Text,
    /// The name of a file, where there is one.
    pub filename: Option<Text>,
    /// The media type, where there is one.
    pub media_type: Option<Mime>,
    /// The content.
    pub body: Bytes,
}

/// Why a body is no multipart body, or not one that is taken.
#[derive(Clone, Copy, Debug, PartialEq, Eq)]
pub enum PartError {
    /// A boundary is not followed by a part or the end, or a head has 4,096 bytes and no end.
    Grammar,
    /// The head of a part has a line that is no field, more than 16 lines, no Content-Disposition
    /// of form data with a name, or a Content-Type that is no media type (RFC 7578, section 4).
    Head,
    /// There are more than 64 parts.
    TooMany,
    /// The content of a part is longer than the limit.
    PartOverflow,
}
