//! Why a text, or a header, could not be read or written.

use std::fmt;

/// The text is outside the grammar of the type that is read from it; or a header is absent where
/// one is needed, or its value is outside that header's grammar.
#[derive(Clone, Copy, Debug, PartialEq, Eq)]
pub enum ParseError {
    /// A header, or a part of one, is not valid.
    Header,
}

impl fmt::Display for ParseError {
    ghost use Rattle.std.specs.Prelude.{Some, codes};

    ghost output = { λ _. Some (codes "invalid header") };

    fn fmt<W: fmt::Write>(&self, f: &mut fmt::Formatter<W>) -> fmt::Result {
        f.write_str("invalid header")
    }
}

/// Why the content type of a message is not usable.
#[derive(Clone, Copy, Debug, PartialEq, Eq)]
pub enum ContentTypeError {
    /// Content-Type is no media type.
    ParseError,
    /// Its charset is not UTF-8.
    UnknownEncoding,
}

impl fmt::Display for ContentTypeError {
    ghost use Rattle.std.specs.Prelude.{Some};
    ghost use Rattle.web_texts.specs.ContentTypeTexts.{content_type_error_text};

    ghost output = { λ e. Some (content_type_error_text e) };

    fn fmt<W: fmt::Write>(&self, f: &mut fmt::Formatter<W>) -> fmt::Result {
        f.write_str(match self {
            ContentTypeError::ParseError => "can not parse content type",
            ContentTypeError::UnknownEncoding => "unknown content encoding",
        })
    }
}

/// The text is no media type (RFC 9110, section 8.3.1).
#[derive(Clone, Copy, Debug, PartialEq, Eq)]
pub struct MimeFault;

impl fmt::Display for MimeFault {
    ghost use Rattle.std.specs.Prelude.{Some, codes};

    ghost output = { λ _. Some (codes "invalid media type") };

    fn fmt<W: fmt::Write>(&self, f: &mut fmt::Formatter<W>) -> fmt::Result {
        f.write_str("invalid media type")
    }
}

/// The text is no language tag.
#[derive(Clone, Copy, Debug, PartialEq, Eq)]
pub struct TagFault;

impl fmt::Display for TagFault {
    ghost use Rattle.std.specs.Prelude.{Some, codes};

    ghost output = { λ _. Some (codes "invalid language tag") };

    fn fmt<W: fmt::Write>(&self, f: &mut fmt::Formatter<W>) -> fmt::Result {
        f.write_str("invalid language tag")
    }
}

/// The text may not stand in a header value (RFC 9110, section 5.5).
#[derive(Clone, Copy, Debug, PartialEq, Eq)]
pub struct InvalidHeaderValue;

impl fmt::Display for InvalidHeaderValue {
    ghost use Rattle.std.specs.Prelude.{Some, codes};

    ghost output = { λ _. Some (codes "invalid header value") };

    fn fmt<W: fmt::Write>(&self, f: &mut fmt::Formatter<W>) -> fmt::Result {
        f.write_str("invalid header value")
    }
}
