//! Content codings.
ghost use Rattle.std.specs.Prelude.{◌≡◌};
ghost use Rattle.std.specs.Str.{str_eq_ignore_ascii_case};
ghost use Rattle.web_headers.specs.Codings.{known_coding as known_spec, coding_text};
ghost use Rattle.web_headers.specs.declared.codings.Encoding.TheVariants as encoding;
ghost use Rattle.web_headers.specs.declared.codings.ContentEncoding.TheVariants as coding;

use std::alloc::Global;
use std::fmt;
use web_texts::{Duplicate, Fail, NoMemory, ParseError, ReadText, Text};

/// A coding of content that is known (RFC 9110, section 8.4.1).
#[derive(Clone, Copy, Debug, PartialEq, Eq, Hash)]
pub enum ContentEncoding {
    /// No coding.
    Identity,
    /// Brotli (RFC 7932), whose name is `br`.
    Brotli,
    /// The zlib format (RFC 1950).
    Deflate,
    /// The gzip format (RFC 1952).
    Gzip,
    /// Zstandard (RFC 8878).
    Zstd,
}

impl ContentEncoding {
    /// The name of the coding, in lower case.
    pub fn as_str(&self) -> &str
        ensures { result.now ≡ coding_text self.now }
    {
        match self {
            ContentEncoding::Identity => "identity",
            ContentEncoding::Brotli => "br",
            ContentEncoding::Deflate => "deflate",
            ContentEncoding::Gzip => "gzip",
            ContentEncoding::Zstd => "zstd",
        }
    }
}

/// A coding in a list of codings: one that is known, or any other text as it is written.
#[derive(Debug, Drop, PartialEq, Eq, Hash)]
pub enum Encoding {
    /// A coding that is known.
    Known(ContentEncoding),
    /// Any other text.
    Unknown(Text),
}

impl Encoding {
    /// No coding.
    pub const fn identity() -> Encoding
        ensures { result ≡ encoding.Known coding.Identity }
    {
        Encoding::Known(ContentEncoding::Identity)
    }

    /// Brotli.
    pub const fn brotli() -> Encoding
        ensures { result ≡ encoding.Known coding.Brotli }
    {
        Encoding::Known(ContentEncoding::Brotli)
    }

    /// The zlib format.
    pub const fn deflate() -> Encoding
        ensures { result ≡ encoding.Known coding.Deflate }
    {
        Encoding::Known(ContentEncoding::Deflate)
    }

    /// The gzip format.
    pub const fn gzip() -> Encoding
        ensures { result ≡ encoding.Known coding.Gzip }
    {
        Encoding::Known(ContentEncoding::Gzip)
    }

    /// Zstandard.
    pub const fn zstd() -> Encoding
        ensures { result ≡ encoding.Known coding.Zstd }
    {
        Encoding::Known(ContentEncoding::Zstd)
    }
}

fn is_same(a: &str, b: &str) -> bool
    ensures { result ≡ str_eq_ignore_ascii_case a.now b.now }
{
    a.eq_ignore_ascii_case(b)
}

fn known_coding(text: &str) -> Option<ContentEncoding>
    ensures { result ≡ known_spec text.now }
{
    if is_same(text, "identity") {
        Some(ContentEncoding::Identity)
    } else if is_same(text, "br") {
        Some(ContentEncoding::Brotli)
    } else if is_same(text, "deflate") {
        Some(ContentEncoding::Deflate)
    } else if is_same(text, "gzip") {
        Some(ContentEncoding::Gzip)
    } else if is_same(text, "zstd") {
        Some(ContentEncoding::Zstd)
    } else {
        None
    }
}

impl ReadText for Encoding {
    ghost use Rattle.std.specs.Prelude.{IfSome};
    ghost use Rattle.web_texts.specs.TextReaders.{Reads};
    ghost use Rattle.web_texts.specs.TextReaders.{NeverNoMemory};
    ghost use Rattle.web_headers.specs.Codings.{encoding_of, known_coding as known_spec};

    ghost reads = { encoding_of };

    /// Reads a coding, in any ASCII case where it is known, which takes no memory. It is never
    /// `ParseError::Header`.
    fn parse(alloc: Global, text: &str) -> Result<Encoding, Fail<ParseError>>
        ensures value { Reads result (encoding_of text.now) }
        ensures memory { IfSome (known_spec text.now) (λ _. NeverNoMemory result) }
    {
        match known_coding(text) {
            Some(coding) => Ok(Encoding::Known(coding)),
            None => Ok(Encoding::Unknown(Text::of(alloc, text)?)),
        }
    }
}

impl Duplicate for Encoding {
    ghost use Rattle.std.specs.Prelude.{◌≡◌, Ok, IfOk};
    ghost use Rattle.web_headers.specs.Codings.{TakesNoMemory};

    /// A copy. That of a known coding takes no memory.
    fn duplicate(&self, alloc: Global) -> Result<Encoding, NoMemory>
        ensures value { IfOk result (λ copy. copy ≡ self.now) }
        ensures memory { TakesNoMemory self.now → result ≡ Ok self.now }
    {
        match self {
            Encoding::Known(coding) => Ok(Encoding::Known(*coding)),
            Encoding::Unknown(text) => Ok(Encoding::Unknown(text.duplicate(alloc)?)),
        }
    }
}

impl fmt::Display for Encoding {
    ghost use Rattle.std.specs.Prelude.{Some};
    ghost use Rattle.web_headers.specs.Codings.{encoding_text};

    ghost output = { λ e. Some (encoding_text e) };

    fn fmt<W: fmt::Write>(&self, f: &mut fmt::Formatter<W>) -> fmt::Result {
        match self {
            Encoding::Known(coding) => f.write_str(coding.as_str()),
            Encoding::Unknown(text) => f.write_str(text.as_str()),
        }
    }
}
