//! The codings of a file.
ghost use Rattle.std.specs.Prelude.{◌≡◌};
ghost use Rattle.std.specs.Option.{option_map};
ghost use Rattle.web_folders.specs.FileCodings.{coding_name, encoding_of};

use http_header::HeaderValue;
use web_headers::Encoding;

/// The coding in which a file is stored.
#[derive(Clone, Copy, Debug, PartialEq, Eq)]
pub(crate) enum FileCoding {
    /// None: the file as it is.
    Identity,
    /// Brotli, in `NAME.br`.
    Brotli,
    /// gzip, in `NAME.gz`.
    Gzip,
}

impl FileCoding {
    pub(crate) fn encoding(self) -> Encoding
        ensures { result ≡ encoding_of self }
    {
        match self {
            FileCoding::Identity => Encoding::identity(),
            FileCoding::Brotli => Encoding::brotli(),
            FileCoding::Gzip => Encoding::gzip(),
        }
    }

    /// The value of Content-Encoding (RFC 9110, section 8.4), if the file is coded.
    pub(crate) fn value(self) -> Option<HeaderValue>
        ensures { result ≡ coding_name self }
    {
        match self {
            FileCoding::Identity => None,
            FileCoding::Brotli => Some(HeaderValue::from_static("br")),
            FileCoding::Gzip => Some(HeaderValue::from_static("gzip")),
        }
    }
}
