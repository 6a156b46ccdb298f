//! The parts of a body as an argument.
ghost use Rattle.std.specs.Prelude.{◌≡◌, ◌≤◌, length};

use crate::multipart_future::MultipartExtractFut;
use std::alloc::Global;
use std::marker::Model;
use web_body::Payload;
use web_extract::FromRequest;
use web_multipart_stream::{MultipartStream, Part};
use web_reply::Error;
use web_request::{App, HttpRequest, NoMemory};

/// The most parts of a form.
pub const MOST_PARTS: usize = 64;

const _: () = prove!(MOST_PARTS == 64);

/// The greatest limit of a part, in bytes.
const GREATEST_LIMIT: usize = 4_611_686_018_427_387_904;

/// The parts of a body of `multipart/form-data` (RFC 7578), in order: at most 64, of at most `PART`
/// bytes each, or 2^62 where `PART` is greater.
///
/// A body that is refused gives the first `MultipartError`, as a cause of the application with its
/// status and its text. Where that is `MultipartError::ContentType`, the payload is left.
/// Content-Length is not looked at: the limit is that of each part.
#[derive(Drop)]
pub struct Multipart<const PART: usize> {
    parts: Vec<Part>,
}

impl<const PART: usize> Model for Multipart<PART> {
    ghost use Rattle.std.specs.Prelude.{◌≤◌, List, length};
    ghost use Rattle.web_multipart_parts.specs.declared.part.Part.{Part as Seen};

    ghost Value = { List Seen };

    ghost view = { λ m. m.parts.items };

    ghost invariant = { λ m. length m.parts.items ≤ 64 };
}

impl<const PART: usize> Multipart<PART> {
    pub(crate) fn new(parts: Vec<Part>) -> Multipart<PART>
        requires { length parts.items ≤ 64 }
        ensures { result ≡ parts.items }
    {
        Multipart { parts }
    }

    /// The parts, at most 64, in the order of the body.
    pub fn parts(&self) -> &[Part]
        ensures parts { result.now ≡ self.now }
        ensures few { length result.now ≤ 64 }
    {
        self.parts.as_slice()
    }

    /// The same, to keep.
    pub fn into_parts(self) -> Vec<Part>
        ensures parts { result.items ≡ self.entry }
        ensures few { length result.items ≤ 64 }
    {
        let Multipart { parts } = self;
        parts
    }
}

impl<A: App, const PART: usize> FromRequest<A> for Multipart<PART> {
    ghost use Rattle.web_extract.specs.SomeAnswer.{itself};
    ghost use Rattle.web_multipart.specs.MultipartArgument.{MeansMultipart, limit_of};
    ghost use Rattle.web_multipart.specs.MultipartArgument.{multipart_some};

    type Error = Error;

    type Future = MultipartExtractFut<A::Source, PART>;

    ghost means = { λ q m rest n x. MeansMultipart (limit_of PART) q.head.headers m rest n x };

    ghost some = { λ q m. multipart_some (limit_of PART) q.head.headers m };

    ghost converted = { itself };

    fn from_request(
        alloc: Global,
        req: &HttpRequest<A>,
        payload: &mut Payload<A::Source>,
    ) -> Result<MultipartExtractFut<A::Source, PART>, NoMemory> {
        let stream = MultipartStream::new(alloc, req, payload, PART.min(GREATEST_LIMIT))?;
        Ok(MultipartExtractFut::new(alloc, stream))
    }
}
