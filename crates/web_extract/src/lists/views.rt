//! How callers see the values of arguments.
use http_uri::Uri;
use web_body::Payload;
use web_request::{App, HttpRequest, Source};

/// How callers see the values of a type, for the laws of lists. Two values that are seen as the
/// same may differ, as two texts with the same bytes in different memory.
pub trait View<T> {
    /// What callers see.
    ghost Seen: { Type 0 };

    /// The value as callers see it.
    ghost view: { T → Seen };
}

/// The value itself.
pub struct Itself;

impl<T> View<T> for Itself {
    ghost Seen = { T };

    ghost view = { λ v. v };
}

/// A text, by its bytes.
pub struct ByBytes;

impl View<String> for ByBytes {
    ghost use Rattle.std.specs.Prelude.{ℕ, List, string_bytes};

    ghost Seen = { List ℕ };

    ghost view = { λ s. string_bytes s };
}

/// A request, without its record.
pub struct RequestAlone;

impl<P: App> View<HttpRequest<P>> for RequestAlone {
    ghost use Rattle.web_request.specs.Request.{Request};

    ghost Seen = { Request P.Layer P.Local P.Conn };

    ghost view = { λ r. r.request };
}

/// A request target, by its parts.
pub struct ByParts;

impl View<Uri> for ByParts {
    ghost use Rattle.web_request.specs.Head.{Target, uri_view};

    ghost Seen = { Target };

    ghost view = { λ u. uri_view u };
}

/// A payload, by the marks that it states.
pub struct ByMarks;

impl<S: Source> View<Payload<S>> for ByMarks {
    ghost use Rattle.std.specs.Prelude.{List, Option};
    ghost use Rattle.web_body.specs.Payload.{payload_feed};
    ghost use Rattle.web_request.specs.declared.source.Mark.{Mark};

    ghost Seen = { Option (List Mark) };

    ghost view = { λ p. (payload_feed S.feed p).marks };
}
