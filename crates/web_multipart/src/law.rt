//! What `Multipart` means, as the contract of a function that callers cite in proofs. A call of it
//! has no effect.
ghost use Rattle.std.specs.Prelude.{List};
ghost use Rattle.web_request.specs.Request.{Request};
ghost use Rattle.web_request.specs.declared.source.Mark.{Mark};
ghost use Rattle.web_extract.specs.ListResults.{Exactly};
ghost use Rattle.web_multipart.specs.MultipartArgument.{limit_of, multipart_rest};
ghost use Rattle.web_multipart.specs.MultipartArgument.{multipart_result};

use crate::multipart::Multipart;
use web_extract::FromRequest;
use web_request::App;

/// `Multipart` allows exactly one result for each request and marks, and leaves one rest of them:
/// all parts in order or the first error, after as many polls as the body stalls before the end or
/// the error is known.
pub fn multipart_law<P: App, const PART: usize>()
    ensures { (q : Request P.Layer P.Local P.Conn) (m : List Mark) → Exactly
        (⟦<Multipart<PART> as FromRequest<P>>⟧.means q) m
        (multipart_rest (limit_of PART) q.head.headers m)
        (multipart_result (limit_of PART) q.head.headers m) }
{}
