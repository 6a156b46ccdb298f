//! The parts of a form in every cutting of the body, and what they leave of it.
ghost use Rattle.web_request.specs.Request.{Request};
ghost use Rattle.web_extract.specs.FirstTaker.{LeavesAllOrNone};
ghost use Rattle.web_cutting.specs.CutFree.{CutFree};

use web_extract::FromRequest;
use web_multipart::Multipart;
use web_request::App;

/// `Multipart` allows the same results in every cutting of the body, and leaves the same of it: the
/// parts and how they end do not depend on where pieces begin, nor does the first error. Only the
/// number of polls may differ.
///
/// The contract is a law, for callers to cite in proofs; a call of it has no effect.
pub fn multipart_cutting_law<P: App, const PART: usize>()
    ensures { (q : Request P.Layer P.Local P.Conn)
        → CutFree (⟦<Multipart<PART> as FromRequest<P>>⟧.means q) }
{}

/// `Multipart` leaves all of the body or none.
///
/// The contract is a law, for callers to cite in proofs; a call of it has no effect.
pub fn multipart_taking_law<P: App, const PART: usize>()
    ensures { (q : Request P.Layer P.Local P.Conn)
        → LeavesAllOrNone (⟦<Multipart<PART> as FromRequest<P>>⟧.means q) }
{}
