//! What callers may rely on for headers of one date, over the definitions.
ghost use Rattle.web_headers.specs.HeaderLaws.{SaysOneThing, ShowsOneDate};

use crate::dates::date_header::Date;
use crate::dates::expires_header::Expires;
use crate::dates::if_modified_since::IfModifiedSince;
use crate::dates::if_unmodified_since::IfUnmodifiedSince;
use crate::dates::last_modified::LastModified;
use crate::typed_header::Header;

/// A text shows one date at most. So the values of each header of one date say exactly one thing:
/// the date of the first value, or none.
///
/// The contract is a law, for callers to cite in proofs; a call of it has no effect.
pub fn date_law()
    ensures text { ShowsOneDate }
    ensures date { SaysOneThing ⟦<Date as Header>⟧.says }
    ensures expires { SaysOneThing ⟦<Expires as Header>⟧.says }
    ensures if_modified_since { SaysOneThing ⟦<IfModifiedSince as Header>⟧.says }
    ensures if_unmodified_since { SaysOneThing ⟦<IfUnmodifiedSince as Header>⟧.says }
    ensures last_modified { SaysOneThing ⟦<LastModified as Header>⟧.says }
{}
