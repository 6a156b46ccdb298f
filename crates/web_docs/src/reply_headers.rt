//! What is said of content in the headers of a reply.
ghost use Rattle.std.specs.Prelude.{◌≡◌, IfOk};
ghost use Rattle.web_docs.specs.DescribedReplies.{part_headers};
ghost use Rattle.web_docs.specs.Descriptions.{Description, validator_headers, whole_headers};

use http_header::{HeaderMap, HeaderValue};
use httpdate::HttpDate;
use std::alloc::Global;
use web_entities::EntityTag;
use web_texts::NoMemory;

/// Content of which the description is known. Contracts see the description.
pub trait ReplyHeaders {
    ghost describes: { Self → Description };

    fn entity_tag(&self) -> &EntityTag
        ensures { result.now ≡ (describes self.now).tag };

    fn last_change(&self) -> Option<HttpDate>
        ensures { result ≡ (describes self.now).modified };

    /// The headers of a 304.
    fn validator_headers(&self, alloc: Global) -> Result<HeaderMap<HeaderValue>, NoMemory>
        ensures { IfOk result (λ map. map ≡ validator_headers (describes self.now)) };

    /// The headers of the whole content.
    fn whole_headers(&self, alloc: Global) -> Result<HeaderMap<HeaderValue>, NoMemory>
        ensures { IfOk result (λ map. map ≡ whole_headers (describes self.now)) };

    /// The headers of a part, with this value of Content-Range.
    fn part_headers(
        &self,
        alloc: Global,
        range: HeaderValue,
    ) -> Result<HeaderMap<HeaderValue>, NoMemory>
        ensures { IfOk result (λ map. map ≡ part_headers range (describes self.now)) };
}
