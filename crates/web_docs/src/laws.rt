//! What follows for the parts that are sent, and for replies.
ghost use Rattle.web_docs.specs.DocumentFunctions.{OneDocumentReply};
ghost use Rattle.web_docs.specs.PartLaws.{PartLaw};

/// The bytes at the positions that a byte range selects are one list: those from the least to the
/// greatest of its positions, each of them in its place.
pub fn part_law()
    ensures { PartLaw }
{}

/// A request for a document has one reply. It is a function of the document and of the request's
/// head, which has the bytes of a part as a slice.
pub fn document_law()
    ensures { OneDocumentReply }
{}
