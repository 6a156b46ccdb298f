//! What callers may rely on for tags, content ranges and If-Range, over the definitions.
ghost use Rattle.web_headers.specs.HeaderLaws.{SaysOneThing};
ghost use Rattle.web_entities.specs.EntityLaws.{TagEquality, ReadBack};

use crate::if_range::IfRange;
use web_headers::Header;

/// Weak equality of tags is an equivalence; strong equality is symmetric and transitive, implies
/// weak equality, and is reflexive exactly on strong tags.
pub fn tag_equality_law()
    ensures { TagEquality }
{}

/// A tag reads back equal from its printed text. So does a content range whose first is at most its
/// last, or whose unit is not `bytes` and holds no space.
pub fn read_back_law()
    ensures { ReadBack }
{}

/// The values of If-Range say exactly one thing: the tag of the first value, its date where it is
/// no tag, or none.
pub fn if_range_law()
    ensures { SaysOneThing ⟦<IfRange as Header>⟧.says }
{}
