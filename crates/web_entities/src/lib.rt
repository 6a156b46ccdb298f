//! Entity tags, ranges and dispositions: the headers of HTTP that speak of a representation.
#![tactic(auto)]

mod checked_name;
mod content_disposition;
mod content_range;
mod disposition_param;
mod disposition_places;
mod disposition_text;
mod e_tag;
mod entity;
mod if_match;
mod if_none_match;
mod if_range;
mod laws;
mod place_laws;
mod ranges;
mod tag_list;

pub use content_disposition::{ContentDisposition, DispositionType};
pub use content_range::{ContentRange, ContentRangeSpec};
pub use disposition_param::DispositionParam;
pub use e_tag::ETag;
pub use entity::{Comparison, EntityTag};
pub use if_match::IfMatch;
pub use if_none_match::IfNoneMatch;
pub use if_range::IfRange;
pub use laws::{if_range_law, read_back_law, tag_equality_law};
pub use place_laws::{
    disposition_quote_law, disposition_semicolon_law, media_semicolon_law, tag_comma_law,
};
pub use ranges::{ByteRangeSpec, Range};
