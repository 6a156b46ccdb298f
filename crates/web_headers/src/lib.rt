//! Typed headers of HTTP: how they are read from a header map and what values they give.
#![tactic(auto)]

mod accepts;
mod allow_header;
mod cache_control;
mod checked_directive;
mod codings;
mod content_language;
mod content_length;
mod content_type;
mod dates;
mod laws;
mod list_reader;
mod printed_list;
mod text_writer;
mod typed_header;
mod value_readers;

pub use accepts::accept_charset::AcceptCharset;
pub use accepts::accept_encoding::AcceptEncoding;
pub use accepts::accept_header::Accept;
pub use accepts::accept_language::AcceptLanguage;
pub use accepts::preferences::Preference;
pub use allow_header::Allow;
pub use cache_control::{CacheControl, CacheDirective};
pub use codings::{ContentEncoding, Encoding};
pub use content_language::ContentLanguage;
pub use content_length::ContentLength;
pub use content_type::ContentType;
pub use dates::date_header::Date;
pub use dates::date_reader::from_one_date;
pub use dates::expires_header::Expires;
pub use dates::if_modified_since::IfModifiedSince;
pub use dates::if_unmodified_since::IfUnmodifiedSince;
pub use dates::last_modified::LastModified;
pub use laws::date_law;
pub use printed_list::fmt_comma_delimited;
pub use text_writer::Writer;
pub use typed_header::Header;
pub use value_readers::{
    EachComma, from_comma_delimited, from_one_raw_str, from_one_value, from_pieces,
};
pub use web_texts::{TryIntoHeaderValue, printed_value};
