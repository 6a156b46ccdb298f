//! What every crate of Rothveng needs: failed allocations, texts, lists, numbers, and readers of
//! text.
#![tactic(auto)]

mod errors;
mod grammar;
mod media;
mod memory;
mod texts;

pub use errors::{ContentTypeError, InvalidHeaderValue, MimeFault, ParseError, TagFault};
pub use grammar::blanks::{trim, trim_bytes, trim_end, trim_front};
pub use grammar::cut::{cut_at, cut_at_last, cut_first, split_once_at};
pub use grammar::extended_value::{ExtendedValue, parse_extended_value};
pub use grammar::header_texts::{first_text, header_text};
pub use grammar::header_value::{TryIntoHeaderValue, printed_value};
pub use grammar::piece_items::{push_items, push_pieces, read_each};
pub use grammar::pieces::{Mode, first_piece};
pub use grammar::quoted_text::{unescape, unquoted};
pub use grammar::readers::ReadText;
pub use grammar::text_parts::first_part;
pub use grammar::tokens::{is_token, to_lowercase};
pub use media::charsets::Charset;
pub use media::language_tag::LanguageTag;
pub use media::media_names::{
    APPLICATION_JSON, APPLICATION_OCTET_STREAM, APPLICATION_WWW_FORM_URLENCODED, IMAGE_STAR,
    STAR_STAR, TEXT_HTML, TEXT_HTML_UTF_8, TEXT_PLAIN, TEXT_PLAIN_UTF_8, TEXT_STAR, TEXT_XML,
};
pub use media::media_type::Mime;
pub use media::quality_item::QualityItem;
pub use media::quality_value::{Quality, q};
pub use memory::compact::{push_compact, push_single};
pub use memory::duplicate::Duplicate;
pub use memory::{Fail, NoMemory};
pub use texts::byte_strings::bytes_equal;
pub use texts::digits::{next_digit, number_of, read_digits};
pub use texts::items::Items;
pub use texts::pair::Pair;
pub use texts::text::Text;
