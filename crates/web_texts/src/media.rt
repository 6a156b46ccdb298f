//! Media types, character sets, languages and qualities.
pub(crate) mod charsets;
pub(crate) mod language_tag;
pub(crate) mod media_names;
pub(crate) mod media_text;
pub(crate) mod media_type;
pub(crate) mod quality_item;
pub(crate) mod quality_value;
pub(crate) mod written_media;
