//! Text that is borrowed or owned.

use web_texts::Text;

/// Text that is borrowed or owned, for use where actix-web takes a `Cow<str>`.
#[derive(Debug, Drop)]
pub enum CowStr<'a> {
    Borrowed(&'a str),
    Owned(Text),
}
