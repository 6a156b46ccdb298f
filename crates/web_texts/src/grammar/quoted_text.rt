//! Quoted text (RFC 9110, section 5.6.4).
ghost use Rattle.std.specs.Prelude.{◌≡◌, IfOk};
ghost use Rattle.web_texts.specs.Bytes.{unquoted, unquoted_end, unquoted_front};
ghost use Rattle.web_texts.specs.QuotedText.{is_closed as closed_test, unescaped};

use crate::grammar::cut::split_str_once;
use crate::memory::NoMemory;
use crate::texts::text::Text;
use std::alloc::Global;

/// Whether the one quote that no backslash keeps is the last byte.
pub fn is_closed(text: &[u8]) -> bool
    ensures { result ≡ closed_test text.now }
{
    let mut rest = text;
    'bytes: loop {
        match rest {
            [] => return false,
            [b] => return *b == b'"',
            [b'\\', _, after @ ..] => rest = after,
            [b'"', ..] => return false,
            [_, after @ ..] => rest = after,
        }
    }
}

/// Copies the text without the backslashes that keep a byte: each of them keeps the next byte as it
/// is, also a backslash.
pub fn unescape(alloc: Global, text: &str) -> Result<Text, NoMemory>
    ensures { IfOk result (λ made. made ≡ unescaped text.now) }
{
    let mut made = String::new(alloc);
    let mut rest = text;
    'parts: loop {
        match split_str_once(rest, b'\\') {
            None => {
                made.push_str(rest)?;
                return Ok(Text::from(made));
            }
            Some((before, after)) => {
                made.push_str(before)?;
                if after.starts_with('\\') {
                    made.push('\\')?;
                    rest = &after[1..];
                } else {
                    rest = after;
                }
            }
        }
    }
}

/// The text without all double quotes at both ends.
pub fn unquoted(text: &str) -> &str
    ensures { result.now ≡ unquoted text.now }
{
    unquoted_end(unquoted_front(text))
}

fn unquoted_front(text: &str) -> &str
    ensures { result.now ≡ unquoted_front text.now }
{
    let mut rest = text;
    'quotes: while rest.starts_with('"') {
        rest = &rest[1..];
    }
    rest
}

fn unquoted_end(text: &str) -> &str
    ensures { result.now ≡ unquoted_end text.now }
{
    let mut rest = text;
    'quotes: while rest.ends_with('"') {
        rest = &rest[..rest.len() - 1];
    }
    rest
}
