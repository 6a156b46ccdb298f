//! Tokens (RFC 9110, section 5.6.2).
ghost use Rattle.std.specs.Prelude.{◌≡◌, IfOk};
ghost use Rattle.std.specs.List.{list_all};
ghost use Rattle.std.specs.Str.{str_to_ascii_lowercase};
ghost use Rattle.web_texts.specs.Tokens.{is_token, is_token_byte};

use crate::memory::NoMemory;
use crate::texts::text::Text;
use std::alloc::Global;

#[tactic(auto, unfolding(crate::specs::Tokens::is_token_byte))]
fn may_stand_in_token(b: u8) -> bool
    ensures { result ≡ is_token_byte b }
{
    b.is_ascii_alphanumeric() || b"!#$%&'*+-.^_`|~".contains(&b)
}

fn has_token_bytes(bytes: &[u8]) -> bool
    ensures { result ≡ list_all is_token_byte bytes.now }
{
    for b in bytes {
        if !may_stand_in_token(*b) {
            return false;
        }
    }
    true
}

/// Whether a text is a token: one or more letters, digits and the marks `!#$%&'*+-.^_|~` and
/// backquote.
pub fn is_token(text: &str) -> bool
    ensures { result ≡ is_token text.now }
{
    !text.is_empty() && has_token_bytes(text.as_bytes())
}

/// Copies a text with its ASCII letters in lower case.
pub fn to_lowercase(alloc: Global, text: &str) -> Result<Text, NoMemory>
    ensures { IfOk result (λ made. made ≡ str_to_ascii_lowercase text.now) }
{
    let mut made = String::from_str(alloc, text)?;
    made.make_ascii_lowercase();
    Ok(Text::from(made))
}

/// The text with its ASCII letters in lower case. It takes no memory.
pub fn in_lowercase(text: Text) -> Text
    ensures { result ≡ str_to_ascii_lowercase text }
{
    let mut made = text.into_string();
    made.make_ascii_lowercase();
    Text::from(made)
}
