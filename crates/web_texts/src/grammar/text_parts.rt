//! The parts of a text between the occurrences of a character.
ghost use Rattle.std.specs.Prelude.{◌≡◌, ◌<◌, ◌==◌, ◌∷◌, IfSome, length};
ghost use Rattle.std.specs.List.{slice_split};
ghost use Rattle.web_texts.specs.TextParts.{parts_behind};

use crate::grammar::cut::cut_at;

/// The part of a text before the first occurrence of an ASCII character, and the text after it. A
/// text without that character is one part.
pub fn first_part(text: &str, mark: u8) -> (&str, Option<&str>)
    requires { mark < 128 }
    ensures parts { slice_split (λ b. b == mark) text.now
        ≡ result.0.now ∷ parts_behind mark result.1 }
    ensures shorter { IfSome result.1 (λ rest. length rest.now < length text.now) }
{
    match cut_at(text, mark) {
        Some((part, behind)) => (part, Some(behind)),
        None => (text, None),
    }
}
