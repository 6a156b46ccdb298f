//! Splitting texts and byte strings at a byte.
ghost use Rattle.std.specs.Prelude.{◌≡◌, ◌<◌, ◌==◌, position, MatchOption, length};
ghost use Rattle.std.specs.List.{before_first, after_first, position_or_len};
ghost use Rattle.std.specs.Option.{option_map};
ghost use Rattle.web_texts.specs.Cut.{IsCut, split_once, split_at_last};

fn position_of(text: &[u8], byte: u8) -> Option<usize>
    ensures { result ≡ position (λ b. b == byte) text.now }
{
    text.iter().position(|b| *b == byte)
}

/// Splits a text at the first occurrence of a byte, which is in neither part. Returns `None` where
/// the byte does not occur.
pub fn split_once_at(text: &[u8], byte: u8) -> Option<(&[u8], &[u8])>
    ensures { MatchOption result (position_or_len (λ b. b == byte) text.now ≡ length text.now)
        (λ parts. IsCut byte text.now parts.0.now parts.1.now) }
{
    match position_of(text, byte) {
        Some(at) => Some((&text[..at], &text[at + 1..])),
        None => None,
    }
}

/// As `split_once_at`, but where the byte does not occur, the first part is the whole text and the
/// second one is empty.
pub fn cut_first(text: &[u8], byte: u8) -> (&[u8], &[u8])
    ensures before { result.0.now ≡ before_first (λ b. b == byte) text.now }
    ensures after { result.1.now ≡ after_first (λ b. b == byte) text.now }
{
    match split_once_at(text, byte) {
        Some(parts) => parts,
        None => (text, &[]),
    }
}

/// As `split_once_at`, for a text and an ASCII character.
pub fn split_str_once(text: &str, mark: u8) -> Option<(&str, &str)>
    requires { mark < 128 }
    ensures { MatchOption result (position_or_len (λ b. b == mark) text.now ≡ length text.now)
        (λ parts. IsCut mark text.now parts.0.now parts.1.now) }
{
    text.split_once(char::from(mark))
}

/// Splits a text at the first occurrence of an ASCII character, which is in neither part. Returns
/// `None` where the character does not occur.
pub fn cut_at(text: &str, mark: u8) -> Option<(&str, &str)>
    requires { mark < 128 }
    ensures { option_map (λ parts. (parts.0.now, parts.1.now)) result ≡ split_once mark text.now }
{
    match split_str_once(text, mark) {
        Some(parts) => Some(parts),
        None => None,
    }
}

/// As `cut_at`, at the last occurrence.
pub fn cut_at_last(text: &str, mark: u8) -> Option<(&str, &str)>
    requires { mark < 128 }
    ensures { option_map (λ parts. (parts.0.now, parts.1.now)) result
        ≡ split_at_last mark text.now }
{
    match text.rfind(char::from(mark)) {
        Some(place) => Some((&text[..place], &text[place + 1..])),
        None => None,
    }
}
