//! A text cut at a mark, but not where a mode says that the mark does not cut.
ghost use Rattle.std.specs.Prelude.{◌≡◌, ◌∷◌, ◌<◌, [], MatchOption, IfSome, length};
ghost use Rattle.web_texts.specs.Pieces.{Rule, ends_piece, pieces, IsFirstPiece, IsFirstPlace};

/// The mode of a reader at a place in a text, as inside or outside of quotes. A text is cut at each
/// mark at which its mode ends a piece, and each piece starts in the first mode.
pub trait Mode: Copy {
    /// The mark, the modes in which it cuts, and the mode after each byte.
    ghost rule: { Rule Self };

    /// The mode in which each piece starts.
    fn first() -> Self
        ensures { result ≡ rule.start };

    /// Whether this byte ends the piece.
    fn ends(self, b: u8) -> bool
        ensures { result ≡ ends_piece rule self b };

    /// The mode after this byte.
    fn behind(self, b: u8) -> Self
        ensures { result ≡ rule.next self b };

    ghost ascii: { rule.mark < 128 };
}

/// The place of the first mark that ends a piece.
fn piece_end<M: Mode>(text: &[u8]) -> Option<usize>
    ensures { MatchOption result (pieces M.rule M.rule.start text.now ≡ text.now ∷ [])
        (λ i. IsFirstPlace M.rule i text.now) }
{
    let mut mode = M::first();
    for (i, b) in text.iter().enumerate() {
        if mode.ends(*b) {
            return Some(i);
        }
        mode = mode.behind(*b);
    }
    None
}

/// The first piece of a text, and the text after its mark, if it has one.
pub fn first_piece<M: Mode>(text: &str) -> (&str, Option<&str>)
    ensures pieces { IsFirstPiece M.rule text.now result.0.now result.1 }
    ensures shorter { IfSome result.1 (λ rest. length rest.now < length text.now) }
{
    match piece_end::<M>(text.as_bytes()) {
        Some(i) => (&text[..i], Some(&text[i + 1..])),
        None => (text, None),
    }
}
