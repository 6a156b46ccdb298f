//! Media types that are compared as they are written, without reading them.
ghost use Rattle.std.specs.Prelude.{◌≡◌, ◌⊎◌, ◌∷◌, ◌++◌, true, IfSome};
ghost use Rattle.web_texts.specs.WrittenMediaTypes.{ArePlain, ParameterThen};

use crate::grammar::tokens::is_token;
use crate::texts::byte_strings::bytes_equal;
use crate::texts::pair::Pair;

/// What stands after this front of a text.
#[tactic(auto, using(crate::proofs::WrittenMediaLemmas::behind_is))]
pub fn behind<'a>(text: &'a [u8], front: &[u8]) -> Option<&'a [u8]>
    ensures { IfSome result (λ rest. text.now ≡ front.now ++ rest.now) }
{
    if text.len() < front.len() {
        return None;
    }
    let (start, rest) = text.split_at(front.len());
    if !bytes_equal(start, front) {
        return None;
    }
    Some(rest)
}

/// A text without the space that it may begin with.
fn without_space(text: &[u8]) -> &[u8]
    ensures { (text.now ≡ result.now) ⊎ (text.now ≡ 32 ∷ result.now) }
{
    match behind(text, b" ") {
        Some(rest) => rest,
        None => text,
    }
}

/// What stands after a parameter that is written without quotes, after a semicolon and at most
/// one space.
fn behind_parameter<'a>(text: &'a [u8], param: &Pair) -> Option<&'a [u8]>
    ensures { IfSome result (λ rest. ParameterThen param.now text.now rest.now) }
{
    if !is_token(param.value()) {
        return None;
    }
    let named = without_space(behind(text, b";")?);
    let equals = behind(named, param.name().as_bytes())?;
    let value = behind(equals, b"=")?;
    let rest = behind(value, param.value().as_bytes())?;
    Some(rest)
}

/// Whether a text has these parameters in order, each written so, and nothing else.
pub fn are_plain(params: &[Pair], text: &[u8]) -> bool
    ensures { result ≡ true → ArePlain params.now text.now }
{
    let mut left = params;
    let mut rest = text;
    'params: loop {
        match left {
            [] => return rest.is_empty(),
            [param, more @ ..] => {
                let Some(behind) = behind_parameter(rest, param) else {
                    return false;
                };
                rest = behind;
                left = more;
            }
        }
    }
}
