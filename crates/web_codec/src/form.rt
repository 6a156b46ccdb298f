//! Forms as `application/x-www-form-urlencoded` has them (the URL standard, section 5).
ghost use Rattle.std.specs.Prelude.{◌≡◌, IfOk};
ghost use Rattle.web_codec.specs.FormPairs.{form_pairs, pairs_text};

use form_urlencoded::Serializer;
use std::alloc::Global;
use web_texts::{NoMemory, Pair, Text};

/// How many pairs a form has: its parts between `&`, but for empty ones.
fn pair_count(bytes: &[u8]) -> usize {
    bytes
        .split(|byte| *byte == b'&')
        .filter(|part| !part.is_empty())
        .count()
}

/// The names and values of a form, decoded, in their order. Bytes that are no UTF-8 are replaced by
/// U+FFFD, and a `%` that two hexadecimal digits do not follow stands for itself; no form is
/// refused.
pub fn form_pairs(alloc: Global, bytes: &[u8]) -> Result<Vec<Pair>, NoMemory>
    ensures { IfOk result (λ v. v.items ≡ form_pairs bytes.now) }
{
    // A pair may stand for two bytes alone: so the list has no place more than it needs.
    let mut pairs = Vec::with_capacity(alloc, pair_count(bytes))?;
    for item in form_urlencoded::parse(alloc, bytes) {
        let (name, value) = item?;
        pairs.push(Pair::new(alloc, &name, &value)?)?;
    }
    Ok(pairs)
}

/// The form of names and values, encoded, in their order.
pub fn pairs_text(alloc: Global, pairs: &[Pair]) -> Result<Text, NoMemory>
    ensures { IfOk result (λ t. t ≡ pairs_text pairs.now) }
{
    let mut form = Serializer::new(String::new(alloc));
    for pair in pairs {
        form.append_pair(pair.name(), pair.value())?;
    }
    Ok(Text::from(form.finish()))
}
