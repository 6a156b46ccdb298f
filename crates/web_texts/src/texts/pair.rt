//! Names with values.
ghost use Rattle.std.specs.Prelude.{◌≡◌, ◌++◌, string_bytes, IfOk};

use crate::memory::NoMemory;
use crate::memory::duplicate::Duplicate;
use crate::texts::text::Text;
use std::alloc::Global;
use std::marker::Model;

/// A name and a value, as of a parameter of a path, a field of a form or a parameter of a media
/// type. Both stand in one text, since a request may have thousands of them: so a pair takes one
/// allocation.
#[derive(Debug, Drop)]
pub struct Pair {
    /// The name, and then the value.
    text: String,
    /// Where the value begins.
    middle: usize,
}

impl Model for Pair {
    ghost use Rattle.std.specs.Prelude.{string_bytes, IsCharBoundary};
    ghost use Rattle.web_texts.specs.Pairs.{cut_pair};
    ghost use Rattle.web_texts.specs.Pairs.{Pair as NamedValue};

    ghost Value = { NamedValue };

    ghost view = { λ p. cut_pair (string_bytes p.text) p.middle };

    ghost invariant = { λ p. IsCharBoundary (string_bytes p.text) p.middle };
}

/// A text with another one after it, and no more room than for both.
fn extended(text: String, more: &str) -> Result<String, NoMemory>
    ensures { IfOk result (λ made. string_bytes made ≡ string_bytes text ++ more.now) }
{
    let mut made = text;
    made.reserve_exact(more.len())?;
    made.push_str(more)?;
    Ok(made)
}

/// A text of two.
fn joined(alloc: Global, first: &str, second: &str) -> Result<String, NoMemory>
    ensures { IfOk result (λ text. string_bytes text ≡ first.now ++ second.now) }
{
    let mut text = String::with_capacity(alloc, first.len().saturating_add(second.len()))?;
    text.push_str(first)?;
    text.push_str(second)?;
    Ok(text)
}

impl Pair {
    /// A pair of copies of this name and this value. Returns `NoMemory` where allocation failed.
    ///
    /// ```
    /// let pair = Pair::new(alloc, "room", "12")?;
    /// ```
    pub fn new(alloc: Global, name: &str, value: &str) -> Result<Pair, NoMemory>
        ensures { IfOk result (λ made. made ≡ record { name = name.now; value = value.now }) }
    {
        let text = joined(alloc, name, value)?;
        Ok(Pair {
            text,
            middle: name.len(),
        })
    }

    /// A pair of this name, whose memory it keeps, and a copy of this value. Returns `NoMemory`
    /// where allocation failed.
    pub fn named(name: Text, value: &str) -> Result<Pair, NoMemory>
        ensures { IfOk result (λ made. made ≡ record { name = name; value = value.now }) }
    {
        let middle = name.as_str().len();
        let text = extended(name.into_string(), value)?;
        Ok(Pair { text, middle })
    }

    /// The name.
    pub fn name(&self) -> &str
        ensures { result.now ≡ self.now.name }
    {
        &self.text[..self.middle]
    }

    /// The value.
    pub fn value(&self) -> &str
        ensures { result.now ≡ self.now.value }
    {
        &self.text[self.middle..]
    }
}

impl Duplicate for Pair {
    fn duplicate(&self, alloc: Global) -> Result<Pair, NoMemory> {
        let text = String::from_str(alloc, self.text.as_str())?;
        Ok(Pair {
            text,
            middle: self.middle,
        })
    }
}

impl PartialEq for Pair {
    ghost use Rattle.std.specs.Cmp.{partial_equiv_from_equiv};
    ghost use Rattle.web_texts.specs.Pairs.{pair_eq, pair_eq_law};

    ghost eq = { pair_eq };

    ghost laws = { partial_equiv_from_equiv pair_eq_law };

    fn eq(&self, other: &Pair) -> bool {
        self.name() == other.name() && self.value() == other.value()
    }
}

impl Eq for Pair {
    ghost use Rattle.web_texts.specs.Pairs.{pair_eq_law};

    ghost laws = { pair_eq_law };
}
