//! An item, as it is read from names with values and written.
ghost use Rattle.std.specs.Prelude.{◌≡◌};
ghost use Rattle.web_codec.specs.Answers.{AnswersBy};
ghost use Rattle.web_codec.specs.FormPairs.{values_of};
ghost use Rattle.demo_app.specs.Items.{because, one_value};

use crate::item::Item;
use std::alloc::Global;
use web_codec::{ReadFault, ReadPairs, WriteFault, WritePairs};
use web_texts::{Fail, Pair, Text, read_digits};

/// The value of a name that comes once. The texts are those of the refusals where it comes not at
/// all, and where it comes again.
fn one_value<'a>(
    alloc: Global,
    pairs: &'a [Pair],
    name: &str,
    missing: &str,
    twice: &str,
) -> Result<&'a str, Fail<ReadFault>>
    ensures { AnswersBy (λ value. value.now) (λ x. x
        ≡ one_value (because missing.now) (because twice.now) (values_of name.now pairs.now)
        ) result }
{
    let mut found: Option<&'a str> = None;
    for pair in pairs {
        if pair.name() == name {
            if found.is_some() {
                return Err(ReadFault::refusal(alloc, twice));
            }
            found = Some(pair.value());
        }
    }
    match found {
        Some(value) => Ok(value),
        None => Err(ReadFault::refusal(alloc, missing)),
    }
}

/// The name `name` and the name `n`, whose value is a number of 0 to 2^64 - 1 in digits, each once.
/// Further names are ignored. The refusals, in the order of their tests: `missing name`,
/// `duplicate name`, `missing n`, `duplicate n`, `n is no number`.
impl ReadPairs for Item {
    ghost use Rattle.std.specs.Prelude.{◌≡◌};
    ghost use Rattle.demo_app.specs.Items.{item_of_pairs};

    ghost reads_pairs = { λ pairs x. x ≡ item_of_pairs pairs };

    fn read_pairs(alloc: Global, pairs: &[Pair]) -> Result<Item, Fail<ReadFault>> {
        let name = one_value(alloc, pairs, "name", "missing name", "duplicate name")?;
        let n = one_value(alloc, pairs, "n", "missing n", "duplicate n")?;
        let Some(n) = read_digits(n, u64::MAX) else {
            return Err(ReadFault::refusal(alloc, "n is no number"));
        };
        Ok(Item {
            name: Text::of(alloc, name)?,
            n,
        })
    }
}

/// The pairs `name` and `n`, in this order, the number in decimal. No item is refused.
impl WritePairs for Item {
    ghost use Rattle.std.specs.Prelude.{◌≡◌, Ok};
    ghost use Rattle.demo_app.specs.Items.{pairs_of_item};

    ghost writes_pairs = { λ item written. written ≡ Ok (pairs_of_item item) };

    fn write_pairs(&self, alloc: Global) -> Result<Vec<Pair>, Fail<WriteFault>> {
        let mut pairs = Vec::new(alloc);
        pairs.push(Pair::new(alloc, "name", self.name.as_str())?)?;
        let n = self.n.to_string(alloc)?;
        pairs.push(Pair::new(alloc, "n", n.as_str())?)?;
        Ok(pairs)
    }
}
