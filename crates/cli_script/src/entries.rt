//! The entries of a `plan` line.
ghost use Rattle.std.specs.Prelude.{◌≡◌, IfOk};
ghost use Rattle.cli_script.specs.PlanEntries.{entries_of, IsAdded};

use web_texts::{NoMemory, next_digit};

/// The greatest number that an entry of a plan can have.
const MAX_ENTRY: u64 = 4_294_967_295;

/// Adds the entries of a `plan` line to the plan, and returns whether its argument is valid. After
/// an invalid argument the plan may have some of its entries.
pub fn read_entries(plan: &mut Vec<u32>, text: &[u8]) -> Result<bool, NoMemory>
    ensures { IfOk result (λ valid.
        IsAdded plan.old.items plan.new.items (entries_of text.now) valid) }
{
    if text.is_empty() {
        return Ok(true);
    }
    let mut entry = 0u32;
    let mut has_digits = false;
    'bytes: for byte in text {
        if byte.is_ascii_digit() {
            match next_digit(u64::from(entry), *byte, MAX_ENTRY) {
                Some(next) => entry = next as u32,
                None => return Ok(false),
            }
            has_digits = true;
        } else {
            if *byte != b' ' || !has_digits {
                return Ok(false);
            }
            plan.push(entry)?;
            entry = 0;
            has_digits = false;
        }
    }
    if has_digits {
        plan.push(entry)?;
    }
    Ok(has_digits)
}
