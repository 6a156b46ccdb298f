//! Copies of the parts of a request.
ghost use Rattle.std.specs.Prelude.{◌≡◌, IfOk};
ghost use Rattle.web_request.specs.Shared.{value_of, values};

use std::alloc::Global;
use std::rc::Rc;
use web_texts::{Duplicate, NoMemory, Pair};

/// Shares a value once more, if there is one. It takes no memory: `NoMemory` comes only where the
/// count of the pointers is full.
pub fn shared_again<T: Drop>(pointer: &Option<Rc<T>>) -> Result<Option<Rc<T>>, NoMemory>
    ensures { IfOk result (λ copy. value_of copy ≡ value_of pointer.now) }
{
    match pointer {
        Some(pointer) => Ok(Some(pointer.clone()?)),
        None => Ok(None),
    }
}

/// Shares each value of a list once more.
pub fn shared_layers<T: Drop>(pointers: &Vec<Rc<T>>) -> Result<Vec<Rc<T>>, NoMemory>
    ensures { IfOk result (λ copy. values copy.items ≡ values pointers.now.items) }
{
    Ok(pointers.clone()?)
}

/// Copies pairs.
pub fn copied_pairs(alloc: Global, pairs: &[Pair]) -> Result<Vec<Pair>, NoMemory>
    ensures { IfOk result (λ copy. copy.items ≡ pairs.now) }
{
    let mut copies = Vec::with_capacity(alloc, pairs.len())?;
    for pair in pairs {
        copies.push(pair.duplicate(alloc)?)?;
    }
    Ok(copies)
}
