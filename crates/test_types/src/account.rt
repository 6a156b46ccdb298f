//! `Account`, as `types.txt` lists it. Written by tools/new-type.
ghost use Rattle.std.specs.Prelude.{◌≡◌};
ghost use Rattle.web_codec.specs.Answers.{Answers};
ghost use Rattle.test_types.specs.Account.{bounded_account_change};

use crate::price::Price;
use serde_json::{Value, json};
use std::alloc::Global;
use web_codec::{ReadData, ReadFault, WriteData, member_or, object};
use web_texts::{Fail, Items, NoMemory};

/// What an account did.
#[derive(Debug, Drop)]
pub struct Account {
    /// The member `older`.
    pub older: Items<Price>,
    /// The member `change`.
    pub change: i64,
    /// The member `count`.
    pub count: u64,
}

/// Refuses a `change` that is out of its bounds.
fn bounded_change(alloc: Global, change: i64) -> Result<i64, Fail<ReadFault>>
    ensures { Answers (λ x. x ≡ bounded_account_change change) result }
{
    if change < -5 || change > 5 {
        return Err(ReadFault::refusal(alloc, "change: not in -5..=5"));
    }
    Ok(change)
}

impl ReadData for Account {
    ghost use Rattle.test_types.specs.Account.{account_of};

    ghost read = { account_of };

    fn read_data(alloc: Global, value: &Value) -> Result<Account, Fail<ReadFault>> {
        object(alloc, value)?;
        Ok(Account {
            older: member_or(alloc, value, "older", Items::of(Vec::new(alloc)))?,
            change: bounded_change(alloc, member_or(alloc, value, "change", -1)?)?,
            count: member_or(alloc, value, "count", 1)?,
        })
    }
}

impl WriteData for Account {
    ghost use Rattle.test_types.specs.Account.{data_of_account, account_no_float};

    ghost written = { data_of_account };

    ghost no_float = { account_no_float };

    fn write_data(&self, alloc: Global) -> Result<Value, NoMemory> {
        Ok(json!(in alloc; {
            "older": self.older.write_data(alloc)?,
            "change": self.change.write_data(alloc)?,
            "count": self.count.write_data(alloc)?,
        })?)
    }
}
