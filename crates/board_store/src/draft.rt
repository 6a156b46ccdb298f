//! `Draft`, as `types.txt` lists it. Written by tools/new-type.

use serde_json::{Value, json};
use std::alloc::Global;
use web_codec::{
    ReadData, ReadFault, ReadPairs, WriteData, WriteFault, WriteField, WritePairs, field_or,
    member_or, object,
};
use web_texts::{Fail, NoMemory, Pair, Text};

/// What a client says of an item. The file refuses what is out of its bounds.
#[derive(Debug, Drop)]
pub struct Draft {
    /// The member `title`.
    pub title: Option<Text>,
    /// The member `seats`.
    pub seats: i64,
    /// The member `done`.
    pub done: bool,
}

impl ReadData for Draft {
    ghost use Rattle.board_store.specs.Draft.{draft_of};

    ghost read = { draft_of };

    fn read_data(alloc: Global, value: &Value) -> Result<Draft, Fail<ReadFault>> {
        object(alloc, value)?;
        Ok(Draft {
            title: member_or(alloc, value, "title", None)?,
            seats: member_or(alloc, value, "seats", 1)?,
            done: member_or(alloc, value, "done", false)?,
        })
    }
}

impl WriteData for Draft {
    ghost use Rattle.board_store.specs.Draft.{data_of_draft, draft_no_float};

    ghost written = { data_of_draft };

    ghost no_float = { draft_no_float };

    fn write_data(&self, alloc: Global) -> Result<Value, NoMemory> {
        Ok(json!(in alloc; {
            "title": self.title.write_data(alloc)?,
            "seats": self.seats.write_data(alloc)?,
            "done": self.done.write_data(alloc)?,
        })?)
    }
}

impl ReadPairs for Draft {
    ghost use Rattle.std.specs.Prelude.{◌≡◌};
    ghost use Rattle.board_store.specs.Draft.{draft_of_pairs};

    ghost reads_pairs = { λ pairs x. x ≡ draft_of_pairs pairs };

    fn read_pairs(alloc: Global, pairs: &[Pair]) -> Result<Draft, Fail<ReadFault>> {
        Ok(Draft {
            title: field_or(alloc, pairs, "title", None)?,
            seats: field_or(alloc, pairs, "seats", 1)?,
            done: field_or(alloc, pairs, "done", false)?,
        })
    }
}

impl WritePairs for Draft {
    ghost use Rattle.std.specs.Prelude.{◌≡◌, Ok};
    ghost use Rattle.board_store.specs.Draft.{pairs_of_draft};

    ghost writes_pairs = { λ x y. y ≡ Ok (pairs_of_draft x) };

    fn write_pairs(&self, alloc: Global) -> Result<Vec<Pair>, Fail<WriteFault>> {
        let mut pairs = Vec::new(alloc);
        self.title.write_field(alloc, "title", &mut pairs)?;
        self.seats.write_field(alloc, "seats", &mut pairs)?;
        self.done.write_field(alloc, "done", &mut pairs)?;
        Ok(pairs)
    }
}
