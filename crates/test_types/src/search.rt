//! `Search`, as `types.txt` lists it. Written by tools/new-type.
ghost use Rattle.std.specs.Prelude.{◌≡◌};
ghost use Rattle.web_codec.specs.Answers.{Answers};
ghost use Rattle.test_types.specs.Search.{bounded_search_page};

use crate::payment::Payment;
use serde_json::{Value, json};
use std::alloc::Global;
use web_codec::{
    ReadData, ReadFault, ReadPairs, WriteData, WriteFault, WriteField, WritePairs, all_fields,
    field_or, member_or, object, required, required_field,
};
use web_texts::{Fail, Items, NoMemory, Pair, Text};

/// What a search asks for.
#[derive(Debug, Drop)]
pub struct Search {
    /// The member `text`.
    pub text: Text,
    /// The member `tag`.
    pub tag: Items<Text>,
    /// The member `page`.
    pub page: u16,
    /// The member `exact`.
    pub exact: bool,
    /// The member `after`.
    pub after: Option<Text>,
    /// The member `paid`.
    pub paid: Option<Payment>,
}

/// Refuses a `page` that is out of its bounds.
fn bounded_page(alloc: Global, page: u16) -> Result<u16, Fail<ReadFault>>
    ensures { Answers (λ x. x ≡ bounded_search_page page) result }
{
    if page < 1 || page > 1000 {
        return Err(ReadFault::refusal(alloc, "page: not in 1..=1000"));
    }
    Ok(page)
}

impl ReadData for Search {
    ghost use Rattle.test_types.specs.Search.{search_of};

    ghost read = { search_of };

    fn read_data(alloc: Global, value: &Value) -> Result<Search, Fail<ReadFault>> {
        object(alloc, value)?;
        Ok(Search {
            text: required(alloc, value, "text")?,
            tag: member_or(alloc, value, "tag", Items::of(Vec::new(alloc)))?,
            page: bounded_page(alloc, member_or(alloc, value, "page", 1)?)?,
            exact: member_or(alloc, value, "exact", false)?,
            after: member_or(alloc, value, "after", None)?,
            paid: member_or(alloc, value, "paid", None)?,
        })
    }
}

impl WriteData for Search {
    ghost use Rattle.test_types.specs.Search.{data_of_search, search_no_float};

    ghost written = { data_of_search };

    ghost no_float = { search_no_float };

    fn write_data(&self, alloc: Global) -> Result<Value, NoMemory> {
        Ok(json!(in alloc; {
            "text": self.text.write_data(alloc)?,
            "tag": self.tag.write_data(alloc)?,
            "page": self.page.write_data(alloc)?,
            "exact": self.exact.write_data(alloc)?,
            "after": self.after.write_data(alloc)?,
            "paid": self.paid.write_data(alloc)?,
        })?)
    }
}

impl ReadPairs for Search {
    ghost use Rattle.std.specs.Prelude.{◌≡◌};
    ghost use Rattle.test_types.specs.Search.{search_of_pairs};

    ghost reads_pairs = { λ pairs x. x ≡ search_of_pairs pairs };

    fn read_pairs(alloc: Global, pairs: &[Pair]) -> Result<Search, Fail<ReadFault>> {
        Ok(Search {
            text: required_field(alloc, pairs, "text")?,
            tag: all_fields(alloc, pairs, "tag")?,
            page: bounded_page(alloc, field_or(alloc, pairs, "page", 1)?)?,
            exact: field_or(alloc, pairs, "exact", false)?,
            after: field_or(alloc, pairs, "after", None)?,
            paid: field_or(alloc, pairs, "paid", None)?,
        })
    }
}

impl WritePairs for Search {
    ghost use Rattle.std.specs.Prelude.{◌≡◌, Ok};
    ghost use Rattle.test_types.specs.Search.{pairs_of_search};

    ghost writes_pairs = { λ x y. y ≡ Ok (pairs_of_search x) };

    fn write_pairs(&self, alloc: Global) -> Result<Vec<Pair>, Fail<WriteFault>> {
        let mut pairs = Vec::new(alloc);
        self.text.write_field(alloc, "text", &mut pairs)?;
        self.tag.write_field(alloc, "tag", &mut pairs)?;
        self.page.write_field(alloc, "page", &mut pairs)?;
        self.exact.write_field(alloc, "exact", &mut pairs)?;
        self.after.write_field(alloc, "after", &mut pairs)?;
        self.paid.write_field(alloc, "paid", &mut pairs)?;
        Ok(pairs)
    }
}
