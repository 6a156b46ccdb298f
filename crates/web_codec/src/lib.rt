//! Values of JSON bodies and of forms: readers and writers of a program's own types, and the texts
//! that they are read from and written as.
#![tactic(auto)]

mod any_value;
mod data;
mod data_readers;
mod data_writers;
mod decode;
mod faults;
mod field_writers;
mod fields;
mod floats;
mod form;
mod integers;
mod json_value;
mod members;
mod pairs_format;
mod readers;
mod tuples;
mod typed;
mod whole_numbers;
mod write;

pub use data::{ReadData, WriteData};
pub use decode::{decode_form, decode_json};
pub use faults::{JsonFault, ReadFault, WriteFault};
pub use field_writers::WriteField;
pub use fields::{ReadField, all_fields, field_or, first_value, required_field};
pub use floats::holds_float;
pub use form::{form_pairs, pairs_text};
pub use json_value::read_value;
pub use members::{deny_unknown, member_or, object, required};
pub use readers::{ReadJson, ReadPairs, WriteJson, WritePairs};
pub use tuples::only_field;
pub use typed::Typed;
pub use write::{write_form, write_value};
