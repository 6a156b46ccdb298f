//! Members of JSON objects.
ghost use Rattle.std.specs.Prelude.{◌≡◌, ◌++◌, Ok, codes, map, IfOk};
ghost use Rattle.serde_json.specs.View.{view};
ghost use Rattle.web_codec.specs.Answers.{Answers, IsFault};
ghost use Rattle.web_codec.specs.DataReaders.{
  deny_unknown,
  in_member,
  in_object,
  is_one_of,
  member_or,
  missing,
  required,
};

use crate::data::ReadData;
use crate::faults::ReadFault;
use serde_json::Value;
use std::alloc::Global;
use web_texts::{Fail, NoMemory, Text};

/// Three texts as one.
fn joined(alloc: Global, first: &str, second: &str, third: &str) -> Result<Text, NoMemory>
    ensures { IfOk result (λ t. t ≡ first.now ++ (second.now ++ third.now)) }
{
    let mut text = String::from_str(alloc, first)?;
    text.push_str(second)?;
    text.push_str(third)?;
    Ok(Text::from(text))
}

/// A refusal that names the member.
pub(crate) fn in_member(alloc: Global, name: &str, fault: ReadFault) -> Fail<ReadFault>
    ensures { IsFault (record { text = name.now ++ (codes ": " ++ fault.text) }) result }
{
    match joined(alloc, name, ": ", fault.text.as_str()) {
        Ok(text) => Fail::Of(ReadFault { text }),
        Err(_) => Fail::NoMemory,
    }
}

/// The refusal of an object, or of pairs, without this name.
pub(crate) fn missing(alloc: Global, name: &str) -> Fail<ReadFault>
    ensures { IsFault (missing name.now) result }
{
    match joined(alloc, name, ": missing", "") {
        Ok(text) => Fail::Of(ReadFault { text }),
        Err(_) => Fail::NoMemory,
    }
}

/// The value of a member, whose refusal names it.
fn read_member<T: ReadData>(alloc: Global, name: &str, value: &Value) -> Result<T, Fail<ReadFault>>
    ensures { Answers (λ x. x ≡ in_member name.now (T.read (view value.now))) result }
{
    match T::read_data(alloc, value) {
        Ok(read) => Ok(read),
        Err(Fail::NoMemory) => Err(Fail::NoMemory),
        Err(Fail::Of(fault)) => Err(in_member(alloc, name, fault)),
    }
}

/// The value of a member that has to be there. A refusal names the member.
pub fn required<T: ReadData>(alloc: Global, value: &Value, name: &str) -> Result<T, Fail<ReadFault>>
    ensures { Answers (λ x. x ≡ required T.read name.now (view value.now)) result }
{
    match value.get(name) {
        Some(member) => read_member(alloc, name, member),
        None => Err(missing(alloc, name)),
    }
}

/// The value of a member, or a default where it is not there.
pub fn member_or<T: ReadData>(
    alloc: Global,
    value: &Value,
    name: &str,
    default: T,
) -> Result<T, Fail<ReadFault>>
    ensures { Answers (λ x. x ≡ member_or T.read name.now default (view value.now)) result }
{
    match value.get(name) {
        Some(member) => read_member(alloc, name, member),
        None => Ok(default),
    }
}

/// Refuses a value that is no object.
pub fn object(alloc: Global, value: &Value) -> Result<(), Fail<ReadFault>>
    ensures { Answers (λ x. x ≡ in_object (view value.now) (Ok tt)) result }
{
    if value.is_object() {
        Ok(())
    } else {
        Err(ReadFault::refusal(alloc, "no object"))
    }
}

/// Whether a text is one of these.
fn is_one_of(text: &str, names: &[&str]) -> bool
    ensures { result ≡ is_one_of text.now (map (λ n. n.now) names.now) }
{
    for name in names {
        if *name == text {
            return true;
        }
    }
    false
}

/// Refuses an object that has a member of another name than these. What is no object passes:
/// `object` refuses that.
pub fn deny_unknown(alloc: Global, value: &Value, names: &[&str]) -> Result<(), Fail<ReadFault>>
    ensures { Answers (λ x. x ≡ deny_unknown (map (λ n. n.now) names.now) (view value.now)) result }
{
    if let Some(members) = value.as_object() {
        for (key, _member) in members.iter() {
            if !is_one_of(key.as_str(), names) {
                return Err(ReadFault::refusal(alloc, "unknown member"));
            }
        }
    }
    Ok(())
}
