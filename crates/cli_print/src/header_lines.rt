//! The lines of the headers.
ghost use Rattle.std.specs.Prelude.{◌≡◌, ◌++◌, OnOk, flat_map, map};
ghost use Rattle.http_header.specs.HeaderMap.{keys, pairs};
ghost use Rattle.web_request_log.specs.SortedNames.{before};
ghost use Rattle.cli_print.specs.HeaderLines.{header_line, header_lines, is_increasing, name_lines};
ghost use Rattle.cli_print.specs.HeaderLines.{pair_line};

use crate::lines::put;
use http_header::{HeaderMap, HeaderName, HeaderValue};
use std::alloc::Global;
use web_request_log::sorted_names;
use web_texts::NoMemory;

fn put_value(out: &mut Vec<u8>, name: &HeaderName, value: &HeaderValue) -> Result<(), NoMemory>
    ensures { OnOk result (out.new.items ≡ out.old.items ++ header_line name.now value.now) }
{
    put(out, name.as_bytes())?;
    put(out, b": ")?;
    put(out, value.as_bytes())?;
    put(out, b"\n")
}

/// The lines of the values of one name.
fn put_values(
    out: &mut Vec<u8>,
    headers: &HeaderMap<HeaderValue>,
    name: &HeaderName,
) -> Result<(), NoMemory>
    ensures { OnOk result (out.new.items ≡ out.old.items ++ name_lines headers.now name.now) }
{
    for value in headers.get_all(name) {
        put_value(out, name, value)?;
    }
    Ok(())
}

fn put_names(
    out: &mut Vec<u8>,
    headers: &HeaderMap<HeaderValue>,
    names: Vec<&HeaderName>,
) -> Result<(), NoMemory>
    ensures { OnOk result (out.new.items
        ≡ out.old.items
        ++ flat_map (name_lines headers.now) (map (λ n. n.now) names.entry.items)) }
{
    for name in names {
        put_values(out, headers, name)?;
    }
    Ok(())
}

/// The lines of all headers, in the order of the map.
fn put_unsorted(out: &mut Vec<u8>, headers: &HeaderMap<HeaderValue>) -> Result<(), NoMemory>
    ensures { OnOk result (out.new.items
        ≡ out.old.items ++ flat_map pair_line (pairs headers.now)) }
{
    for (name, value) in headers.iter() {
        put_value(out, name, value)?;
    }
    Ok(())
}

/// Whether a name stands before another by its bytes.
fn is_before(name: &HeaderName, other: &HeaderName) -> bool
    ensures { result ≡ before name.now other.now }
{
    name.as_str().cmp(other.as_str()).is_lt()
}

/// Whether each name stands before the next one.
fn has_sorted_names(headers: &HeaderMap<HeaderValue>) -> bool
    ensures { result ≡ is_increasing (keys headers.now) }
{
    let mut names = headers.keys();
    let Some(mut last) = names.next() else {
        return true;
    };
    for name in names {
        if !is_before(last, name) {
            return false;
        }
        last = name;
    }
    true
}

/// The lines of all headers, sorted by the bytes of their names. Names that stand sorted are not
/// sorted again, which would allocate, nor are their values looked up.
pub(crate) fn put_headers(
    alloc: Global,
    out: &mut Vec<u8>,
    headers: &HeaderMap<HeaderValue>,
) -> Result<(), NoMemory>
    ensures { OnOk result (out.new.items ≡ out.old.items ++ header_lines headers.now) }
{
    if has_sorted_names(headers) {
        return put_unsorted(out, headers);
    }
    let names = sorted_names(alloc, headers)?;
    put_names(out, headers, names)
}
