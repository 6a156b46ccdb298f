//! The page that lists a folder.
ghost use Rattle.std.specs.Prelude.{◌≡◌, ◌++◌, IfOk, OnOk, flat_map, string_bytes};
ghost use Rattle.std.specs.Option.{option_map};
ghost use Rattle.std.specs.Str.{chars};
ghost use Rattle.web_folders.specs.Listings.{entry_line, escape_of as escape_of_lem, escaped_char};
ghost use Rattle.web_folders.specs.Listings.{IsSortedFolder, allowed_line, folder_title};
ghost use Rattle.web_folders.specs.Listings.{listing_page as listing_page_lem, page_head};
ghost use Rattle.web_folders.specs.Listings.{parent_line as parent_line_lem};
ghost use Rattle.web_folders.specs.Listings.{slash_if as slash_if_lem};

use crate::entry::FolderEntry;
use percent_encoding::{AsciiSet, NON_ALPHANUMERIC, ascii_set, utf8_percent_encode};
use std::alloc::Global;
use web_paths::HiddenNames;
use web_texts::NoMemory;

/// What is escaped in a link: all but letters, digits, `-`, `.`, `_` and `~`. So no name has a
/// colon there, which would end a scheme.
const LINK_ESCAPES: AsciiSet = ascii_set!(
    NON_ALPHANUMERIC
        .remove(b'-')
        .remove(b'.')
        .remove(b'_')
        .remove(b'~')
);

/// A character as it stands in HTML, also within the quotes of an attribute, or `None` if it
/// stands for itself.
fn escape_of(c: char) -> Option<&'static str>
    ensures { option_map (λ text. text.now) result ≡ escape_of_lem c }
{
    match c {
        '&' => Some("&amp;"),
        '<' => Some("&lt;"),
        '>' => Some("&gt;"),
        '"' => Some("&quot;"),
        '\'' => Some("&#39;"),
        _ => None,
    }
}

fn push_char(page: &mut String, c: char) -> Result<(), NoMemory>
    ensures { OnOk result (string_bytes page.new ≡ string_bytes page.old ++ escaped_char c) }
{
    match escape_of(c) {
        Some(escape) => page.push_str(escape)?,
        None => page.push(c)?,
    }
    Ok(())
}

/// Adds a text, so that the page shows it as it is.
fn push_escaped(page: &mut String, text: &str) -> Result<(), NoMemory>
    ensures { OnOk result (string_bytes page.new
        ≡ string_bytes page.old ++ flat_map escaped_char (chars text.now)) }
{
    for c in text.chars() {
        push_char(page, c)?;
    }
    Ok(())
}

fn slash_if(is_folder: bool) -> &'static str
    ensures { result.now ≡ slash_if_lem is_folder }
{
    if is_folder { "/" } else { "" }
}

fn push_entry(page: &mut String, entry: &FolderEntry) -> Result<(), NoMemory>
    ensures { OnOk result (string_bytes page.new ≡ string_bytes page.old ++ entry_line entry.now) }
{
    let name = entry.name.as_str();
    let slash = slash_if(entry.is_folder);
    page.push_str("<li><a href=\"")?;
    utf8_percent_encode(name, LINK_ESCAPES).append_to(page)?;
    page.push_str(slash)?;
    page.push_str("\">")?;
    push_escaped(page, name)?;
    page.push_str(slash)?;
    page.push_str("</a>\n")?;
    Ok(())
}

/// Adds the line of an entry, if its name may be served.
fn push_allowed(page: &mut String, hidden: HiddenNames, entry: &FolderEntry) -> Result<(), NoMemory>
    ensures { OnOk result
        (string_bytes page.new ≡ string_bytes page.old ++ allowed_line hidden entry.now) }
{
    if hidden.allow(entry.name.as_str()) {
        push_entry(page, entry)?;
    }
    Ok(())
}

fn push_entries(
    page: &mut String,
    hidden: HiddenNames,
    entries: &[FolderEntry],
) -> Result<(), NoMemory>
    ensures { OnOk result (string_bytes page.new
        ≡ string_bytes page.old ++ flat_map (allowed_line hidden) entries.now) }
{
    for entry in entries {
        push_allowed(page, hidden, entry)?;
    }
    Ok(())
}

/// `Index of /`, and the names of the folder, each with a slash after it.
fn push_title(page: &mut String, path: &str) -> Result<(), NoMemory>
    ensures { OnOk result (string_bytes page.new ≡ string_bytes page.old ++ folder_title path.now) }
{
    page.push_str("Index of /")?;
    push_escaped(page, path)?;
    page.push_str(slash_if(!path.is_empty()))?;
    Ok(())
}

fn push_head(page: &mut String, path: &str) -> Result<(), NoMemory>
    ensures { OnOk result (string_bytes page.new ≡ string_bytes page.old ++ page_head path.now) }
{
    page.push_str("<!doctype html>\n<html lang=\"en\">\n<meta charset=\"utf-8\">\n<title>")?;
    push_title(page, path)?;
    page.push_str("</title>\n<h1>")?;
    push_title(page, path)?;
    page.push_str("</h1>\n<ul>\n")?;
    Ok(())
}

fn parent_line(path: &str) -> &'static str
    ensures { result.now ≡ parent_line_lem path.now }
{
    if path.is_empty() {
        ""
    } else {
        "<li><a href=\"../\">../</a>\n"
    }
}

/// The page that lists these entries of the folder at this path, in their order, without those
/// whose names may not be served.
pub(crate) fn listing_page(
    alloc: Global,
    path: &str,
    hidden: HiddenNames,
    entries: &[FolderEntry],
) -> Result<String, NoMemory>
    ensures { IfOk result (λ page.
        string_bytes page ≡ listing_page_lem path.now hidden entries.now) }
{
    let mut page = String::new(alloc);
    push_head(&mut page, path)?;
    page.push_str(parent_line(path))?;
    push_entries(&mut page, hidden, entries)?;
    page.push_str("</ul>\n</html>\n")?;
    Ok(page)
}

/// The entries in the order of their names.
pub(crate) fn sorted(entries: Vec<FolderEntry>) -> Result<Vec<FolderEntry>, NoMemory>
    ensures { IfOk result (λ sorted. IsSortedFolder entries.items sorted.items) }
{
    let mut entries = entries;
    entries.sort()?;
    Ok(entries)
}
