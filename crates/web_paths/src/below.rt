//! Paths below a root.
ghost use Rattle.std.specs.Prelude.{◌≡◌, ◌∷◌, ◌++◌, IfOk, MatchOption, drop, false, map};
ghost use Rattle.std.specs.Prelude.{string_bytes, true};
ghost use Rattle.std.specs.List.{list_all};
ghost use Rattle.http_uri.specs.Uri.{uri_path};
ghost use Rattle.percent_encoding.specs.Percent.{percent_decode};
ghost use Rattle.web_paths.specs.FileNames.{is_file_name as is_file_name_lem};
ghost use Rattle.std.specs.Str.{is_utf8};
ghost use Rattle.web_paths.specs.PathsBelow.{begins_with_slash as begins_with_slash_lem, below_of};
ghost use Rattle.web_paths.specs.PathsBelow.{child_of, names_in, sibling_of};
ghost use Rattle.web_paths.specs.PathsBelow.{ends_in_slash as ends_in_slash_lem, joined, one_more};
ghost use Rattle.web_paths.specs.PathsBelow.{in_folder as in_folder_lem, segments};
ghost use Rattle.web_paths.specs.PathsBelow.{without_last_slash as without_last_slash_lem};

use crate::names::{HiddenNames, has_name_bytes, is_file_name};
use http_uri::Uri;
use percent_encoding::percent_decode;
use std::alloc::Global;
use std::marker::Model;
use web_texts::NoMemory;

/// A path below a root, which is made of a request target alone: names, with a slash between each
/// two. No name is empty, `.` or `..`, or has a slash or NUL. Contracts see the names, and whether
/// a slash ended the target's path.
#[derive(Debug, Drop)]
pub struct Below {
    path: String,
    ends_in_slash: bool,
}

impl Model for Below {
    ghost use Rattle.std.specs.Prelude.{◌≡◌, string_bytes, true};
    ghost use Rattle.std.specs.List.{list_all};
    ghost use Rattle.web_paths.specs.declared.names.HiddenNames.TheVariants.{Allowed};
    ghost use Rattle.web_paths.specs.FileNames.{is_file_name};
    ghost use Rattle.web_paths.specs.PathsBelow.{NamesBelow, names_in};

    ghost Value = { NamesBelow };

    ghost view = { λ b. record {
      names = names_in (string_bytes b.path);
      ends_in_slash = b.ends_in_slash;
    } };

    ghost invariant = { λ b.
        list_all (is_file_name Allowed) (names_in (string_bytes b.path)) ≡ true };
}

fn begins_with_slash(path: &str) -> bool
    ensures { result ≡ begins_with_slash_lem path.now }
{
    path.starts_with('/')
}

fn ends_in_slash(path: &str) -> bool
    ensures { result ≡ ends_in_slash_lem path.now }
{
    path.ends_with('/')
}

fn without_last_slash(path: &str) -> &str
    ensures { result.now ≡ without_last_slash_lem path.now }
{
    if ends_in_slash(path) {
        &path[..path.len() - 1]
    } else {
        path
    }
}

/// Puts a segment, percent-decoded, behind names. Returns whether it may be a name.
fn push_name(names: &mut Vec<u8>, segment: &str, hidden: HiddenNames) -> Result<bool, NoMemory>
    ensures name { IfOk result (λ put. put ≡ is_file_name_lem hidden (percent_decode segment.now)) }
    ensures names { IfOk result (λ put.
        names.new.items ≡ one_more names.old.items (percent_decode segment.now)) }
{
    if !names.is_empty() {
        names.push(b'/')?;
    }
    let start = names.len();
    percent_decode(segment.as_bytes()).append_to(names)?;
    Ok(is_file_name(&names[start..], hidden))
}

/// The names that the segments behind the first slash spell, with a slash between each two. `None`
/// where one of them may be no name.
fn joined_names(alloc: Global, path: &str, hidden: HiddenNames) -> Result<Option<Vec<u8>>, NoMemory>
    ensures { let names = map percent_decode (drop 1 (segments path.now)) in
        IfOk result (λ found. MatchOption found
        (list_all (is_file_name_lem hidden) names ≡ false)
        (λ v. (list_all (is_file_name_lem hidden) names ≡ true) × (v.items ≡ joined names))) }
{
    let mut names = Vec::new(alloc);
    for segment in path.split('/').skip(1) {
        if !push_name(&mut names, segment, hidden)? {
            return Ok(None);
        }
    }
    Ok(Some(names))
}

fn push_slashed(path: &mut String, text: &str) -> Result<(), NoMemory>
    ensures { IfOk result (λ _. string_bytes path.new ≡ string_bytes path.old ++ 47 ∷ text.now) }
{
    path.push('/')?;
    path.push_str(text)?;
    Ok(())
}

/// The text of these bytes, where they are UTF-8.
fn text_of(bytes: Vec<u8>) -> Option<String>
    ensures { MatchOption result (is_utf8 bytes.items ≡ false)
        (λ text. (is_utf8 bytes.items ≡ true) × (string_bytes text ≡ bytes.items)) }
{
    match String::from_utf8(bytes) {
        Ok(text) => Some(text),
        Err(_) => None,
    }
}

/// The text of names with one more.
fn with_name(alloc: Global, names: &str, name: &str) -> Result<String, NoMemory>
    ensures { IfOk result (λ text. string_bytes text ≡ one_more names.now name.now) }
{
    let mut text = String::from_str(alloc, names)?;
    if names.is_empty() {
        text.push_str(name)?;
    } else {
        push_slashed(&mut text, name)?;
    }
    Ok(text)
}

/// Whether each name in a text may be one, at least where more are allowed.
fn are_names(text: &str) -> bool
    ensures { result ≡ list_all (is_file_name_lem HiddenNames.Allowed) (segments text.now) }
{
    for name in text.split('/') {
        if !is_file_name(name.as_bytes(), HiddenNames::Allowed) {
            return false;
        }
    }
    true
}

impl Below {
    /// What a path names below a root: the path of a target, or what is left of it behind the path
    /// at which a folder is served. It has to come as it was sent, since each segment is
    /// percent-decoded here. `None` where it does not begin with a slash, where a segment may be no
    /// name, or where the names are no UTF-8. Returns `NoMemory` where allocation failed.
    pub fn of_path(
        alloc: Global,
        path: &str,
        hidden: HiddenNames,
    ) -> Result<Option<Below>, NoMemory>
        ensures { IfOk result (λ found. found ≡ below_of hidden path.now) }
    {
        if !begins_with_slash(path) {
            return Ok(None);
        }
        let Some(names) = joined_names(alloc, without_last_slash(path), hidden)? else {
            return Ok(None);
        };
        let Some(text) = text_of(names) else {
            return Ok(None);
        };
        Ok(Some(Below {
            path: text,
            ends_in_slash: ends_in_slash(path),
        }))
    }

    /// What the path of a request target names below a root, as `of_path` says.
    pub fn of_target(
        alloc: Global,
        target: &Uri,
        hidden: HiddenNames,
    ) -> Result<Option<Below>, NoMemory>
        ensures { IfOk result (λ found. found ≡ below_of hidden (uri_path target.now)) }
    {
        Below::of_path(alloc, target.path(), hidden)
    }

    /// The names with a slash between each two: empty at the root, and never with a slash in front.
    pub fn as_str(&self) -> &str
        ensures text { result.now ≡ joined self.now.names }
        ensures names { list_all (is_file_name_lem HiddenNames.Allowed) self.now.names ≡ true }
    {
        self.path.as_str()
    }

    /// Whether a slash ended the target's path, as where a folder is asked for.
    pub fn ends_in_slash(&self) -> bool
        ensures { result ≡ self.now.ends_in_slash }
    {
        self.ends_in_slash
    }

    /// The path in a folder: that of the folder with each name behind it, a slash before each. The
    /// folder itself where there are no names. Returns `NoMemory` where allocation failed.
    pub fn in_folder(&self, alloc: Global, root: &str) -> Result<String, NoMemory>
        ensures path { IfOk result (λ path.
            string_bytes path ≡ in_folder_lem root.now self.now.names) }
        ensures names { list_all (is_file_name_lem HiddenNames.Allowed) self.now.names ≡ true }
    {
        let below = self.path.as_str();
        let mut path = String::from_str(alloc, root)?;
        if !below.is_empty() {
            push_slashed(&mut path, below)?;
        }
        Ok(path)
    }

    /// The path of what has this name in the folder of this path. `None` if it may be no name.
    /// Returns `NoMemory` if an allocation failed.
    pub fn child(
        &self,
        alloc: Global,
        name: &str,
        hidden: HiddenNames,
    ) -> Result<Option<Below>, NoMemory>
        ensures { IfOk result (λ found. found ≡ child_of hidden self.now name.now) }
    {
        if !hidden.allow(name) {
            return Ok(None);
        }
        let path = with_name(alloc, self.path.as_str(), name)?;
        Ok(Some(Below {
            path,
            ends_in_slash: false,
        }))
    }

    /// The path of the file beside this one whose name has `ending` after it, as `.gz`. `None` if
    /// that may be no name, and at the root. Returns `NoMemory` if an allocation failed.
    pub fn sibling(&self, alloc: Global, ending: &str) -> Result<Option<Below>, NoMemory>
        ensures { IfOk result (λ found. found ≡ sibling_of self.now ending.now) }
    {
        if self.path.is_empty() || !has_name_bytes(ending.as_bytes()) {
            return Ok(None);
        }
        let mut path = String::from_str(alloc, self.path.as_str())?;
        path.push_str(ending)?;
        if !are_names(path.as_str()) {
            return Ok(None);
        }
        Ok(Some(Below {
            path,
            ends_in_slash: false,
        }))
    }
}
