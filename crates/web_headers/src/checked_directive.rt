//! Cache directives whose text reads back.
ghost use Rattle.std.specs.Prelude.{◌≡◌, ◌↔◌, [], ◌∷◌, option_map, IfOk, IsTrue, true};
ghost use Rattle.http_header.specs.FieldValue.{is_visible_text};
ghost use Rattle.http_header.specs.Token.{is_visible_or_blank};
ghost use Rattle.web_headers.specs.CacheDirectives.{cache_directive_of};
ghost use Rattle.web_headers.specs.CheckedDirectives.{GivesChecked, ReadsBack};
ghost use Rattle.web_headers.specs.HeaderReaders.{comma_list_of};
ghost use Rattle.web_headers.specs.declared.cache_control.CacheDirective.TheVariants as directive;

use crate::cache_control::CacheDirective;
use crate::value_readers::EachComma;
use std::alloc::Global;
use web_texts::{Fail, InvalidHeaderValue, NoMemory, Text, push_pieces};

fn is_text_byte(b: u8) -> bool
    ensures { result ≡ is_visible_or_blank b }
{
    b == b'\t' || b >= b' ' && b < 127
}

/// Whether a value of this text is header text.
fn is_header_text(text: &str) -> bool
    ensures { result ≡ is_visible_text text.now }
{
    for b in text.as_bytes() {
        if !is_text_byte(*b) {
            return false;
        }
    }
    true
}

/// The directives that a value of this text has, where it is header text.
fn read_value(alloc: Global, text: &str) -> Result<Option<Vec<CacheDirective>>, NoMemory>
    ensures { IfOk result (λ read. option_map (λ v. v.items) read
        ≡ comma_list_of cache_directive_of (text.now ∷ [])) }
{
    if !is_header_text(text) {
        return Ok(None);
    }
    let mut read = Vec::new(alloc);
    push_pieces::<EachComma, CacheDirective>(alloc, &mut read, text)?;
    Ok(Some(read))
}

fn is_same_argument(a: &Option<Text>, b: &Option<Text>) -> bool
    ensures { IsTrue result ↔ (a.now ≡ b.now) }
{
    match (a, b) {
        (Some(a), Some(b)) => a.as_str() == b.as_str(),
        (None, None) => true,
        _ => false,
    }
}

/// Whether the directive is the extension of this name and argument.
fn is_extension(found: &CacheDirective, name: &Text, argument: &Option<Text>) -> bool
    ensures { IsTrue result ↔ (found.now ≡ directive.Extension name.now argument.now) }
{
    match found {
        CacheDirective::Extension(own, own_argument) => {
            own.as_str() == name.as_str() && is_same_argument(own_argument, argument)
        }
        _ => false,
    }
}

/// Whether these directives are the extension of this name and argument alone.
fn is_only(found: &[CacheDirective], name: &Text, argument: &Option<Text>) -> bool
    ensures { IsTrue result ↔ (found.now ≡ directive.Extension name.now argument.now ∷ []) }
{
    match found {
        [only] => is_extension(only, name, argument),
        _ => false,
    }
}

fn reads_back(alloc: Global, name: &Text, argument: &Option<Text>) -> Result<bool, NoMemory>
    ensures { IfOk result (λ is. IsTrue is
        ↔ ReadsBack (directive.Extension name.now argument.now)) }
{
    let text = match argument {
        Some(argument) => format!(in alloc; "{name}={argument}")?,
        None => format!(in alloc; "{name}")?,
    };
    match read_value(alloc, text.as_str())? {
        Some(read) => Ok(is_only(read.as_slice(), name, argument)),
        None => Ok(false),
    }
}

impl CacheDirective {
    /// An extension of this name and argument, where a Cache-Control of what it prints says it
    /// alone. `InvalidHeaderValue` comes exactly where it does not: where a directive of this text
    /// is known; where the name is empty or has a `=`; where the argument is empty, or has a quote
    /// at either end; where one of them has a comma or a byte that is no header text; and where the
    /// text begins or ends with a blank.
    pub fn checked_extension(
        alloc: Global,
        name: Text,
        argument: Option<Text>,
    ) -> Result<CacheDirective, Fail<InvalidHeaderValue>>
        ensures { GivesChecked (directive.Extension name argument) result }
    {
        if reads_back(alloc, &name, &argument)? {
            Ok(CacheDirective::Extension(name, argument))
        } else {
            Err(Fail::Of(InvalidHeaderValue))
        }
    }
}
