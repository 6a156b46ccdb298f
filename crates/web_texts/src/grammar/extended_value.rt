//! Extended values of parameters.
ghost use Rattle.std.specs.Prelude.{◌≡◌, ◌<◌, IfOk, IsTrue};
ghost use Rattle.std.specs.Fmt.{WritesOnOk};
ghost use Rattle.percent_encoding.specs.Percent.{percent_decode as decoded};
ghost use Rattle.web_texts.specs.ExtendedValues.{optional_tag_of, value_behind};
ghost use Rattle.web_texts.specs.ExtendedValues.{extended_value_of, escaped};
ghost use Rattle.web_texts.specs.ExtendedValues.{is_attr_char as is_attr_char_spec};
ghost use Rattle.web_texts.specs.TextReaders.{Reads};

use crate::errors::ParseError;
use crate::grammar::cut::cut_at;
use crate::grammar::readers::ReadText;
use crate::media::charsets::Charset;
use crate::media::language_tag::LanguageTag;
use crate::memory::duplicate::Duplicate;
use crate::memory::{Fail, NoMemory};
use crate::texts::items::Items;
use percent_encoding::{percent_decode, percent_encode_byte};
use std::alloc::Global;
use std::fmt;

/// The value of a parameter whose name ends in `*` (RFC 5987, section 3.2): bytes in a charset, and
/// their language.
#[derive(Debug, Drop, PartialEq, Eq)]
pub struct ExtendedValue {
    /// The charset of the bytes.
    pub charset: Charset,
    /// The language of the text, if one is given.
    pub language_tag: Option<LanguageTag>,
    /// The bytes, decoded.
    pub value: Items<u8>,
}

fn decode(alloc: Global, text: &str) -> Result<Items<u8>, NoMemory>
    ensures { IfOk result (λ bytes. bytes ≡ decoded text.now) }
{
    let mut bytes = Vec::new(alloc);
    percent_decode(text.as_bytes()).append_to(&mut bytes)?;
    Ok(Items::of(bytes))
}

fn read_tag(alloc: Global, text: &str) -> Result<Option<LanguageTag>, Fail<ParseError>>
    ensures { Reads result (optional_tag_of text.now) }
{
    if text.is_empty() {
        return Ok(None);
    }
    let tag = <LanguageTag as ReadText>::parse(alloc, text)?;
    Ok(Some(tag))
}

fn read_behind(alloc: Global, charset: &str, rest: &str) -> Result<ExtendedValue, Fail<ParseError>>
    ensures { Reads result (value_behind charset.now rest.now) }
{
    let Some((tag, value)) = cut_at(rest, b'\'') else {
        return Err(Fail::Of(ParseError::Header));
    };
    let language_tag = read_tag(alloc, tag)?;
    let charset = Charset::parse(alloc, charset)?;
    let value = decode(alloc, value)?;
    Ok(ExtendedValue {
        charset,
        language_tag,
        value,
    })
}

/// Reads an extended value: a charset, a language or nothing, and a value in percent-encoding, with
/// `'` between them. Returns `ParseError::Header` where there are fewer than two `'`, or where the
/// language is no tag. A `%` without two hexadecimal digits stays as it is.
pub fn parse_extended_value(alloc: Global, text: &str) -> Result<ExtendedValue, Fail<ParseError>>
    ensures { Reads result (extended_value_of text.now) }
{
    match cut_at(text, b'\'') {
        Some((charset, rest)) => read_behind(alloc, charset, rest),
        None => Err(Fail::Of(ParseError::Header)),
    }
}

impl ReadText for ExtendedValue {
    ghost use Rattle.web_texts.specs.ExtendedValues.{extended_value_of};

    ghost reads = { extended_value_of };

    fn parse(alloc: Global, text: &str) -> Result<ExtendedValue, Fail<ParseError>> {
        parse_extended_value(alloc, text)
    }
}

impl Duplicate for ExtendedValue {
    fn duplicate(&self, alloc: Global) -> Result<ExtendedValue, NoMemory> {
        let charset = self.charset.duplicate(alloc)?;
        let language_tag = self.language_tag.duplicate(alloc)?;
        let bytes = Vec::from_slice(alloc, self.value.as_slice())?;
        Ok(ExtendedValue {
            charset,
            language_tag,
            value: Items::of(bytes),
        })
    }
}

#[tactic(auto, unfolding(crate::specs::ExtendedValues::is_attr_char))]
fn is_attr_char(b: u8) -> bool
    ensures value { result ≡ is_attr_char_spec b }
    ensures ascii { IsTrue result → b < 128 }
{
    b.is_ascii_alphanumeric() || b"!#$&+-.^_`|~".contains(&b)
}

/// A byte as it stands in percent-encoding.
#[derive(Drop)]
struct EscapedByte(u8);

impl fmt::Display for EscapedByte {
    ghost use Rattle.std.specs.Prelude.{Some};
    ghost use Rattle.web_texts.specs.ExtendedValues.{escaped_byte};

    ghost output = { λ b. Some (escaped_byte b.0) };

    fn fmt<W: fmt::Write>(&self, f: &mut fmt::Formatter<W>) -> fmt::Result {
        if is_attr_char(self.0) {
            f.write_char(char::from(self.0))
        } else {
            f.write_str(percent_encode_byte(self.0))
        }
    }
}

fn write_escaped<W: fmt::Write>(f: &mut fmt::Formatter<W>, bytes: &[u8]) -> fmt::Result
    ensures { WritesOnOk W.write_str_gives f.old result (escaped bytes.now) f.new }
{
    for byte in bytes {
        write!(f, "{}", EscapedByte(*byte))?;
    }
    Ok(())
}

/// Prints bytes in percent-encoding.
#[derive(Drop)]
struct Escaped<'a>(&'a [u8]);

impl<'a> fmt::Display for Escaped<'a> {
    ghost use Rattle.std.specs.Prelude.{Some};
    ghost use Rattle.web_texts.specs.ExtendedValues.{escaped};

    ghost output = { λ e. Some (escaped e.0.now) };

    fn fmt<W: fmt::Write>(&self, f: &mut fmt::Formatter<W>) -> fmt::Result {
        write_escaped(f, self.0)
    }
}

impl fmt::Display for ExtendedValue {
    ghost use Rattle.std.specs.Prelude.{Some};
    ghost use Rattle.web_texts.specs.ExtendedValues.{extended_value_text};

    ghost output = { λ v. Some (extended_value_text v) };

    fn fmt<W: fmt::Write>(&self, f: &mut fmt::Formatter<W>) -> fmt::Result {
        let tag = match &self.language_tag {
            Some(tag) => tag.as_str(),
            None => "",
        };
        let value = Escaped(self.value.as_slice());
        write!(f, "{}'{tag}'{value}", self.charset)
    }
}
