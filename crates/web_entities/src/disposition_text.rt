//! The text that a disposition prints.
ghost use Rattle.std.specs.Prelude.{◌≡◌, IsTrue, flat_map};
ghost use Rattle.std.specs.Str.{chars};
ghost use Rattle.std.specs.Fmt.{WritesOnOk};
ghost use Rattle.web_entities.specs.DispositionTexts.{is_escaped, escaped_char};

use crate::content_disposition::{ContentDisposition, DispositionType};
use crate::disposition_param::DispositionParam;
use std::fmt;

#[tactic(auto, unfolding(crate::specs::DispositionTexts::is_escaped))]
fn needs_backslash(c: char) -> bool
    ensures { result ≡ is_escaped c }
{
    let c = c as u32;
    c <= 8 || c >= 16 && c <= 31 || c == 127 || c == 34 || c == 92
}

/// Prints a character of quoted text.
#[derive(Drop)]
struct Escaped(char);

impl fmt::Display for Escaped {
    ghost use Rattle.std.specs.Prelude.{Some};
    ghost use Rattle.web_entities.specs.DispositionTexts.{escaped_char};

    ghost output = { λ c. Some (escaped_char c.0) };

    fn fmt<W: fmt::Write>(&self, f: &mut fmt::Formatter<W>) -> fmt::Result {
        if needs_backslash(self.0) {
            f.write_str("\\")?;
        }
        f.write_char(self.0)
    }
}

/// Whether no character needs a backslash.
#[tactic(auto, using(crate::proofs::PlainTextLemmas::plain_more))]
fn is_plain(text: &str) -> bool
    ensures { IsTrue result → flat_map escaped_char (chars text.now) ≡ text.now }
{
    for c in text.chars() {
        if needs_backslash(c) {
            return false;
        }
    }
    true
}

fn write_escaped<W: fmt::Write>(f: &mut fmt::Formatter<W>, text: &str) -> fmt::Result
    ensures { WritesOnOk W.write_str_gives f.old result
        (flat_map escaped_char (chars text.now)) f.new }
{
    if is_plain(text) {
        return f.write_str(text);
    }
    for c in text.chars() {
        write!(f, "{}", Escaped(c))?;
    }
    Ok(())
}

/// Prints what stands between quotes.
#[derive(Drop)]
struct Inner<'a>(&'a str);

impl<'a> fmt::Display for Inner<'a> {
    ghost use Rattle.std.specs.Prelude.{Some, flat_map};
    ghost use Rattle.std.specs.Str.{chars};
    ghost use Rattle.web_entities.specs.DispositionTexts.{escaped_char};

    ghost output = { λ q. Some (flat_map escaped_char (chars q.0.now)) };

    fn fmt<W: fmt::Write>(&self, f: &mut fmt::Formatter<W>) -> fmt::Result {
        write_escaped(f, self.0)
    }
}

impl fmt::Display for DispositionParam {
    ghost use Rattle.std.specs.Prelude.{Some};
    ghost use Rattle.web_entities.specs.DispositionTexts.{param_text};

    ghost output = { λ p. Some (param_text p) };

    fn fmt<W: fmt::Write>(&self, f: &mut fmt::Formatter<W>) -> fmt::Result {
        match self {
            DispositionParam::Name(value) => write!(f, "; name={value}"),
            DispositionParam::Filename(value) => {
                write!(f, "; filename=\"{}\"", Inner(value.as_str()))
            }
            DispositionParam::Unknown(name, value) => {
                write!(f, "; {name}=\"{}\"", Inner(value.as_str()))
            }
            DispositionParam::FilenameExt(value) => write!(f, "; filename*={value}"),
            DispositionParam::UnknownExt(name, value) => write!(f, "; {name}*={value}"),
        }
    }
}

impl fmt::Display for DispositionType {
    ghost use Rattle.std.specs.Prelude.{Some};
    ghost use Rattle.web_entities.specs.DispositionTexts.{type_text};

    ghost output = { λ t. Some (type_text t) };

    fn fmt<W: fmt::Write>(&self, f: &mut fmt::Formatter<W>) -> fmt::Result {
        match self {
            DispositionType::Inline => f.write_str("inline"),
            DispositionType::Attachment => f.write_str("attachment"),
            DispositionType::FormData => f.write_str("form-data"),
            DispositionType::Ext(name) => f.write_str(name.as_str()),
        }
    }
}

/// Prints all parameters.
#[derive(Drop)]
struct Params<'a>(&'a [DispositionParam]);

impl<'a> fmt::Display for Params<'a> {
    ghost use Rattle.std.specs.Prelude.{Some, flat_map};
    ghost use Rattle.web_entities.specs.DispositionTexts.{param_text};

    ghost output = { λ p. Some (flat_map param_text p.0.now) };

    fn fmt<W: fmt::Write>(&self, f: &mut fmt::Formatter<W>) -> fmt::Result {
        for param in self.0 {
            write!(f, "{param}")?;
        }
        Ok(())
    }
}

impl fmt::Display for ContentDisposition {
    ghost use Rattle.std.specs.Prelude.{Some};
    ghost use Rattle.web_entities.specs.DispositionTexts.{disposition_text};

    ghost output = { λ d. Some (disposition_text d) };

    fn fmt<W: fmt::Write>(&self, f: &mut fmt::Formatter<W>) -> fmt::Result {
        let params = Params(self.parameters.as_slice());
        write!(f, "{}{params}", self.disposition)
    }
}
