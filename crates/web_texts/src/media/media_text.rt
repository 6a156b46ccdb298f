//! The text of a media type.
ghost use Rattle.std.specs.Prelude.{flat_map};
ghost use Rattle.std.specs.Str.{chars};
ghost use Rattle.std.specs.Fmt.{WritesOnOk};
ghost use Rattle.web_texts.specs.MediaTypeTexts.{escaped};

use crate::grammar::tokens::is_token;
use crate::media::media_type::Mime;
use crate::texts::pair::Pair;
use std::fmt;

/// A character of quoted text.
#[derive(Drop)]
struct QuotedChar(char);

impl fmt::Display for QuotedChar {
    ghost use Rattle.std.specs.Prelude.{Some};
    ghost use Rattle.web_texts.specs.MediaTypeTexts.{escaped};

    ghost output = { λ c. Some (escaped c.0) };

    fn fmt<W: fmt::Write>(&self, f: &mut fmt::Formatter<W>) -> fmt::Result {
        match self.0 {
            '"' => f.write_str("\\\""),
            '\\' => f.write_str("\\\\"),
            c => f.write_char(c),
        }
    }
}

/// What stands between the quotes.
#[derive(Drop)]
struct Inner<'a>(&'a str);

impl<'a> fmt::Display for Inner<'a> {
    ghost use Rattle.std.specs.Prelude.{Some, flat_map};
    ghost use Rattle.std.specs.Str.{chars};
    ghost use Rattle.web_texts.specs.MediaTypeTexts.{escaped};

    ghost output = { λ q. Some (flat_map escaped (chars q.0.now)) };

    fn fmt<W: fmt::Write>(&self, f: &mut fmt::Formatter<W>) -> fmt::Result {
        write_escaped(f, self.0)
    }
}

fn write_escaped<W: fmt::Write>(f: &mut fmt::Formatter<W>, text: &str) -> fmt::Result
    ensures { WritesOnOk W.write_str_gives f.old result (flat_map escaped (chars text.now)) f.new }
{
    for c in text.chars() {
        write!(f, "{}", QuotedChar(c))?;
    }
    Ok(())
}

/// A value that is no token, between quotes.
#[derive(Drop)]
struct QuotedValue<'a>(&'a str);

impl<'a> fmt::Display for QuotedValue<'a> {
    ghost use Rattle.std.specs.Prelude.{Some};
    ghost use Rattle.web_texts.specs.MediaTypeTexts.{quoted_text};

    ghost output = { λ q. Some (quoted_text q.0.now) };

    fn fmt<W: fmt::Write>(&self, f: &mut fmt::Formatter<W>) -> fmt::Result {
        write!(f, "\"{}\"", Inner(self.0))
    }
}

/// A parameter, after a semicolon and a space.
#[derive(Drop)]
struct Parameter<'a>(&'a Pair);

impl<'a> fmt::Display for Parameter<'a> {
    ghost use Rattle.std.specs.Prelude.{Some};
    ghost use Rattle.web_texts.specs.MediaTypeTexts.{parameter_text};

    ghost output = { λ p. Some (parameter_text p.0.now) };

    fn fmt<W: fmt::Write>(&self, f: &mut fmt::Formatter<W>) -> fmt::Result {
        let name = self.0.name();
        let value = self.0.value();
        if is_token(value) {
            write!(f, "; {name}={value}")
        } else {
            write!(f, "; {name}={}", QuotedValue(value))
        }
    }
}

/// All parameters.
#[derive(Drop)]
struct Parameters<'a>(&'a [Pair]);

impl<'a> fmt::Display for Parameters<'a> {
    ghost use Rattle.std.specs.Prelude.{Some, flat_map};
    ghost use Rattle.web_texts.specs.MediaTypeTexts.{parameter_text};

    ghost output = { λ p. Some (flat_map parameter_text p.0.now) };

    fn fmt<W: fmt::Write>(&self, f: &mut fmt::Formatter<W>) -> fmt::Result {
        for param in self.0 {
            write!(f, "{}", Parameter(param))?;
        }
        Ok(())
    }
}

/// Writes the essence and, for each parameter, `; name=value`. A value that is no token is quoted,
/// with a backslash before each double quote and each backslash.
impl fmt::Display for Mime {
    ghost use Rattle.std.specs.Prelude.{Some};
    ghost use Rattle.web_texts.specs.MediaTypeTexts.{media_type_text};

    ghost output = { λ m. Some (media_type_text m) };

    fn fmt<W: fmt::Write>(&self, f: &mut fmt::Formatter<W>) -> fmt::Result {
        write!(f, "{}{}", self.essence(), Parameters(self.params()))
    }
}
