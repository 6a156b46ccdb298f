//! Parameters of a media type (RFC 9110, section 5.6.6).
ghost use Rattle.std.specs.Prelude.{◌≡◌, ◌==◌, ◌-◌, ◌&&◌, length, take, drop, slice_index};
ghost use Rattle.std.specs.Prelude.{true, false, MatchOption, IfOk};
ghost use Rattle.web_texts.specs.TextReaders.{Reads, ReadsBy};
ghost use Rattle.web_texts.specs.Pieces.{pieces};
ghost use Rattle.web_texts.specs.QuotedText.{is_closed as closed_test};
ghost use Rattle.web_texts.specs.ParameterPlaces.{semicolons};
ghost use Rattle.web_texts.specs.MediaTypes.{parameter_value, parameter, parameter_of};
ghost use Rattle.web_texts.specs.MediaTypes.{parameters_of, AddsParameter};
ghost use Rattle.web_texts.specs.declared.grammar.parameters.Quoting.TheVariants as place;

use crate::errors::MimeFault;
use crate::grammar::blanks::{trim, trim_front};
use crate::grammar::cut::cut_at;
use crate::grammar::pieces::{Mode, first_piece};
use crate::grammar::quoted_text::{is_closed, unescape};
use crate::grammar::tokens::{in_lowercase, is_token, to_lowercase};
use crate::memory::compact::push_single;
use crate::memory::{Fail, NoMemory};
use crate::texts::pair::Pair;
use crate::texts::text::Text;
use std::alloc::Global;

/// A place in a media type.
#[derive(Clone, Copy, Debug, PartialEq, Eq)]
pub enum Quoting {
    /// Outside of quoted text, where a semicolon ends a piece.
    Outside,
    /// In quoted text.
    Quoted,
    /// After a backslash in quoted text.
    Escaped,
}

impl Mode for Quoting {
    ghost use Rattle.std.proofs.Common.{lit<};

    ghost rule = { semicolons };

    fn first() -> Self {
        Quoting::Outside
    }

    fn ends(self, b: u8) -> bool {
        match self {
            Quoting::Outside => b == b';',
            _ => false,
        }
    }

    fn behind(self, b: u8) -> Self {
        match (self, b) {
            (Quoting::Outside, b'"') => Quoting::Quoted,
            (Quoting::Outside, _) => Quoting::Outside,
            (Quoting::Quoted, b'"') => Quoting::Outside,
            (Quoting::Quoted, b'\\') => Quoting::Escaped,
            (Quoting::Quoted | Quoting::Escaped, _) => Quoting::Quoted,
        }
    }

    ghost ascii = { lit< tt };
}

/// What stands between the quotes of a text that is quoted as a whole.
fn between_quotes(text: &str) -> Option<&str>
    ensures { MatchOption result
        ((slice_index text.now 0 == 34 && closed_test (drop 1 text.now)) ≡ false)
        (λ inner. ((slice_index text.now 0 == 34 && closed_test (drop 1 text.now)) ≡ true)
        × (inner.now ≡ take (length (drop 1 text.now) - 1) (drop 1 text.now))) }
{
    if !text.starts_with('"') {
        return None;
    }
    let rest = &text[1..];
    if !is_closed(rest.as_bytes()) {
        return None;
    }
    Some(&rest[..rest.len() - 1])
}

fn read_value(alloc: Global, text: &str) -> Result<Text, Fail<MimeFault>>
    ensures { Reads result (parameter_value text.now) }
{
    if is_token(text) {
        return Ok(Text::of(alloc, text)?);
    }
    match between_quotes(text) {
        Some(inner) => Ok(unescape(alloc, inner)?),
        None => Err(Fail::Of(MimeFault)),
    }
}

fn make_parameter(name: Text, value: Text) -> Result<Pair, NoMemory>
    ensures { IfOk result (λ made. made ≡ parameter name value) }
{
    let value = if name.as_str() == "charset" {
        in_lowercase(value)
    } else {
        value
    };
    Pair::named(name, value.as_str())
}

fn read_parameter(alloc: Global, piece: &str) -> Result<Pair, Fail<MimeFault>>
    ensures { Reads result (parameter_of piece.now) }
{
    let Some((name, value)) = cut_at(piece, b'=') else {
        return Err(Fail::Of(MimeFault));
    };
    if !is_token(name) {
        return Err(Fail::Of(MimeFault));
    }
    let name = to_lowercase(alloc, name)?;
    let value = read_value(alloc, value)?;
    Ok(make_parameter(name, value)?)
}

fn push_parameter(alloc: Global, params: &mut Vec<Pair>, piece: &str) -> Result<(), Fail<MimeFault>>
    ensures { AddsParameter piece.now params.old.items params.new.items result }
{
    let param = read_parameter(alloc, piece)?;
    push_single(params, param)?;
    Ok(())
}

/// The parameters after the first semicolon of a media type.
#[tactic(auto, using(crate::proofs::ParameterLemmas::first_parameter))]
pub fn read_parameters(alloc: Global, text: &str) -> Result<Vec<Pair>, Fail<MimeFault>>
    ensures { ReadsBy (λ v. v.items) result
        (parameters_of (pieces semicolons place.Outside text.now)) }
{
    let mut params = Vec::new(alloc);
    let mut rest = text;
    'pieces: loop {
        let (piece, behind) = first_piece::<Quoting>(rest);
        match behind {
            Some(behind) => {
                push_parameter(alloc, &mut params, trim(piece))?;
                rest = behind;
            }
            None => {
                let last = trim_front(piece);
                if !last.is_empty() {
                    push_parameter(alloc, &mut params, last)?;
                }
                return Ok(params);
            }
        }
    }
}
