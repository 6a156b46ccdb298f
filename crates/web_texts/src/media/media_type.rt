//! Media types (RFC 9110, section 8.3.1).
ghost use Rattle.std.specs.Prelude.{◌≡◌, Some, true, IfOk};
ghost use Rattle.std.specs.List.{before_first, after_first};
ghost use Rattle.std.specs.Option.{option_map};
ghost use Rattle.web_texts.specs.TextReaders.{Reads};
ghost use Rattle.web_texts.specs.MediaTypes.{is_slash, is_essence as essence_test};
ghost use Rattle.web_texts.specs.MediaTypes.{subtype_of, suffix_of, with_parameters};
ghost use Rattle.web_texts.specs.MediaTypes.{charset_of, is_named, value_in};
ghost use Rattle.web_texts.specs.MediaTypes.{media_type_of, essence_of, param_value};
ghost use Rattle.web_texts.specs.WrittenMediaTypes.{AreKeptParameters};

use crate::errors::{MimeFault, ParseError};
use crate::grammar::blanks::trim_end;
use crate::grammar::cut::{cut_at, cut_at_last, split_str_once};
use crate::grammar::parameters::{Quoting, read_parameters};
use crate::grammar::pieces::first_piece;
use crate::grammar::readers::ReadText;
use crate::grammar::tokens::{is_token, to_lowercase};
use crate::media::written_media::{are_plain, behind};
use crate::memory::duplicate::Duplicate;
use crate::memory::{Fail, NoMemory};
use crate::texts::items::Items;
use crate::texts::pair::Pair;
use crate::texts::text::Text;
use std::alloc::Global;
use std::marker::Model;

/// A media type: a type, a subtype, a suffix where there is one, and parameters. Contracts see a
/// record of these. It is kept, and compared, with type, subtype, suffix, the names of parameters
/// and the values of `charset` in lower case; all other values are compared exactly, and parameters
/// as a list.
#[derive(Debug, Drop)]
pub struct Mime {
    essence: Text,
    params: Items<Pair>,
}

impl Model for Mime {
    ghost use Rattle.web_texts.specs.MediaTypes.{MediaType, of_essence};
    ghost use Rattle.web_texts.specs.WrittenMediaTypes.{IsKept};

    ghost Value = { MediaType };

    ghost view = { λ m. of_essence m.essence m.params };

    ghost invariant = { λ m. IsKept m.essence m.params };
}

fn is_essence(text: &str) -> bool
    ensures { result ≡ essence_test text.now }
{
    match cut_at(text, b'/') {
        Some((type_, second)) => is_token(type_) && is_token(second),
        None => false,
    }
}

#[tactic(auto, using(crate::proofs::KeptMediaLemmas::kept_lowered))]
fn with_params(alloc: Global, essence: &str, params: Vec<Pair>) -> Result<Mime, Fail<MimeFault>>
    requires { AreKeptParameters params.items }
    ensures { Reads result (with_parameters essence.now params.items) }
{
    if !is_essence(essence) {
        return Err(Fail::Of(MimeFault));
    }
    let essence = to_lowercase(alloc, essence)?;
    let params = Items::of(params);
    Ok(Mime { essence, params })
}

fn before_slash(text: &str) -> &str
    ensures { result.now ≡ before_first is_slash text.now }
{
    match split_str_once(text, b'/') {
        Some((before, _)) => before,
        None => text,
    }
}

fn behind_slash(text: &str) -> &str
    ensures { result.now ≡ after_first is_slash text.now }
{
    match split_str_once(text, b'/') {
        Some((_, behind)) => behind,
        None => "",
    }
}

/// The subtype and the suffix, of what stands after the slash.
fn split_suffix(second: &str) -> (&str, Option<&str>)
    ensures subtype { result.0.now ≡ subtype_of second.now }
    ensures suffix { option_map (λ s. s.now) result.1 ≡ suffix_of second.now }
{
    match cut_at_last(second, b'+') {
        Some((subtype, suffix)) if !subtype.is_empty() && !suffix.is_empty() => {
            (subtype, Some(suffix))
        }
        _ => (second, None),
    }
}

impl Mime {
    /// Reads a media type: two tokens with a slash between them, and any number of parameters, each
    /// after a semicolon, whose values are tokens or quoted text. Spaces and tabs may stand round
    /// a semicolon, and nothing need stand after the last one. In quoted text a backslash keeps
    /// the next byte. Returns `MimeFault` for every other text.
    pub fn parse(alloc: Global, text: &str) -> Result<Mime, Fail<MimeFault>>
        ensures { Reads result (media_type_of text.now) }
    {
        let (essence, behind) = first_piece::<Quoting>(text);
        match behind {
            None => with_params(alloc, essence, Vec::new(alloc)),
            Some(behind) => {
                let params = read_parameters(alloc, behind)?;
                with_params(alloc, trim_end(essence), params)
            }
        }
    }

    /// The type, as `text`, in lower case.
    pub fn type_(&self) -> &str
        ensures { result.now ≡ self.now.type_ }
    {
        before_slash(self.essence.as_str())
    }

    /// The subtype, in lower case: all after the slash, but for the suffix.
    pub fn subtype(&self) -> &str
        ensures { result.now ≡ self.now.subtype }
    {
        split_suffix(behind_slash(self.essence.as_str())).0
    }

    /// What stands after the last plus sign of the second token, where something stands on both
    /// sides of it, in lower case; as `json` of `application/problem+json`.
    pub fn suffix(&self) -> Option<&str>
        ensures { option_map (λ s. s.now) result ≡ self.now.suffix }
    {
        split_suffix(behind_slash(self.essence.as_str())).1
    }

    /// The media type without its parameters: `type/subtype` or `type/subtype+suffix`.
    pub fn essence(&self) -> &str
        ensures { result.now ≡ essence_of self.now }
    {
        self.essence.as_str()
    }

    /// The parameters in order. Names are in lower case, and so are the values of `charset`.
    pub fn params(&self) -> &[Pair]
        ensures { result.now ≡ self.now.params }
    {
        self.params.as_slice()
    }

    /// The value of the first parameter of a name, which is given in any ASCII case.
    pub fn param(&self, name: &str) -> Option<&str>
        ensures { option_map (λ value. value.now) result ≡ param_value name.now self.now }
    {
        first_value(self.params.as_slice(), name)
    }

    /// Whether a text is this media type in its plainest spelling: in lower case, with at most one
    /// space after each semicolon and no other blank, and without quotes. Another text may name
    /// the same media type. It takes no memory.
    pub fn is_written(&self, text: &str) -> bool
        ensures { result ≡ true → media_type_of text.now ≡ Some self.now }
    {
        match behind(text.as_bytes(), self.essence.as_str().as_bytes()) {
            Some(params) => are_plain(self.params.as_slice(), params),
            None => false,
        }
    }

    /// The value of the first `charset`, in lower case.
    pub fn charset(&self) -> Option<&str>
        ensures { option_map (λ value. value.now) result ≡ charset_of self.now }
    {
        self.param("charset")
    }
}

#[tactic(auto, unfolding(crate::specs::MediaTypes::is_named))]
fn has_name(param: &Pair, name: &str) -> bool
    ensures { result ≡ is_named name.now param.now }
{
    param.name().eq_ignore_ascii_case(name)
}

fn first_value<'a>(params: &'a [Pair], name: &str) -> Option<&'a str>
    ensures { option_map (λ value. value.now) result ≡ value_in name.now params.now }
{
    let mut rest = params;
    'params: loop {
        match rest {
            [] => return None,
            [param, more @ ..] => {
                if has_name(param, name) {
                    return Some(param.value());
                }
                rest = more;
            }
        }
    }
}

impl PartialEq for Mime {
    ghost use Rattle.std.specs.Cmp.{partial_equiv_from_equiv};
    ghost use Rattle.web_texts.specs.MediaTypes.{media_type_eq};
    ghost use Rattle.web_texts.specs.MediaTypeEquality.{media_type_eq_law};

    ghost eq = { media_type_eq };

    ghost laws = { partial_equiv_from_equiv media_type_eq_law };

    #[tactic(auto, using(crate::proofs::KeptMediaLemmas::kept_back))]
    fn eq(&self, other: &Mime) -> bool {
        self.essence() == other.essence() && self.params() == other.params()
    }
}

impl Eq for Mime {
    ghost use Rattle.web_texts.specs.MediaTypeEquality.{media_type_eq_law};

    ghost laws = { media_type_eq_law };
}

impl ReadText for Mime {
    ghost reads = { media_type_of };

    fn parse(alloc: Global, text: &str) -> Result<Self, Fail<ParseError>> {
        match Mime::parse(alloc, text) {
            Ok(mime) => Ok(mime),
            Err(Fail::NoMemory) => Err(Fail::NoMemory),
            Err(Fail::Of(MimeFault)) => Err(Fail::Of(ParseError::Header)),
        }
    }
}

impl Duplicate for Mime {
    fn duplicate(&self, alloc: Global) -> Result<Mime, NoMemory> {
        let essence = self.essence.duplicate(alloc)?;
        let params = self.params.duplicate(alloc)?;
        Ok(Mime { essence, params })
    }
}
