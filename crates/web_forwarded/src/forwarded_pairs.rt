//! Reading the header Forwarded.
ghost use Rattle.std.specs.Prelude.{◌≡◌, [], ◌∷◌, codes, option_copied};
ghost use Rattle.std.specs.List.{slice_split};
ghost use Rattle.std.specs.Option.{option_or};
ghost use Rattle.http_header.specs.HeaderMap.{get_all};
ghost use Rattle.web_texts.specs.Bytes.{is_comma};
ghost use Rattle.web_forwarded.specs.ForwardedPairs.{GoesOn, forwarded_pairs, pairs_of, said_by};
ghost use Rattle.web_forwarded.specs.ForwardedPairs.{value_under};

use http_header::{FORWARDED, HeaderMap, HeaderValue};
use std::marker::Model;
use web_texts::{cut_at, first_part, header_text, trim, unquoted};

/// What the header Forwarded says (RFC 7239, section 4): of each name the value of its first pair.
#[derive(Drop)]
pub struct Forwarded<'a> {
    /// `for`: the node that sent the request to the first proxy.
    pub client: Option<&'a str>,
    /// `host`: the Host field as the proxy received it.
    pub host: Option<&'a str>,
    /// `proto`: the scheme of the request that the proxy received.
    pub scheme: Option<&'a str>,
}

impl<'a> Model for Forwarded<'a> {
    ghost use Rattle.std.specs.Prelude.{option_copied};
    ghost use Rattle.web_forwarded.specs.ForwardedPairs.{ForwardedFields};

    ghost Value = { ForwardedFields };

    ghost view = { λ f. record {
      client = option_copied f.client;
      host = option_copied f.host;
      scheme = option_copied f.scheme;
    } };
}

impl<'a> Forwarded<'a> {
    fn nothing() -> Forwarded<'a>
        ensures { result ≡ said_by [] }
    {
        Forwarded {
            client: None,
            host: None,
            scheme: None,
        }
    }

    /// Reads the values of the header, in their order. One that is no header text is left out.
    pub fn read(headers: &'a HeaderMap<HeaderValue>) -> Forwarded<'a>
        ensures { result ≡ said_by (forwarded_pairs (get_all headers.now (codes "forwarded"))) }
    {
        let mut said = Forwarded::nothing();
        for value in headers.get_all(FORWARDED) {
            if let Some(text) = header_text(value) {
                said = said.or_text(text);
            }
        }
        said
    }

    /// What is said so far, else by a text of the header.
    fn or_text(self, text: &'a str) -> Forwarded<'a>
        ensures { GoesOn self.entry (pairs_of text.now) result }
    {
        let mut said = self;
        let mut rest = text;
        'parts: loop {
            let (part, behind) = first_part(rest, b';');
            said = said.or_part(part);
            match behind {
                Some(behind) => rest = behind,
                None => return said,
            }
        }
    }

    /// What is said so far, else by a part of the header without semicolons.
    fn or_part(self, text: &'a str) -> Forwarded<'a>
        ensures { GoesOn self.entry (slice_split is_comma text.now) result }
    {
        let mut said = self;
        let mut rest = text;
        'pairs: loop {
            let (pair, behind) = first_part(rest, b',');
            said = said.or_pair(pair);
            match behind {
                Some(behind) => rest = behind,
                None => return said,
            }
        }
    }

    /// What is said so far, else by a pair.
    fn or_pair(self, pair: &'a str) -> Forwarded<'a>
        ensures { GoesOn self.entry (pair.now ∷ []) result }
    {
        match cut_at(pair, b'=') {
            Some((name, value)) => {
                let name = trim(name);
                Forwarded {
                    client: or_named(self.client, "for", name, value),
                    host: or_named(self.host, "host", name, value),
                    scheme: or_named(self.scheme, "proto", name, value),
                }
            }
            None => self,
        }
    }
}

/// What was found, else the value where it has this name.
fn or_named<'a>(found: Option<&'a str>, wanted: &str, name: &str, value: &'a str) -> Option<&'a str>
    ensures { option_copied result
        ≡ option_or (option_copied found.entry) (value_under wanted.now name.now value.now) }
{
    match found {
        Some(text) => Some(text),
        None if name.eq_ignore_ascii_case(wanted) => Some(unquoted(trim(value))),
        None => None,
    }
}
