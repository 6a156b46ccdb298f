//! Allow.

use crate::list_reader::read_list;
use crate::printed_list::fmt_comma_delimited;
use crate::typed_header::Header;
use http::Method;
use http_header::{ALLOW, HeaderMap, HeaderName, HeaderValue};
use std::alloc::Global;
use std::fmt;
use std::ops::{Deref, DerefMut};
use web_texts::{
    Duplicate, Fail, InvalidHeaderValue, Items, NoMemory, ParseError, TryIntoHeaderValue,
    printed_value,
};

/// Allow (RFC 9110, section 10.2.1): the methods that a resource has.
#[derive(Debug, Drop, PartialEq, Eq)]
pub struct Allow(pub Items<Method>);

impl Header for Allow {
    ghost use Rattle.std.specs.Prelude.{◌≡◌, codes};
    ghost use Rattle.std.specs.Option.{option_map};
    ghost use Rattle.web_headers.specs.ListHeaders.{allow_of};

    ghost says = { λ values said. option_map (λ header. header.0) said ≡ allow_of values };

    ghost called = { codes "allow" };

    fn name() -> HeaderName {
        ALLOW
    }

    fn parse(alloc: Global, headers: &HeaderMap<HeaderValue>) -> Result<Self, Fail<ParseError>> {
        Ok(Allow(read_list(alloc, headers, &ALLOW)?))
    }
}

impl fmt::Display for Allow {
    ghost use Rattle.std.specs.Prelude.{Some};
    ghost use Rattle.web_headers.specs.ListHeaders.{allow_text};

    ghost output = { λ header. Some (allow_text header.0) };

    fn fmt<W: fmt::Write>(&self, f: &mut fmt::Formatter<W>) -> fmt::Result {
        fmt_comma_delimited(f, self.0.as_slice())
    }
}

impl TryIntoHeaderValue for Allow {
    ghost use Rattle.http_header.specs.FieldValue.{plain_value};
    ghost use Rattle.web_headers.specs.ListHeaders.{allow_text};

    ghost value = { λ header. plain_value (allow_text header.0) };

    fn try_into_value(self, alloc: Global) -> Result<HeaderValue, Fail<InvalidHeaderValue>> {
        printed_value(alloc, &self)
    }
}

impl Duplicate for Allow {
    fn duplicate(&self, alloc: Global) -> Result<Allow, NoMemory> {
        Ok(Allow(self.0.duplicate(alloc)?))
    }
}

impl Deref for Allow {
    ghost use Rattle.std.specs.Prelude.{◌≡◌};

    type Target = Items<Method>;

    ghost deref_gives = { λ header items. items ≡ header.0 };

    fn deref(&self) -> &Items<Method> {
        &self.0
    }
}

impl DerefMut for Allow {
    ghost use Rattle.std.specs.Prelude.{◌≡◌};
    ghost use Rattle.std.specs.Borrow.{Lends, sem};
    ghost use Rattle.web_headers.specs.contracts.allow_header.Allow.{the_row};
    ghost use Rattle.web_texts.specs.contracts.texts.items.Items as items;
    ghost use Rattle.http.specs.contracts.method.Method as method;

    ghost deref_mut_gives = { λ header items. items ≡ header.0 };

    fn deref_mut(&mut self) -> &mut Items<Method>
        ensures* writes_back { sem 𝓛 (Lends the_row (items.the_row method.the_row)
            self.entry result (λ x. record { 0 = x })) }
        ensures shows { result.now ≡ self.old.0 }
    {
        &mut self.0
    }
}
