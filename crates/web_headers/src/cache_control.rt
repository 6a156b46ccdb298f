//! Cache-Control.
ghost use Rattle.std.specs.Prelude.{◌≡◌, ◌++◌, IfOk, IfSome, Some, decimal};
ghost use Rattle.std.specs.Fmt.{WritesOnOk};
ghost use Rattle.std.specs.Str.{bytes_eq};
ghost use Rattle.web_texts.specs.Cut.{split_once};
ghost use Rattle.web_texts.specs.TextReaders.{NeverNoMemory, Reads};
ghost use Rattle.web_headers.specs.CacheDirectives.{plain_directive as plain_spec, seconds_of};
ghost use Rattle.web_headers.specs.CacheDirectives.{argument_directive, named_directive};
ghost use Rattle.web_headers.specs.CacheDirectives.{extension_text, TakesNoMemory};
ghost use Rattle.web_headers.specs.declared.cache_control.CacheDirective.TheVariants as directive;

use crate::list_reader::read_some_list;
use crate::printed_list::fmt_comma_delimited;
use crate::typed_header::Header;
use http_header::{CACHE_CONTROL, HeaderMap, HeaderName, HeaderValue};
use std::alloc::Global;
use std::fmt;
use std::ops::{Deref, DerefMut};
use web_texts::{
    Duplicate, Fail, InvalidHeaderValue, Items, NoMemory, ParseError, ReadText, Text,
    TryIntoHeaderValue, cut_at, number_of, printed_value, unquoted,
};

/// Cache-Control (RFC 9111, section 5.2): directives for caches. Where it is read, at least one
/// stands in it.
#[derive(Debug, Drop, PartialEq, Eq)]
pub struct CacheControl(pub Items<CacheDirective>);

/// One directive of Cache-Control (RFC 9111, section 5.2). Times are in seconds.
#[derive(Debug, Drop, PartialEq, Eq)]
pub enum CacheDirective {
    /// `no-cache`
    NoCache,
    /// `no-store`
    NoStore,
    /// `no-transform`
    NoTransform,
    /// `only-if-cached`
    OnlyIfCached,
    /// `max-age=` and seconds
    MaxAge(u32),
    /// `max-stale=` and seconds
    MaxStale(u32),
    /// `min-fresh=` and seconds
    MinFresh(u32),
    /// `must-revalidate`
    MustRevalidate,
    /// `public`
    Public,
    /// `private`
    Private,
    /// `proxy-revalidate`
    ProxyRevalidate,
    /// `s-maxage=` and seconds
    SMaxAge(u32),
    /// Any other name, and its argument if it has one. Both are printed as they are: a comma in one
    /// from outside ends the directive, and what follows is another one.
    /// `CacheDirective::checked_extension` refuses such a text.
    Extension(Text, Option<Text>),
}

fn is_same(a: &str, b: &str) -> bool
    ensures { result ≡ bytes_eq a.now b.now }
{
    a == b
}

fn plain_directive(text: &str) -> Option<CacheDirective>
    ensures { result ≡ plain_spec text.now }
{
    if is_same(text, "no-cache") {
        Some(CacheDirective::NoCache)
    } else if is_same(text, "no-store") {
        Some(CacheDirective::NoStore)
    } else if is_same(text, "no-transform") {
        Some(CacheDirective::NoTransform)
    } else if is_same(text, "only-if-cached") {
        Some(CacheDirective::OnlyIfCached)
    } else if is_same(text, "must-revalidate") {
        Some(CacheDirective::MustRevalidate)
    } else if is_same(text, "public") {
        Some(CacheDirective::Public)
    } else if is_same(text, "private") {
        Some(CacheDirective::Private)
    } else if is_same(text, "proxy-revalidate") {
        Some(CacheDirective::ProxyRevalidate)
    } else {
        None
    }
}

fn read_seconds(text: &str) -> Option<u32>
    ensures { result ≡ seconds_of text.now }
{
    match number_of(text.as_bytes(), 4_294_967_295) {
        Some(seconds) => Some(seconds as u32),
        None => None,
    }
}

fn extension(alloc: Global, name: &str, argument: &str) -> Result<CacheDirective, Fail<ParseError>>
    ensures { Reads result (Some (directive.Extension name.now (Some argument.now))) }
{
    let name = Text::of(alloc, name)?;
    let argument = Text::of(alloc, argument)?;
    Ok(CacheDirective::Extension(name, Some(argument)))
}

fn read_argument(
    alloc: Global,
    name: &str,
    argument: &str,
) -> Result<CacheDirective, Fail<ParseError>>
    ensures value { Reads result (argument_directive name.now argument.now) }
    ensures memory { IfSome (argument_directive name.now argument.now) TakesNoMemory
        → NeverNoMemory result }
{
    let known = if is_same(name, "max-age") {
        read_seconds(argument).map(CacheDirective::MaxAge)
    } else if is_same(name, "max-stale") {
        read_seconds(argument).map(CacheDirective::MaxStale)
    } else if is_same(name, "min-fresh") {
        read_seconds(argument).map(CacheDirective::MinFresh)
    } else if is_same(name, "s-maxage") {
        read_seconds(argument).map(CacheDirective::SMaxAge)
    } else {
        return extension(alloc, name, argument);
    };
    known.ok_or(Fail::Of(ParseError::Header))
}

fn read_named(alloc: Global, text: &str) -> Result<CacheDirective, Fail<ParseError>>
    ensures value { Reads result (named_directive text.now (split_once 61 text.now)) }
    ensures memory { IfSome (named_directive text.now (split_once 61 text.now)) TakesNoMemory
        → NeverNoMemory result }
{
    match cut_at(text, b'=') {
        Some((_, argument)) if argument.is_empty() => Err(Fail::Of(ParseError::Header)),
        Some((name, argument)) => read_argument(alloc, name, unquoted(argument)),
        None => Ok(CacheDirective::Extension(Text::of(alloc, text)?, None)),
    }
}

impl ReadText for CacheDirective {
    ghost use Rattle.std.specs.Prelude.{IfSome};
    ghost use Rattle.web_texts.specs.TextReaders.{NeverNoMemory, Reads};
    ghost use Rattle.web_headers.specs.CacheDirectives.{cache_directive_of, TakesNoMemory};

    ghost reads = { cache_directive_of };

    /// Reads a directive. The names that are known are in lower case, and seconds are at most
    /// 2^32 - 1. `ParseError::Header` comes for the empty text, where nothing stands after the
    /// first `=`, and for seconds that are no such number. Only an `Extension` takes memory.
    fn parse(alloc: Global, text: &str) -> Result<CacheDirective, Fail<ParseError>>
        ensures value { Reads result (cache_directive_of text.now) }
        ensures memory { IfSome (cache_directive_of text.now) TakesNoMemory
            → NeverNoMemory result }
    {
        if text.is_empty() {
            return Err(Fail::Of(ParseError::Header));
        }
        match plain_directive(text) {
            Some(plain) => Ok(plain),
            None => read_named(alloc, text),
        }
    }
}

fn fmt_seconds<W: fmt::Write>(f: &mut fmt::Formatter<W>, name: &str, seconds: u32) -> fmt::Result
    ensures { WritesOnOk W.write_str_gives f.old result (name.now ++ decimal seconds) f.new }
{
    write!(f, "{name}{seconds}")
}

fn fmt_extension<W: fmt::Write>(
    f: &mut fmt::Formatter<W>,
    name: &str,
    argument: &Option<Text>,
) -> fmt::Result
    ensures { WritesOnOk W.write_str_gives f.old result
        (extension_text name.now argument.now) f.new }
{
    match argument {
        Some(argument) => write!(f, "{name}={argument}"),
        None => f.write_str(name),
    }
}

impl fmt::Display for CacheDirective {
    ghost use Rattle.std.specs.Prelude.{Some};
    ghost use Rattle.web_headers.specs.CacheDirectives.{cache_directive_text};

    ghost output = { λ d. Some (cache_directive_text d) };

    fn fmt<W: fmt::Write>(&self, f: &mut fmt::Formatter<W>) -> fmt::Result {
        match self {
            CacheDirective::NoCache => f.write_str("no-cache"),
            CacheDirective::NoStore => f.write_str("no-store"),
            CacheDirective::NoTransform => f.write_str("no-transform"),
            CacheDirective::OnlyIfCached => f.write_str("only-if-cached"),
            CacheDirective::MaxAge(seconds) => fmt_seconds(f, "max-age=", *seconds),
            CacheDirective::MaxStale(seconds) => fmt_seconds(f, "max-stale=", *seconds),
            CacheDirective::MinFresh(seconds) => fmt_seconds(f, "min-fresh=", *seconds),
            CacheDirective::MustRevalidate => f.write_str("must-revalidate"),
            CacheDirective::Public => f.write_str("public"),
            CacheDirective::Private => f.write_str("private"),
            CacheDirective::ProxyRevalidate => f.write_str("proxy-revalidate"),
            CacheDirective::SMaxAge(seconds) => fmt_seconds(f, "s-maxage=", *seconds),
            CacheDirective::Extension(name, argument) => {
                fmt_extension(f, name.as_str(), argument)
            }
        }
    }
}

impl Duplicate for CacheDirective {
    ghost use Rattle.std.specs.Prelude.{◌≡◌, Ok, IfOk};
    ghost use Rattle.web_headers.specs.CacheDirectives.{TakesNoMemory};

    /// A copy. Only that of an `Extension` takes memory.
    fn duplicate(&self, alloc: Global) -> Result<CacheDirective, NoMemory>
        ensures value { IfOk result (λ copy. copy ≡ self.now) }
        ensures memory { TakesNoMemory self.now → result ≡ Ok self.now }
    {
        Ok(match self {
            CacheDirective::NoCache => CacheDirective::NoCache,
            CacheDirective::NoStore => CacheDirective::NoStore,
            CacheDirective::NoTransform => CacheDirective::NoTransform,
            CacheDirective::OnlyIfCached => CacheDirective::OnlyIfCached,
            CacheDirective::MaxAge(seconds) => CacheDirective::MaxAge(*seconds),
            CacheDirective::MaxStale(seconds) => CacheDirective::MaxStale(*seconds),
            CacheDirective::MinFresh(seconds) => CacheDirective::MinFresh(*seconds),
            CacheDirective::MustRevalidate => CacheDirective::MustRevalidate,
            CacheDirective::Public => CacheDirective::Public,
            CacheDirective::Private => CacheDirective::Private,
            CacheDirective::ProxyRevalidate => CacheDirective::ProxyRevalidate,
            CacheDirective::SMaxAge(seconds) => CacheDirective::SMaxAge(*seconds),
            CacheDirective::Extension(name, argument) => {
                let name = name.duplicate(alloc)?;
                CacheDirective::Extension(name, argument.duplicate(alloc)?)
            }
        })
    }
}

impl Header for CacheControl {
    ghost use Rattle.std.specs.Prelude.{◌≡◌, codes};
    ghost use Rattle.std.specs.Option.{option_map};
    ghost use Rattle.web_headers.specs.ListHeaders.{cache_control_of};

    ghost says = { λ values said.
        option_map (λ header. header.0) said ≡ cache_control_of values };

    ghost called = { codes "cache-control" };

    fn name() -> HeaderName {
        CACHE_CONTROL
    }

    fn parse(alloc: Global, headers: &HeaderMap<HeaderValue>) -> Result<Self, Fail<ParseError>> {
        Ok(CacheControl(read_some_list(alloc, headers, &CACHE_CONTROL)?))
    }
}

impl fmt::Display for CacheControl {
    ghost use Rattle.std.specs.Prelude.{Some};
    ghost use Rattle.web_headers.specs.ListHeaders.{cache_control_text};

    ghost output = { λ header. Some (cache_control_text header.0) };

    fn fmt<W: fmt::Write>(&self, f: &mut fmt::Formatter<W>) -> fmt::Result {
        fmt_comma_delimited(f, self.0.as_slice())
    }
}

impl TryIntoHeaderValue for CacheControl {
    ghost use Rattle.http_header.specs.FieldValue.{plain_value};
    ghost use Rattle.web_headers.specs.ListHeaders.{cache_control_text};

    ghost value = { λ header. plain_value (cache_control_text header.0) };

    fn try_into_value(self, alloc: Global) -> Result<HeaderValue, Fail<InvalidHeaderValue>> {
        printed_value(alloc, &self)
    }
}

impl Duplicate for CacheControl {
    fn duplicate(&self, alloc: Global) -> Result<CacheControl, NoMemory> {
        Ok(CacheControl(self.0.duplicate(alloc)?))
    }
}

impl Deref for CacheControl {
    ghost use Rattle.std.specs.Prelude.{◌≡◌};

    type Target = Items<CacheDirective>;

    ghost deref_gives = { λ header items. items ≡ header.0 };

    fn deref(&self) -> &Items<CacheDirective> {
        &self.0
    }
}

impl DerefMut for CacheControl {
    ghost use Rattle.std.specs.Prelude.{◌≡◌};
    ghost use Rattle.std.specs.Borrow.{Lends, sem};
    ghost use Rattle.web_headers.specs.contracts.cache_control.CacheControl.{the_row};
    ghost use Rattle.web_texts.specs.contracts.texts.items.Items as items;
    ghost use Rattle.web_headers.specs.contracts.cache_control.CacheDirective as cache_directive;

    ghost deref_mut_gives = { λ header items. items ≡ header.0 };

    fn deref_mut(&mut self) -> &mut Items<CacheDirective>
        ensures* writes_back { sem 𝓛 (Lends the_row (items.the_row cache_directive.the_row)
            self.entry result (λ x. record { 0 = x })) }
        ensures shows { result.now ≡ self.old.0 }
    {
        &mut self.0
    }
}
