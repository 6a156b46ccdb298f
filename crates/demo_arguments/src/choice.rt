//! The choice that the first segment of a path makes.
ghost use Rattle.std.specs.Prelude.{◌≡◌};
ghost use Rattle.std.specs.Str.{bytes_eq};
ghost use Rattle.demo_arguments.specs.Choices.{choice_named, choice_of};

use cli_script::first_segment;

/// The arguments that a request gets. Each is named as the segment that asks for it.
#[derive(Clone, Copy, Debug, PartialEq, Eq)]
pub enum Choice {
    Bytes,
    Text,
    Both,
    Capped,
    Data,
    Lines,
    Decoded(DecodedChoice),
    Read(ReadChoice),
    Head(HeadChoice),
}

/// Arguments that decode the body.
#[derive(Clone, Copy, Debug, PartialEq, Eq)]
pub enum DecodedChoice {
    Json,
    CappedJson,
    Form,
    Either,
    Option,
    Result,
    Parts,
}

/// Arguments that are there at once: what the parameters, the query and a header say, and the body
/// unread.
#[derive(Clone, Copy, Debug, PartialEq, Eq)]
pub enum ReadChoice {
    Path,
    Query,
    Header,
    Raw,
}

/// Further arguments that are there at once: where the request came from, the request itself, how
/// long the handler waits, and none.
#[derive(Clone, Copy, Debug, PartialEq, Eq)]
pub enum HeadChoice {
    Who,
    Request(RequestChoice),
    Wait,
    Other,
}

/// What the request alone is replied to with: its cookies, a document, or a variant.
#[derive(Clone, Copy, Debug, PartialEq, Eq)]
pub enum RequestChoice {
    Cookies,
    Document,
    Variant,
}

fn is_named(segment: &[u8], name: &[u8]) -> bool
    ensures { result ≡ bytes_eq segment.now name.now }
{
    segment == name
}

fn choice_named(segment: &[u8]) -> Choice
    ensures { result ≡ choice_named segment.now }
{
    if is_named(segment, b"bytes") {
        Choice::Bytes
    } else if is_named(segment, b"text") {
        Choice::Text
    } else if is_named(segment, b"json") {
        Choice::Decoded(DecodedChoice::Json)
    } else if is_named(segment, b"form") {
        Choice::Decoded(DecodedChoice::Form)
    } else if is_named(segment, b"either") {
        Choice::Decoded(DecodedChoice::Either)
    } else if is_named(segment, b"option") {
        Choice::Decoded(DecodedChoice::Option)
    } else if is_named(segment, b"result") {
        Choice::Decoded(DecodedChoice::Result)
    } else if is_named(segment, b"path") {
        Choice::Read(ReadChoice::Path)
    } else if is_named(segment, b"query") {
        Choice::Read(ReadChoice::Query)
    } else if is_named(segment, b"header") {
        Choice::Read(ReadChoice::Header)
    } else if is_named(segment, b"data") {
        Choice::Data
    } else if is_named(segment, b"raw") {
        Choice::Read(ReadChoice::Raw)
    } else if is_named(segment, b"who") {
        Choice::Head(HeadChoice::Who)
    } else if is_named(segment, b"cookies") {
        Choice::Head(HeadChoice::Request(RequestChoice::Cookies))
    } else if is_named(segment, b"lines") {
        Choice::Lines
    } else if is_named(segment, b"both") {
        Choice::Both
    } else if is_named(segment, b"wait") {
        Choice::Head(HeadChoice::Wait)
    } else if is_named(segment, b"capped") {
        Choice::Capped
    } else if is_named(segment, b"capped-json") {
        Choice::Decoded(DecodedChoice::CappedJson)
    } else if is_named(segment, b"parts") {
        Choice::Decoded(DecodedChoice::Parts)
    } else if is_named(segment, b"doc") {
        Choice::Head(HeadChoice::Request(RequestChoice::Document))
    } else if is_named(segment, b"variant") {
        Choice::Head(HeadChoice::Request(RequestChoice::Variant))
    } else {
        Choice::Head(HeadChoice::Other)
    }
}

/// The choice of the path's first segment.
pub fn choice_of(path: &str) -> Choice
    ensures { result ≡ choice_of path.now }
{
    choice_named(first_segment(path))
}
