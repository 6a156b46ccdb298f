//! Range.
ghost use Rattle.std.specs.Prelude.{◌≡◌, ◌∷◌, [], IfOk, codes, flat_map};
ghost use Rattle.std.specs.List.{join_by, slice_split};
ghost use Rattle.std.specs.Fmt.{WritesOnOk};
ghost use Rattle.http_header.specs.HeaderMap.{get_all};
ghost use Rattle.web_texts.specs.Bytes.{is_comma};
ghost use Rattle.web_texts.specs.Digits.{number_of};
ghost use Rattle.web_texts.specs.HeaderTexts.{value_bytes};
ghost use Rattle.web_texts.specs.PieceItems.{item_of_piece, one_or_none};
ghost use Rattle.web_headers.specs.HeaderReaders.{one_value_of};
ghost use Rattle.web_entities.specs.ByteRanges.{byte_range_of, pair_of, bytes_of, byte_range_text};
ghost use Rattle.web_entities.specs.ByteRanges.{from_pairs, one_range, only_spec, range_of};
ghost use Rattle.web_entities.specs.declared.ranges.ByteRangeSpec.TheVariants as spec;
ghost use Rattle.web_entities.specs.declared.ranges.Range.TheVariants as kind;

use http_header::{HeaderMap, HeaderName, HeaderValue, RANGE};
use std::alloc::Global;
use std::fmt;
use web_headers::{EachComma, Header, TryIntoHeaderValue, from_one_value, printed_value};
use web_texts::{
    Duplicate, Fail, InvalidHeaderValue, Items, NoMemory, ParseError, ReadText, Text, cut_at,
    first_piece, first_text, push_items, read_digits, trim,
};

/// A range of the bytes of a representation (RFC 9110, section 14.1.2), counted from 0. It is read
/// from `a-b`, `a-` or `-n`, in digits alone up to 2^64 - 1.
#[derive(Clone, Copy, Debug, PartialEq, Eq)]
pub enum ByteRangeSpec {
    /// From the first to the second, both of them included. The reader has the first at most the
    /// second.
    FromTo(u64, u64),
    /// From this byte on.
    From(u64),
    /// This many bytes at the end.
    Last(u64),
}

/// Which parts of a representation a request is for (RFC 9110, section 14.2).
/// `ParseError::Header` comes where no byte range can be read after `bytes=`, where another unit
/// or its text is empty, and where there is no `=`.
#[derive(Debug, Drop, PartialEq, Eq)]
pub enum Range {
    /// These ranges of bytes.
    Bytes(Items<ByteRangeSpec>),
    /// Another unit, and the text after `=`.
    Unregistered(Text, Text),
}

/// Reads digits alone, up to 2^64 - 1.
pub fn read_number(text: &str) -> Option<u64>
    ensures { result ≡ number_of text.now }
{
    read_digits(text, u64::MAX)
}

/// Reads two numbers, of which the second is not less.
pub fn read_pair(first: &str, last: &str) -> Option<(u64, u64)>
    ensures { result ≡ pair_of first.now last.now }
{
    let a = read_number(first)?;
    let b = read_number(last)?;
    if a <= b { Some((a, b)) } else { None }
}

fn read_spec(text: &str) -> Option<ByteRangeSpec>
    ensures { result ≡ byte_range_of text.now }
{
    let (first, last) = cut_at(text, b'-')?;
    if first.is_empty() {
        read_number(last).map(ByteRangeSpec::Last)
    } else if last.is_empty() {
        read_number(first).map(ByteRangeSpec::From)
    } else {
        read_pair(first, last).map(|p| ByteRangeSpec::FromTo(p.0, p.1))
    }
}

impl ReadText for ByteRangeSpec {
    ghost use Rattle.web_texts.specs.TextReaders.{Reads};
    ghost use Rattle.web_texts.specs.TextReaders.{NeverNoMemory};
    ghost use Rattle.web_entities.specs.ByteRanges.{byte_range_of};

    ghost reads = { byte_range_of };

    fn parse(_alloc: Global, text: &str) -> Result<Self, Fail<ParseError>>
        ensures value { Reads result (byte_range_of text.now) }
        ensures memory { NeverNoMemory result }
    {
        read_spec(text).ok_or(Fail::Of(ParseError::Header))
    }
}

fn some_bytes(specs: Vec<ByteRangeSpec>) -> Option<Range>
    ensures { result ≡ bytes_of specs.items }
{
    if specs.is_empty() {
        None
    } else {
        Some(Range::Bytes(Items::of(specs)))
    }
}

/// The range in a piece, if it has one that can be read.
fn spec_of_piece(piece: &str) -> Option<ByteRangeSpec>
    ensures { one_or_none result ≡ item_of_piece byte_range_of piece.now }
{
    let item = trim(piece);
    if item.is_empty() {
        return None;
    }
    read_spec(item)
}

/// The range that stands between the commas of a text, where there is only one.
fn only_range(text: &str) -> Option<ByteRangeSpec>
    ensures { result ≡ only_spec
        (flat_map (item_of_piece byte_range_of) (slice_split is_comma text.now)) }
{
    let mut only = None;
    let mut rest = text;
    'parts: loop {
        let (part, behind) = first_piece::<EachComma>(rest);
        match spec_of_piece(part) {
            Some(spec) if only.is_none() => only = Some(spec),
            Some(_) => return None,
            None => {}
        }
        match behind {
            Some(behind) => rest = behind,
            None => return only,
        }
    }
}

/// The range of a value, where it is one range of bytes.
fn only_range_of(value: &str) -> Option<ByteRangeSpec>
    ensures { result ≡ one_range (range_of value.now) }
{
    let (unit, ranges) = cut_at(value, b'=')?;
    if unit == "bytes" {
        only_range(ranges)
    } else {
        None
    }
}

impl ReadText for Range {
    ghost use Rattle.web_entities.specs.ByteRanges.{range_of};

    ghost reads = { range_of };

    fn parse(alloc: Global, text: &str) -> Result<Self, Fail<ParseError>> {
        let Some((unit, rest)) = cut_at(text, b'=') else {
            return Err(Fail::Of(ParseError::Header));
        };
        if unit == "bytes" {
            let mut specs = Vec::new(alloc);
            push_items(alloc, &mut specs, rest)?;
            return some_bytes(specs).ok_or(Fail::Of(ParseError::Header));
        }
        if unit.is_empty() || rest.is_empty() {
            return Err(Fail::Of(ParseError::Header));
        }
        let unit = Text::of(alloc, unit)?;
        let rest = Text::of(alloc, rest)?;
        Ok(Range::Unregistered(unit, rest))
    }
}

impl Range {
    /// The bytes from `from` to `to`, both of them included.
    pub fn bytes(alloc: Global, from: u64, to: u64) -> Result<Range, NoMemory>
        ensures { IfOk result (λ range. range ≡ kind.Bytes (spec.FromTo from to ∷ [])) }
    {
        let mut specs = Vec::new(alloc);
        specs.push(ByteRangeSpec::FromTo(from, to))?;
        Ok(Range::Bytes(Items::of(specs)))
    }

    /// The range of the header, where it is one range of bytes. It is what reading the header would
    /// give, but keeps no list and takes no memory.
    pub fn only(headers: &HeaderMap<HeaderValue>) -> Option<ByteRangeSpec>
        ensures { result ≡ one_range (one_value_of range_of
            (value_bytes (get_all headers.now (codes "range")))) }
    {
        only_range_of(first_text(headers, &RANGE)?)
    }

    /// For each pair the bytes from its first to its second, both of them included.
    pub fn bytes_multi(alloc: Global, ranges: Vec<(u64, u64)>) -> Result<Range, NoMemory>
        ensures { IfOk result (λ range. range ≡ kind.Bytes (from_pairs ranges.items)) }
    {
        let mut specs = Vec::new(alloc);
        for pair in ranges.as_slice() {
            specs.push(ByteRangeSpec::FromTo(pair.0, pair.1))?;
        }
        Ok(Range::Bytes(Items::of(specs)))
    }
}

impl Header for Range {
    ghost use Rattle.std.specs.Prelude.{◌≡◌, codes};
    ghost use Rattle.web_headers.specs.HeaderReaders.{one_value_of};
    ghost use Rattle.web_entities.specs.ByteRanges.{range_of};

    ghost says = { λ values said. one_value_of range_of values ≡ said };

    ghost called = { codes "range" };

    fn name() -> HeaderName {
        RANGE
    }

    fn parse(alloc: Global, headers: &HeaderMap<HeaderValue>) -> Result<Self, Fail<ParseError>> {
        from_one_value(alloc, headers, &RANGE)
    }
}

impl Duplicate for ByteRangeSpec {
    ghost use Rattle.std.specs.Prelude.{◌≡◌, Ok};

    fn duplicate(&self, _alloc: Global) -> Result<Self, NoMemory>
        ensures { result ≡ Ok self.now }
    {
        Ok(*self)
    }
}

impl Duplicate for Range {
    fn duplicate(&self, alloc: Global) -> Result<Self, NoMemory> {
        match self {
            Range::Bytes(specs) => Ok(Range::Bytes(specs.duplicate(alloc)?)),
            Range::Unregistered(unit, rest) => {
                let unit = unit.duplicate(alloc)?;
                Ok(Range::Unregistered(unit, rest.duplicate(alloc)?))
            }
        }
    }
}

impl fmt::Display for ByteRangeSpec {
    ghost use Rattle.std.specs.Prelude.{Some};
    ghost use Rattle.web_entities.specs.ByteRanges.{byte_range_text};

    ghost output = { λ s. Some (byte_range_text s) };

    fn fmt<W: fmt::Write>(&self, f: &mut fmt::Formatter<W>) -> fmt::Result {
        match self {
            ByteRangeSpec::FromTo(a, b) => write!(f, "{a}-{b}"),
            ByteRangeSpec::From(a) => write!(f, "{a}-"),
            ByteRangeSpec::Last(n) => write!(f, "-{n}"),
        }
    }
}

/// Prints each range with a comma before it.
fn fmt_later<W: fmt::Write>(f: &mut fmt::Formatter<W>, specs: &[ByteRangeSpec]) -> fmt::Result
    ensures { WritesOnOk W.write_str_gives f.old result
        (flat_map (λ s. 44 ∷ byte_range_text s) specs.now) f.new }
{
    for spec in specs {
        write!(f, ",{spec}")?;
    }
    Ok(())
}

fn fmt_specs<W: fmt::Write>(f: &mut fmt::Formatter<W>, specs: &[ByteRangeSpec]) -> fmt::Result
    ensures { WritesOnOk W.write_str_gives f.old result
        (join_by byte_range_text (44 ∷ []) specs.now) f.new }
{
    match specs {
        [] => Ok(()),
        [first, later @ ..] => {
            write!(f, "{first}")?;
            fmt_later(f, later)
        }
    }
}

/// Prints ranges with commas between them.
#[derive(Drop)]
struct Specs<'a>(&'a [ByteRangeSpec]);

impl<'a> fmt::Display for Specs<'a> {
    ghost use Rattle.std.specs.Prelude.{Some, ◌∷◌, []};
    ghost use Rattle.std.specs.List.{join_by};
    ghost use Rattle.web_entities.specs.ByteRanges.{byte_range_text};

    ghost output = { λ s. Some (join_by byte_range_text (44 ∷ []) s.0.now) };

    fn fmt<W: fmt::Write>(&self, f: &mut fmt::Formatter<W>) -> fmt::Result {
        fmt_specs(f, self.0)
    }
}

impl fmt::Display for Range {
    ghost use Rattle.std.specs.Prelude.{Some};
    ghost use Rattle.web_entities.specs.ByteRanges.{range_text};

    ghost output = { λ r. Some (range_text r) };

    fn fmt<W: fmt::Write>(&self, f: &mut fmt::Formatter<W>) -> fmt::Result {
        match self {
            Range::Bytes(specs) => write!(f, "bytes={}", Specs(specs.as_slice())),
            Range::Unregistered(unit, rest) => write!(f, "{unit}={rest}"),
        }
    }
}

impl TryIntoHeaderValue for Range {
    ghost use Rattle.http_header.specs.FieldValue.{plain_value};
    ghost use Rattle.web_entities.specs.ByteRanges.{range_text};

    ghost value = { λ r. plain_value (range_text r) };

    fn try_into_value(self, alloc: Global) -> Result<HeaderValue, Fail<InvalidHeaderValue>> {
        printed_value(alloc, &self)
    }
}
