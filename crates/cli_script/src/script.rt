//! A whole script.
ghost use Rattle.std.specs.Prelude.{◌≡◌, ◌+◌, ◌<◌, ◌≤◌, ◌^◌, ◌∷◌, [], length, take, drop};
ghost use Rattle.std.specs.Prelude.{IfOk, OnOk, IfSome, IfNone};
ghost use Rattle.std.specs.List.{All, AllPass, flat_map, slice_split};
ghost use Rattle.web_texts.specs.Bytes.{is_newline};
ghost use Rattle.web_request.specs.Body.{is_body, piece_bytes};
ghost use Rattle.cli_script.specs.Acceptance.{Accepts};
ghost use Rattle.cli_script.specs.ExchangeSinks.{Adds};
ghost use Rattle.cli_script.specs.Reader.{new_reader};
ghost use Rattle.cli_script.specs.Script.{first_fault, script_lines, script_view};
ghost use Rattle.cli_script.specs.ScriptExchanges.{exchanges, plan as plan_of};
ghost use Rattle.cli_script.specs.ScriptReading.{IsWholeRead, with_line};

use crate::exchange::ScriptedExchange;
use crate::reader::Reader;
use crate::reason::LineFault;
use crate::sink::ExchangeSink;
use bytes::Bytes;
use memchr::memchr;
use std::alloc::Global;
use std::marker::Model;
use web_texts::Fail;

/// What a valid script asks for.
#[derive(Drop)]
pub struct Script {
    /// One for each `exchange` line, in their order.
    pub exchanges: Vec<ScriptedExchange>,
    /// For each poll the number of the exchange, from 0. There may be no exchange of that number.
    pub plan: Vec<u32>,
}

impl Model for Script {
    ghost use Rattle.cli_script.specs.Script.{ScriptView};

    ghost Value = { ScriptView };

    ghost view = { λ s. record { exchanges = s.exchanges.items; plan = s.plan.items } };
}

/// The first faulty line of a script.
#[derive(Clone, Copy, Debug, PartialEq, Eq)]
pub struct InvalidScript {
    /// The number of the line, from 1. Empty lines and comments are counted.
    pub line: u64,
    /// Why it is faulty: the first test that applies.
    pub reason: LineFault,
}

/// Where the first line ends, if its newline is there.
fn line_end(text: &[u8]) -> Option<usize>
    ensures within { IfSome result (λ end. end < length text.now) }
    ensures line { IfSome result (λ end.
        slice_split is_newline text.now
        ≡ take end text.now ∷ slice_split is_newline (drop (end + 1) text.now)) }
    ensures last { IfNone result (slice_split is_newline text.now ≡ text.now ∷ []) }
{
    memchr(b'\n', text)
}

/// What reading the line with this number comes to.
fn numbered(line: u64, read: Result<(), Fail<LineFault>>) -> Result<(), Fail<InvalidScript>>
    ensures { result ≡ with_line line read }
{
    match read {
        Ok(()) => Ok(()),
        Err(Fail::NoMemory) => Err(Fail::NoMemory),
        Err(Fail::Of(reason)) => Err(Fail::Of(InvalidScript { line, reason })),
    }
}

/// Reads all lines.
fn read_lines<S: ExchangeSink>(
    alloc: Global,
    reader: &mut Reader,
    bytes: Bytes,
    sink: &mut S,
) -> Result<(), Fail<InvalidScript>>
    requires new { reader.old ≡ new_reader }
    ensures read { Accepts result (first_fault (script_lines bytes)) (λ _.
        IsWholeRead S.holds (script_lines bytes) sink.old sink.new reader.new) }
    ensures small { OnOk result
        (All (λ e. length (piece_bytes e.marks) < 2 ^ 63) (exchanges (script_lines bytes))) }
{
    let mut rest = bytes;
    let mut size = rest.len();
    let mut line = 1;
    'lines: while let Some(end) = line_end(rest.as_slice()) {
        numbered(line, reader.read_line(alloc, &rest, end, sink))?;
        rest.advance(end + 1);
        size -= end + 1;
        line += 1;
    }
    numbered(line, reader.read_line(alloc, &rest, size, sink))
}

/// Reads a script into a sink, exchange by exchange, and returns its plan: for each poll the number
/// of the exchange, from 0.
///
/// A line is a word, and after one space its argument. Empty lines and lines that begin with `#`
/// are skipped. The pieces of `text` lines, the targets and the values of headers are parts of
/// `bytes`, which are not copied.
///
/// # Errors
///
/// `InvalidScript` where a line is faulty, with the number of the first one and its reason: its
/// word is unknown or out of place, its argument is not of the form for that word, or what it asks
/// for is not built yet. The sink may hold exchanges of the lines before it then. `Fail::NoMemory`
/// where allocation failed, also in the sink.
pub fn read_script_into<S: ExchangeSink>(
    alloc: Global,
    bytes: Bytes,
    sink: &mut S,
) -> Result<Vec<u32>, Fail<InvalidScript>>
    ensures read { Accepts result (first_fault (script_lines bytes))
        (λ plan. plan.items ≡ plan_of (script_lines bytes)) }
    ensures added { OnOk result
        (Adds S.holds sink.old sink.new (exchanges (script_lines bytes))) }
    ensures bodies { OnOk result
        (AllPass (λ e. is_body e.marks) (exchanges (script_lines bytes))) }
    ensures small { OnOk result
        (All (λ e. length (piece_bytes e.marks) < 2 ^ 63) (exchanges (script_lines bytes))) }
    ensures total { OnOk result
        (length (flat_map (λ e. piece_bytes e.marks) (exchanges (script_lines bytes)))
        ≤ length bytes) }
{
    let mut reader = Reader::new(alloc);
    read_lines(alloc, &mut reader, bytes, sink)?;
    Ok(reader.finish(alloc, sink)?)
}

/// Reads a script: its exchanges with their bodies, and its plan. As `read_script_into`, with a
/// list of the exchanges.
///
/// # Errors
///
/// `InvalidScript` where a line is faulty, and `Fail::NoMemory` where allocation failed.
pub fn read_script(alloc: Global, bytes: Bytes) -> Result<Script, Fail<InvalidScript>>
    ensures read { Accepts result (first_fault (script_lines bytes))
        (λ script. script ≡ script_view (script_lines bytes)) }
    ensures bodies { IfOk result (λ script. AllPass (λ e. is_body e.marks) script.exchanges) }
    ensures small { IfOk result (λ script.
        All (λ e. length (piece_bytes e.marks) < 2 ^ 63) script.exchanges) }
    ensures total { IfOk result (λ script.
        length (flat_map (λ e. piece_bytes e.marks) script.exchanges) ≤ length bytes) }
{
    let mut exchanges = Vec::new(alloc);
    let plan = read_script_into(alloc, bytes, &mut exchanges)?;
    Ok(Script { exchanges, plan })
}
