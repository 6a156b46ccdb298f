//! A line's word, and where its argument begins.
ghost use Rattle.std.specs.Prelude.{◌≡◌, ◌≤◌, ◌-◌, ◌++◌, length, take, drop, codes, IfSome};
ghost use Rattle.std.specs.Str.Lines.{strip_carriage_return};
ghost use Rattle.cli_script.specs.Line.{line_of, word_of};
ghost use Rattle.cli_script.specs.declared.line.Word.TheVariants.{Text};

use web_texts::{bytes_equal, split_once_at};

/// The first word of a line.
#[derive(Clone, Copy, Debug, PartialEq, Eq)]
pub enum Word {
    Text,
    Plan,
    Exchange,
    Header,
    Param,
    Peer,
    Layer,
    Piece,
    Stall,
    Fault,
    Local,
    Conn,
    /// An empty line or a comment.
    Skipped,
    Unknown,
}

fn word_named(name: &[u8]) -> Word
    ensures { result ≡ word_of name.now }
{
    if bytes_equal(name, b"text") {
        Word::Text
    } else if bytes_equal(name, b"plan") {
        Word::Plan
    } else if bytes_equal(name, b"exchange") {
        Word::Exchange
    } else if bytes_equal(name, b"header") {
        Word::Header
    } else if bytes_equal(name, b"param") {
        Word::Param
    } else if bytes_equal(name, b"peer") {
        Word::Peer
    } else if bytes_equal(name, b"layer") {
        Word::Layer
    } else if bytes_equal(name, b"piece") {
        Word::Piece
    } else if bytes_equal(name, b"stall") {
        Word::Stall
    } else if bytes_equal(name, b"fault") {
        Word::Fault
    } else if bytes_equal(name, b"local") {
        Word::Local
    } else if bytes_equal(name, b"conn") {
        Word::Conn
    } else {
        Word::Unknown
    }
}

/// The line without the carriage return at its end, if it has one.
pub fn without_return(line: &[u8]) -> &[u8]
    ensures value { result.now ≡ strip_carriage_return line.now }
    ensures prefix { result.now ≡ take (length result.now) line.now }
{
    match line {
        [text @ .., b'\r'] => text,
        _ => line,
    }
}

/// What follows `text` and a space.
pub fn text_argument(line: &[u8]) -> Option<&[u8]>
    ensures is { IfSome result (λ text. line.now ≡ codes "text " ++ text.now) }
    ensures word { IfSome result (λ _. Text ≡ (line_of line.now).word) }
    ensures argument { IfSome result (λ text. text.now ≡ (line_of line.now).argument) }
    ensures end { IfSome result (λ text.
        text.now ≡ drop (length line.now - length text.now) line.now) }
    ensures short { IfSome result (λ text. length text.now ≤ length line.now) }
{
    match line {
        [b't', b'e', b'x', b't', b' ', text @ ..] => Some(text),
        _ => None,
    }
}

/// What follows `exchange` and a space.
fn exchange_argument(line: &[u8]) -> Option<&[u8]>
    ensures { IfSome result (λ head. line.now ≡ codes "exchange " ++ head.now) }
{
    match line {
        [
            b'e',
            b'x',
            b'c',
            b'h',
            b'a',
            b'n',
            b'g',
            b'e',
            b' ',
            head @ ..,
        ] => Some(head),
        _ => None,
    }
}

/// What follows `plan` and a space.
fn plan_argument(line: &[u8]) -> Option<&[u8]>
    ensures { IfSome result (λ entries. line.now ≡ codes "plan " ++ entries.now) }
{
    match line {
        [b'p', b'l', b'a', b'n', b' ', entries @ ..] => Some(entries),
        _ => None,
    }
}

/// What follows `header` and a space.
fn header_argument(line: &[u8]) -> Option<&[u8]>
    ensures { IfSome result (λ header. line.now ≡ codes "header " ++ header.now) }
{
    match line {
        [b'h', b'e', b'a', b'd', b'e', b'r', b' ', header @ ..] => Some(header),
        _ => None,
    }
}

/// What follows `piece` and a space.
fn piece_argument(line: &[u8]) -> Option<&[u8]>
    ensures { IfSome result (λ digits. line.now ≡ codes "piece " ++ digits.now) }
{
    match line {
        [b'p', b'i', b'e', b'c', b'e', b' ', digits @ ..] => Some(digits),
        _ => None,
    }
}

/// What follows `layer` and a space.
fn layer_argument(line: &[u8]) -> Option<&[u8]>
    ensures { IfSome result (λ settings. line.now ≡ codes "layer " ++ settings.now) }
{
    match line {
        [b'l', b'a', b'y', b'e', b'r', b' ', settings @ ..] => Some(settings),
        _ => None,
    }
}

/// The line's word, and its argument.
pub fn split_line(line: &[u8]) -> (Word, &[u8])
    ensures word { result.0 ≡ (line_of line.now).word }
    ensures argument { result.1.now ≡ (line_of line.now).argument }
    ensures end { result.1.now ≡ drop (length line.now - length result.1.now) line.now }
    ensures short { length result.1.now ≤ length line.now }
{
    if line.is_empty() || line[0] == b'#' {
        return (Word::Skipped, &[]);
    }
    if let Some(text) = text_argument(line) {
        return (Word::Text, text);
    }
    if let Some(head) = exchange_argument(line) {
        return (Word::Exchange, head);
    }
    if let Some(entries) = plan_argument(line) {
        return (Word::Plan, entries);
    }
    if let Some(header) = header_argument(line) {
        return (Word::Header, header);
    }
    if let Some(settings) = layer_argument(line) {
        return (Word::Layer, settings);
    }
    if let Some(digits) = piece_argument(line) {
        return (Word::Piece, digits);
    }
    if bytes_equal(line, b"stall") {
        return (Word::Stall, &[]);
    }
    // The other words are rare enough to look at each of the line's bytes up to the space.
    match split_once_at(line, b' ') {
        Some((name, argument)) => (word_named(name), argument),
        None => (word_named(line), &[]),
    }
}
