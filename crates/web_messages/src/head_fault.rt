//! Why no head is taken, by the lines of the bytes.
ghost use Rattle.std.specs.Prelude.{◌≡◌, ◌∷◌, ◌<◌, ◌≤◌, [], MatchOption, length};
ghost use Rattle.web_messages.specs.HeadFaults.{fault_behind, fields_of, find_fault, from_start};
ghost use Rattle.web_messages.specs.HeadFaults.{head_fault, is_empty_line, is_first_version};
ghost use Rattle.web_messages.specs.HeadFaults.{is_version, line_fault, lines_of, text_fault};
ghost use Rattle.web_messages.specs.HeadFaults.{version_part, without_cr};

use crate::empty_line::is_blank;
use crate::limits::{HeadFault, Limits};
use web_texts::split_once_at;

/// The first line of a text that ends in LF, without it, and the text after it.
fn first_line(text: &[u8]) -> Option<(&[u8], &[u8])>
    ensures lines { MatchOption result (lines_of text.now ≡ [])
        (λ found. lines_of text.now ≡ found.0.now ∷ lines_of found.1.now) }
    ensures shorter { MatchOption result (0 ≤ length text.now)
        (λ found. length found.1.now < length text.now) }
{
    split_once_at(text, b'\n')
}

/// Whether a line is empty, but for a CR at its end.
fn is_empty_line(line: &[u8]) -> bool
    ensures { result ≡ is_empty_line line.now }
{
    match line {
        [] => true,
        [byte] => *byte == b'\r',
        _ => false,
    }
}

/// The first line that is not empty, and the text after it.
fn request_line(text: &[u8]) -> Option<(&[u8], &[u8])>
    ensures { MatchOption result (from_start (lines_of text.now) ≡ [])
        (λ found. from_start (lines_of text.now) ≡ found.0.now ∷ lines_of found.1.now) }
{
    let mut rest = text;
    'lines: while let Some((line, after)) = first_line(rest) {
        if !is_empty_line(line) {
            return Some((line, after));
        }
        rest = after;
    }
    None
}

/// How many lines stand before the first empty one, if there is one.
fn count_fields(text: &[u8]) -> Option<usize>
    ensures { result ≡ fields_of (lines_of text.now) }
{
    let mut rest = text;
    let mut count = 0;
    'lines: while let Some((line, after)) = first_line(rest) {
        if is_empty_line(line) {
            return Some(count);
        }
        count += 1;
        rest = after;
    }
    None
}

fn without_cr(line: &[u8]) -> &[u8]
    ensures { result.now ≡ without_cr line.now }
{
    let size = line.len();
    if size == 0 {
        return line;
    }
    if line[size - 1] != b'\r' {
        return line;
    }
    let (front, _) = line.split_at(size - 1);
    front
}

/// The last nine bytes of a line, which are those of its version, if it has one.
fn version_part(line: &[u8]) -> &[u8]
    ensures { result.now ≡ version_part line.now }
{
    let line = without_cr(line);
    let (_, part) = line.split_at(line.len().saturating_sub(9));
    part
}

/// Whether these bytes are the end of a request line of HTTP/1.0 or HTTP/1.1.
fn is_first_version(part: &[u8]) -> bool
    ensures { result ≡ is_first_version part.now }
{
    part == b" HTTP/1.0".as_slice() || part == b" HTTP/1.1".as_slice()
}

/// Whether these bytes are the end of a request line of any version (RFC 9112, section 2.3).
fn is_version(part: &[u8]) -> bool
    ensures { result ≡ is_version part.now }
{
    if part.len() != 9 {
        return false;
    }
    let (name, _) = part.split_at(6);
    name == b" HTTP/".as_slice()
        && part[6].is_ascii_digit()
        && part[7] == b'.'
        && part[8].is_ascii_digit()
}

/// What is wrong by the version of a request line, or this.
fn line_fault(line: &[u8], other: HeadFault) -> HeadFault
    ensures { result ≡ line_fault line.now other }
{
    let part = version_part(line);
    if is_first_version(part) {
        return other;
    }
    if is_version(part) {
        return HeadFault::Version;
    }
    HeadFault::Malformed
}

/// What is wrong where there is a request line, by how many fields stand after it.
fn fault_behind(
    limits: &Limits,
    full: bool,
    line: &[u8],
    fields: Option<usize>,
) -> Option<HeadFault>
    ensures { result ≡ fault_behind limits.now full line.now fields }
{
    match fields {
        Some(count) => {
            if count > limits.headers {
                return Some(line_fault(line, HeadFault::Fields));
            }
            Some(line_fault(line, HeadFault::Malformed))
        }
        None => {
            if full {
                return Some(line_fault(line, HeadFault::Fields));
            }
            None
        }
    }
}

/// What is wrong by the lines of a text, which is as long as a head may be or not.
fn text_fault(limits: &Limits, full: bool, text: &[u8]) -> Option<HeadFault>
    ensures { result ≡ text_fault limits.now full text.now }
{
    if is_blank(text) {
        return if full {
            Some(HeadFault::Malformed)
        } else {
            None
        };
    }
    match request_line(text) {
        Some((line, after)) => fault_behind(limits, full, line, count_fields(after)),
        None => {
            if full {
                return Some(HeadFault::Target);
            }
            None
        }
    }
}

/// Why no head is taken of these bytes, once their empty line is there, or as many bytes as a head
/// may have.
pub(crate) fn find_fault(limits: &Limits, bytes: &[u8]) -> Option<HeadFault>
    ensures { result ≡ find_fault limits.now bytes.now }
{
    if !limits.checks.reasons {
        return Some(HeadFault::Malformed);
    }
    if bytes.len() < limits.head {
        return text_fault(limits, false, bytes);
    }
    let (text, _) = bytes.split_at(limits.head);
    text_fault(limits, true, text)
}

/// Why no head is taken of these bytes, which are all that come.
pub(crate) fn head_fault(limits: &Limits, bytes: &[u8]) -> HeadFault
    ensures { result ≡ head_fault limits.now bytes.now }
{
    find_fault(limits, bytes).unwrap_or(HeadFault::Malformed)
}
