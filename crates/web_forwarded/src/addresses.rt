//! Addresses without their ports.
ghost use Rattle.std.specs.Prelude.{◌≡◌};
ghost use Rattle.web_forwarded.specs.Addresses.{bare_address, before_port, without_closing};
ghost use Rattle.web_forwarded.specs.Addresses.{without_opening};

use crate::fields::before_byte;

/// The address of a node without its port (RFC 7239, section 6). An address in brackets ends before
/// the first `]:` and loses all brackets at its ends; any other ends before its first colon.
pub fn bare_address(text: &str) -> &str
    ensures { result.now ≡ bare_address text.now }
{
    if text.starts_with('[') {
        without_closing(without_opening(before_port(text)))
    } else {
        before_byte(text, b':')
    }
}

fn before_port(text: &str) -> &str
    ensures { result.now ≡ before_port text.now }
{
    match text.split_once("]:") {
        Some((front, _)) => front,
        None => text,
    }
}

fn without_opening(text: &str) -> &str
    ensures { result.now ≡ without_opening text.now }
{
    let mut rest = text;
    'brackets: while rest.starts_with('[') {
        rest = &rest[1..];
    }
    rest
}

fn without_closing(text: &str) -> &str
    ensures { result.now ≡ without_closing text.now }
{
    let mut rest = text;
    'brackets: while rest.ends_with(']') {
        rest = &rest[..rest.len() - 1];
    }
    rest
}
