//! Entity tags.
ghost use Rattle.std.specs.Prelude.{◌≡◌, IfSome, true, false, not};
ghost use Rattle.std.specs.Option.{option_map};
ghost use Rattle.web_entities.specs.EntityTags.{is_tag_byte, is_tag_text as is_tag_text_lem};
ghost use Rattle.web_entities.specs.EntityTags.{strong_eq as strong_eq_lem, has_weak_mark};
ghost use Rattle.web_entities.specs.EntityTags.{equals, weak_eq as weak_eq_lem, quoted_tag_of};
ghost use Rattle.web_entities.specs.EntityTags.{tag_of};

use http_header::HeaderValue;
use std::alloc::Global;
use std::fmt;
use std::marker::Model;
use web_headers::{TryIntoHeaderValue, printed_value};
use web_texts::{Duplicate, Fail, InvalidHeaderValue, NoMemory, ParseError, ReadText, Text};

/// How two tags are compared (RFC 9110, section 8.8.3.2).
#[derive(Clone, Copy, Debug, PartialEq, Eq)]
pub enum Comparison {
    /// They are equal where both are strong and have one text.
    Strong,
    /// They are equal where they have one text.
    Weak,
}

/// A tag of one version of a resource, weak or strong (RFC 9110, section 8.8.3). Its text is tag
/// bytes alone: 0x21, 0x23 to 0x7E, and 0x80 and above. It is read from `"tag"` or `W/"tag"`.
#[derive(Debug, Drop, PartialEq, Eq)]
pub struct EntityTag {
    weak: bool,
    tag: Text,
}

impl Model for EntityTag {
    ghost use Rattle.std.specs.Prelude.{◌≡◌, true};
    ghost use Rattle.web_entities.specs.EntityTags.{Tag, is_tag_text};

    ghost Value = { Tag };

    ghost view = { λ t. record { weak = t.weak; tag = t.tag } };

    ghost invariant = { λ t. is_tag_text t.tag ≡ true };

    ghost inverse = { λ t. record { weak = t.weak; tag = t.tag } };
}

fn is_byte(b: u8) -> bool
    ensures { result ≡ is_tag_byte b }
{
    b == 0x21 || b >= 0x23 && b != 0x7f
}

impl EntityTag {
    /// Whether each byte may stand in a tag; so it is true for the empty text.
    pub fn is_tag_text(text: &str) -> bool
        ensures { result ≡ is_tag_text_lem text.now }
    {
        for b in text.as_bytes() {
            if !is_byte(*b) {
                return false;
            }
        }
        true
    }

    /// A tag of this text.
    pub fn new(weak: bool, tag: Text) -> EntityTag
        requires { is_tag_text_lem tag ≡ true }
        ensures { result ≡ record { weak = weak; tag = tag } }
    {
        EntityTag { weak, tag }
    }

    /// A weak tag of this text.
    pub fn new_weak(tag: Text) -> EntityTag
        requires { is_tag_text_lem tag ≡ true }
        ensures { result ≡ record { weak = true; tag = tag } }
    {
        EntityTag::new(true, tag)
    }

    /// As `new_weak`.
    pub fn weak(tag: Text) -> EntityTag
        requires { is_tag_text_lem tag ≡ true }
        ensures { result ≡ record { weak = true; tag = tag } }
    {
        EntityTag::new(true, tag)
    }

    /// A strong tag of this text.
    pub fn new_strong(tag: Text) -> EntityTag
        requires { is_tag_text_lem tag ≡ true }
        ensures { result ≡ record { weak = false; tag = tag } }
    {
        EntityTag::new(false, tag)
    }

    /// As `new_strong`.
    pub fn strong(tag: Text) -> EntityTag
        requires { is_tag_text_lem tag ≡ true }
        ensures { result ≡ record { weak = false; tag = tag } }
    {
        EntityTag::new(false, tag)
    }

    /// The text between the quotes.
    pub fn tag(&self) -> &str
        ensures { result.now ≡ self.now.tag }
    {
        self.tag.as_str()
    }

    /// Whether the tag is weak.
    pub fn is_weak(&self) -> bool
        ensures { result ≡ self.now.weak }
    {
        self.weak
    }

    /// Gives the tag another text. It stays weak or strong.
    pub fn set_tag(&mut self, tag: Text)
        requires { is_tag_text_lem tag ≡ true }
        ensures { self.new ≡ record { weak = self.old.weak; tag = tag } }
    {
        self.tag = tag;
    }

    /// Makes the tag weak or strong. It keeps its text.
    pub fn set_weak(&mut self, weak: bool)
        ensures { self.new ≡ record { weak = weak; tag = self.old.tag } }
    {
        self.weak = weak;
    }

    /// Whether both tags are strong and have one text (RFC 9110, section 8.8.3.2).
    pub fn strong_eq(&self, other: &EntityTag) -> bool
        ensures { result ≡ strong_eq_lem self.now other.now }
    {
        !self.weak && !other.weak && self.tag == other.tag
    }

    /// Whether both tags have one text (RFC 9110, section 8.8.3.2).
    pub fn weak_eq(&self, other: &EntityTag) -> bool
        ensures { result ≡ weak_eq_lem self.now other.now }
    {
        self.tag == other.tag
    }

    /// Whether the tag that a text is equals this one, by either comparison. `None` where the text
    /// is no tag. It takes no memory.
    pub fn equals_text(&self, comparison: Comparison, text: &str) -> Option<bool>
        ensures { result ≡ option_map (λ t. equals comparison t self.now) (tag_of text.now) }
    {
        let (weak, tag) = tag_parts(text)?;
        match comparison {
            Comparison::Strong => Some(!weak && !self.weak && tag == self.tag()),
            Comparison::Weak => Some(tag == self.tag()),
        }
    }

    /// The opposite of `strong_eq`.
    pub fn strong_ne(&self, other: &EntityTag) -> bool
        ensures { result ≡ not (strong_eq_lem self.now other.now) }
    {
        !self.strong_eq(other)
    }

    /// The opposite of `weak_eq`.
    pub fn weak_ne(&self, other: &EntityTag) -> bool
        ensures { result ≡ not (weak_eq_lem self.now other.now) }
    {
        !self.weak_eq(other)
    }
}

/// The tag text between the quotes at both ends.
fn quoted_tag(text: &str) -> Option<&str>
    ensures { option_map (λ inner. inner.now) result ≡ quoted_tag_of text.now }
{
    if text.len() < 2 || !text.starts_with('"') || !text.ends_with('"') {
        return None;
    }
    let inner = &text[1..text.len() - 1];
    if EntityTag::is_tag_text(inner) {
        Some(inner)
    } else {
        None
    }
}

fn is_marked_weak(text: &str) -> bool
    ensures { result ≡ has_weak_mark text.now }
{
    match text.as_bytes() {
        [b'W', b'/', ..] => true,
        _ => false,
    }
}

/// Whether a tag is weak, and its text, where it stands in a text that is one.
fn tag_parts(text: &str) -> Option<(bool, &str)>
    ensures valid { IfSome result (λ parts. is_tag_text_lem parts.1.now ≡ true) }
    ensures value { option_map (λ parts. record { weak = parts.0; tag = parts.1.now }) result
        ≡ tag_of text.now }
{
    let weak = is_marked_weak(text);
    let quoted = if weak { &text[2..] } else { text };
    match quoted_tag(quoted) {
        Some(tag) => Some((weak, tag)),
        None => None,
    }
}

impl ReadText for EntityTag {
    ghost use Rattle.std.specs.Prelude.{◌≡◌, None};
    ghost use Rattle.web_texts.specs.TextReaders.{NeverNoMemory, Reads};
    ghost use Rattle.web_entities.specs.EntityTags.{tag_of};

    ghost reads = { tag_of };

    /// Reads a tag. A text that is none takes no memory.
    fn parse(alloc: Global, text: &str) -> Result<Self, Fail<ParseError>>
        ensures value { Reads result (tag_of text.now) }
        ensures memory { tag_of text.now ≡ None → NeverNoMemory result }
    {
        match tag_parts(text) {
            Some((weak, tag)) => Ok(EntityTag::new(weak, Text::of(alloc, tag)?)),
            None => Err(Fail::Of(ParseError::Header)),
        }
    }
}

impl Duplicate for EntityTag {
    fn duplicate(&self, alloc: Global) -> Result<Self, NoMemory> {
        let tag = self.tag.duplicate(alloc)?;
        Ok(EntityTag::new(self.weak, tag))
    }
}

impl fmt::Display for EntityTag {
    ghost use Rattle.std.specs.Prelude.{Some};
    ghost use Rattle.web_entities.specs.EntityTags.{tag_text};

    ghost output = { λ t. Some (tag_text t) };

    fn fmt<W: fmt::Write>(&self, f: &mut fmt::Formatter<W>) -> fmt::Result {
        let tag = self.tag();
        if self.is_weak() {
            write!(f, "W/\"{tag}\"")
        } else {
            write!(f, "\"{tag}\"")
        }
    }
}

impl TryIntoHeaderValue for EntityTag {
    ghost use Rattle.http_header.specs.FieldValue.{plain_value};
    ghost use Rattle.web_entities.specs.EntityTags.{tag_text};

    ghost value = { λ t. plain_value (tag_text t) };

    fn try_into_value(self, alloc: Global) -> Result<HeaderValue, Fail<InvalidHeaderValue>> {
        printed_value(alloc, &self)
    }
}
