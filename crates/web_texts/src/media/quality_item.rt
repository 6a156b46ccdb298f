//! Items with a quality.
ghost use Rattle.std.specs.Prelude.{◌≡◌, ◌==◌};
ghost use Rattle.web_texts.specs.QualityItems.{is_weight as is_weight_spec, item_before};
ghost use Rattle.web_texts.specs.TextReaders.{Reads};

use crate::errors::ParseError;
use crate::grammar::blanks::trim;
use crate::grammar::cut::cut_at_last;
use crate::grammar::readers::ReadText;
use crate::media::quality_value::{Quality, Weight, q, read_quality};
use crate::memory::duplicate::Duplicate;
use crate::memory::{Fail, NoMemory};
use std::alloc::Global;
use std::fmt;

/// An item of a list, and how much it is preferred. It is read from the item's text and, as the
/// last part after a semicolon, `q=` with the quality (RFC 9110, section 12.4.2).
#[derive(Debug, Drop, PartialEq, Eq)]
pub struct QualityItem<T> {
    /// The item.
    pub item: T,
    /// Its quality.
    pub quality: Quality,
}

impl<T> QualityItem<T> {
    /// An item with this quality.
    pub fn new(item: T, quality: Quality) -> Self
        ensures item { result.item ≡ item }
        ensures quality { result.quality ≡ quality }
    {
        QualityItem { item, quality }
    }

    /// An item with the greatest quality.
    pub fn max(item: T) -> Self
        ensures item { result.item ≡ item }
        ensures quality { result.quality ≡ 1000 }
    {
        QualityItem::new(item, Quality::MAX)
    }

    /// An item with a quality of one thousandth, the least one that is acceptable.
    pub fn min(item: T) -> Self
        ensures item { result.item ≡ item }
        ensures quality { result.quality ≡ 1 }
    {
        QualityItem::new(item, q(1))
    }

    /// An item that is not acceptable.
    pub fn zero(item: T) -> Self
        ensures item { result.item ≡ item }
        ensures quality { result.quality ≡ 0 }
    {
        QualityItem::new(item, Quality::ZERO)
    }
}

impl<T: Duplicate> Duplicate for QualityItem<T> {
    fn duplicate(&self, alloc: Global) -> Result<Self, NoMemory> {
        let item = self.item.duplicate(alloc)?;
        Ok(QualityItem {
            item,
            quality: self.quality,
        })
    }
}

fn is_weight(part: &[u8]) -> bool
    ensures { result ≡ is_weight_spec part.now }
{
    matches!(part, [b'q' | b'Q', b'=', ..])
}

/// Reads the item of a text whose last semicolon has these parts.
fn read_parts<T: ReadText + Drop>(
    alloc: Global,
    text: &str,
    front: &str,
    last: &[u8],
) -> Result<QualityItem<T>, Fail<ParseError>>
    ensures { Reads result (item_before T.reads text.now front.now last.now) }
{
    if last.len() < 2 {
        return Err(Fail::Of(ParseError::Header));
    }
    if !is_weight(last) {
        let item = T::parse(alloc, text)?;
        return Ok(QualityItem::max(item));
    }
    let Some(quality) = read_quality(&last[2..]) else {
        return Err(Fail::Of(ParseError::Header));
    };
    let item = T::parse(alloc, trim(front))?;
    Ok(QualityItem { item, quality })
}

impl<T: ReadText + Drop> ReadText for QualityItem<T> {
    ghost use Rattle.web_texts.specs.QualityItems.{quality_item_of};

    ghost reads = { quality_item_of T.reads };

    fn parse(alloc: Global, text: &str) -> Result<Self, Fail<ParseError>> {
        match cut_at_last(text, b';') {
            Some((front, last)) => read_parts(alloc, text, front, trim(last).as_bytes()),
            None => {
                let item = T::parse(alloc, text)?;
                Ok(QualityItem::max(item))
            }
        }
    }
}

impl<T: fmt::Display> fmt::Display for QualityItem<T> {
    ghost use Rattle.web_texts.specs.QualityItems.{quality_item_output};

    ghost output = { quality_item_output T.output };

    fn fmt<W: fmt::Write>(&self, f: &mut fmt::Formatter<W>) -> fmt::Result {
        write!(f, "{}{}", self.item, Weight(self.quality))
    }
}
