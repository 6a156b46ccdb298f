//! Pairs of names and values, as serde reads them.
use crate::faults::ReadFault;
use serde::{DeserializeOwned, Deserializer, Format, Kind, Name, find};
use std::alloc::Global;
use web_texts::{Fail, Pair, Text};

/// Where a format stands.
#[derive(Clone, Copy, Drop)]
enum Place {
    /// Before the pairs.
    Start,
    /// At the value of this pair, or past the last one.
    At(usize),
    /// In the values of the name of the first place, at the second.
    Same(usize, usize),
    /// In the values of all pairs, at this one.
    All(usize),
}

/// The pairs of a form, a query or a path. A struct is read by their names, a list from all values
/// of a name, a tuple from all values, and anything else from the first value.
#[derive(Drop)]
struct Pairs<'p> {
    alloc: Global,
    pairs: &'p [Pair],
    /// Which pairs were read as items of a list.
    taken: Vec<bool>,
    place: Place,
}

impl<'p> Pairs<'p> {
    fn value(&self) -> Result<&'p str, Fail<ReadFault>> {
        let at = match self.place {
            Place::Start => 0,
            Place::At(k) | Place::Same(_, k) | Place::All(k) => k,
        };
        match self.pairs.get(at) {
            Some(pair) => Ok(pair.value()),
            None => Err(self.refusal("no value")),
        }
    }

    fn refusal(&self, text: &str) -> Fail<ReadFault> {
        ReadFault::refusal(self.alloc, text)
    }

    /// A refusal that names the pair.
    fn refused(&self, text: &str) -> Fail<ReadFault> {
        let at = match self.place {
            Place::Start => 0,
            Place::At(k) | Place::Same(_, k) | Place::All(k) => k,
        };
        match self.pairs.get(at) {
            Some(pair) => self.named(pair.name(), text),
            None => self.refusal(text),
        }
    }

    fn named(&self, name: &str, text: &str) -> Fail<ReadFault> {
        match format!(in self.alloc; "{name}: {text}") {
            Ok(text) => Fail::Of(ReadFault {
                text: Text::from(text),
            }),
            Err(_) => Fail::NoMemory,
        }
    }

    fn is_taken(&self, at: usize) -> bool {
        match self.taken.get(at) {
            Some(taken) => *taken,
            None => false,
        }
    }

    fn take(&mut self, at: usize) {
        if at < self.taken.len() {
            self.taken[at] = true;
        }
    }

    /// The place of the next pair of the same name from this one on.
    fn same_name(&self, first: usize, from: usize) -> Option<usize> {
        let Some(pair) = self.pairs.get(first) else {
            return None;
        };
        for k in from..self.pairs.len() {
            if self.pairs[k].name() == pair.name() {
                return Some(k);
            }
        }
        None
    }
}

impl Format for Pairs<'_> {
    type Error = Fail<ReadFault>;

    type Mark = Place;

    fn bool(&mut self, _input: &[u8]) -> Result<bool, Fail<ReadFault>> {
        match self.value()? {
            "true" => Ok(true),
            "false" => Ok(false),
            _ => Err(self.refused("neither true nor false")),
        }
    }

    fn i64(&mut self, _input: &[u8]) -> Result<i64, Fail<ReadFault>> {
        match self.value()?.parse::<i64>() {
            Ok(number) => Ok(number),
            Err(_) => Err(self.refused("no number in range")),
        }
    }

    fn u64(&mut self, _input: &[u8]) -> Result<u64, Fail<ReadFault>> {
        match self.value()?.parse::<u64>() {
            Ok(number) => Ok(number),
            Err(_) => Err(self.refused("no number in range")),
        }
    }

    fn i128(&mut self, _input: &[u8]) -> Result<i128, Fail<ReadFault>> {
        match self.value()?.parse::<i128>() {
            Ok(number) => Ok(number),
            Err(_) => Err(self.refused("no number in range")),
        }
    }

    fn u128(&mut self, _input: &[u8]) -> Result<u128, Fail<ReadFault>> {
        match self.value()?.parse::<u128>() {
            Ok(number) => Ok(number),
            Err(_) => Err(self.refused("no number in range")),
        }
    }

    fn f32(&mut self, _input: &[u8]) -> Result<f32, Fail<ReadFault>> {
        Err(self.refused("float"))
    }

    fn f64(&mut self, _input: &[u8]) -> Result<f64, Fail<ReadFault>> {
        Err(self.refused("float"))
    }

    fn char(&mut self, _input: &[u8]) -> Result<char, Fail<ReadFault>> {
        let mut chars = self.value()?.chars();
        match (chars.next(), chars.next()) {
            (Some(c), None) => Ok(c),
            _ => Err(self.refused("not one character")),
        }
    }

    fn plain_str(&mut self, _input: &[u8]) -> Result<(usize, usize), Fail<ReadFault>> {
        Err(self.refused("a text that is borrowed"))
    }

    fn plain_bytes(&mut self, _input: &[u8]) -> Result<(usize, usize), Fail<ReadFault>> {
        Err(self.refused("bytes that are borrowed"))
    }

    fn string(&mut self, alloc: Global, _input: &[u8]) -> Result<String, Fail<ReadFault>> {
        Ok(String::from_str(alloc, self.value()?)?)
    }

    fn byte_buf(&mut self, _alloc: Global, _input: &[u8]) -> Result<Vec<u8>, Fail<ReadFault>> {
        Err(self.refused("bytes"))
    }

    fn peek(&mut self, _input: &[u8]) -> Result<Kind, Fail<ReadFault>> {
        match self.place {
            Place::Start => Ok(Kind::Map),
            _ => Ok(Kind::Str),
        }
    }

    fn take_unit(&mut self, _input: &[u8]) -> Result<bool, Fail<ReadFault>> {
        Ok(false)
    }

    fn take_none(&mut self, _input: &[u8]) -> Result<bool, Fail<ReadFault>> {
        Ok(false)
    }

    fn begin_seq(&mut self, _input: &[u8]) -> Result<(), Fail<ReadFault>> {
        match self.place {
            Place::Start => {
                self.place = Place::All(usize::MAX);
                Ok(())
            }
            Place::At(k) => {
                self.place = Place::Same(k, usize::MAX);
                Ok(())
            }
            _ => Err(self.refused("a list in a list")),
        }
    }

    fn next_item(&mut self, _input: &[u8]) -> Result<bool, Fail<ReadFault>> {
        match self.place {
            Place::Same(first, at) => {
                let next = if at == usize::MAX {
                    Some(first)
                } else {
                    self.same_name(first, at.saturating_add(1))
                };
                match next {
                    Some(k) => {
                        self.take(k);
                        self.place = Place::Same(first, k);
                        Ok(true)
                    }
                    None => {
                        self.place = Place::At(first);
                        Ok(false)
                    }
                }
            }
            Place::All(at) => {
                let next = if at == usize::MAX {
                    0
                } else {
                    at.saturating_add(1)
                };
                self.place = Place::All(next);
                Ok(next < self.pairs.len())
            }
            _ => Err(self.refused("no list")),
        }
    }

    fn begin_map(&mut self, _input: &[u8]) -> Result<(), Fail<ReadFault>> {
        match self.place {
            Place::Start => {
                self.place = Place::At(usize::MAX);
                Ok(())
            }
            _ => Err(self.refused("an object in a form")),
        }
    }

    fn begin_struct(&mut self, input: &[u8]) -> Result<bool, Fail<ReadFault>> {
        self.begin_map(input)?;
        Ok(false)
    }

    fn next_key(
        &mut self,
        _input: &[u8],
        names: &[Name<'_>],
    ) -> Result<Option<usize>, Fail<ReadFault>> {
        let from = match self.place {
            Place::At(k) => if k == usize::MAX {
                0
            } else {
                k.saturating_add(1)
            },
            _ => return Err(self.refused("no pairs")),
        };
        let pairs = self.pairs;
        for k in from..pairs.len() {
            if !self.is_taken(k) {
                self.place = Place::At(k);
                return Ok(Some(find(names, pairs[k].name())));
            }
        }
        Ok(None)
    }

    fn next_entry(&mut self, _input: &[u8]) -> Result<bool, Fail<ReadFault>> {
        Err(self.refusal("a map of any names"))
    }

    fn variant(&mut self, _input: &[u8], names: &[Name<'_>]) -> Result<usize, Fail<ReadFault>> {
        Ok(find(names, self.value()?))
    }

    fn skip(&mut self, _input: &[u8]) -> Result<(), Fail<ReadFault>> {
        Ok(())
    }

    fn mark(&mut self) -> Place {
        self.place
    }

    fn rewind(&mut self, mark: Place) {
        self.place = mark;
    }

    fn release(&mut self, _mark: Place) {}

    fn is_fatal(&self, error: &Fail<ReadFault>) -> bool {
        matches!(error, Fail::NoMemory)
    }

    fn missing(&self, name: &str) -> Fail<ReadFault> {
        self.named(name, "missing")
    }

    fn duplicate(&self, name: &str) -> Fail<ReadFault> {
        self.named(name, "comes again")
    }

    fn unknown_key(&self) -> Fail<ReadFault> {
        self.refused("unknown")
    }

    fn unknown_variant(&self) -> Fail<ReadFault> {
        self.refused("none of the values that are known")
    }

    fn wrong_len(&self) -> Fail<ReadFault> {
        self.refusal("another number of values")
    }

    fn invalid(&self) -> Fail<ReadFault> {
        self.refused("not in range")
    }

    fn no_memory(&self) -> Fail<ReadFault> {
        Fail::NoMemory
    }

    fn custom(&self, message: &str) -> Fail<ReadFault> {
        self.refused(message)
    }
}

/// Reads a type from pairs, as its derive of serde says.
pub fn from_pairs<T: DeserializeOwned>(
    alloc: Global,
    pairs: &[Pair],
) -> Result<T, Fail<ReadFault>> {
    let mut taken = Vec::with_capacity(alloc, pairs.len())?;
    for _pair in pairs {
        taken.push(false)?;
    }
    let mut format = Pairs {
        alloc,
        pairs,
        taken,
        place: Place::Start,
    };
    T::deserialize_owned(alloc, &mut Deserializer::new(&[], &mut format))
}
