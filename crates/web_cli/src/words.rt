//! The arguments of the command.
ghost use Rattle.std.specs.Prelude.{◌≡◌, map, string_bytes};
ghost use Rattle.web_cli.specs.CommandWords.{capacity_of, command_of, count_of, load_of};

use cli_load::Load;
use web_texts::{cut_at, read_digits};

/// The text that is written where the arguments are no command.
pub(crate) const USAGE: &[u8] =
    b"usage: serve --pool=N | generate SEED COUNT | replay SEED COUNT | http1 --pool=N\n";

/// The most exchanges of a load.
const MAX_COUNT: u64 = 50_000;

/// The most records that the pool of `serve` and of `http1` keeps.
const MAX_CAPACITY: u64 = 1024;

/// A command, as its arguments ask for it.
#[derive(Clone, Copy, Debug, PartialEq, Eq)]
pub enum Command {
    /// `serve --pool=N`: reads a script and serves it, with a pool that keeps up to N records.
    Serve(u16),
    /// `generate SEED COUNT`: writes the script of a load.
    Generate(Load),
    /// `replay SEED COUNT`: serves that script, and writes a summary.
    Replay(Load),
    /// `http1 --pool=N`: reads the bytes of a connection of HTTP/1.1 and writes its answers, with a
    /// pool that keeps up to N records.
    Connect(u16),
}

/// How many records the pool keeps: `--pool=` and 0 to 1024, in digits.
fn capacity_of(text: &str) -> Option<u16>
    ensures { result ≡ capacity_of text.now }
{
    let (name, number) = cut_at(text, b'=')?;
    if name != "--pool" {
        return None;
    }
    match read_digits(number, MAX_CAPACITY) {
        None => None,
        Some(capacity) => Some(capacity as u16),
    }
}

/// A count of exchanges, in digits: 1 to 50,000.
fn count_of(text: &str) -> Option<u32>
    ensures { result ≡ count_of text.now }
{
    match read_digits(text, MAX_COUNT) {
        None | Some(0) => None,
        Some(count) => Some(count as u32),
    }
}

/// A load of a seed and a count, both in digits.
fn load_of(seed: &str, count: &str) -> Option<Load>
    ensures { result ≡ load_of seed.now count.now }
{
    let seed = read_digits(seed, u64::MAX)?;
    let count = count_of(count)?;
    Some(Load { seed, count })
}

/// The command that these arguments ask for. `None` where they are none: there are others than the
/// arguments of one command, the capacity of the pool is no number up to 1024, the seed is none up
/// to 2^64 - 1, or the count is none from 1 to 50,000.
pub fn command_of(words: &[String]) -> Option<Command>
    ensures { result ≡ command_of (map string_bytes words.now) }
{
    match words {
        [word, pool] if word.as_str() == "serve" => {
            Some(Command::Serve(capacity_of(pool.as_str())?))
        }
        [word, pool] if word.as_str() == "http1" => {
            Some(Command::Connect(capacity_of(pool.as_str())?))
        }
        [word, seed, count] if word.as_str() == "generate" => {
            Some(Command::Generate(load_of(seed.as_str(), count.as_str())?))
        }
        [word, seed, count] if word.as_str() == "replay" => {
            Some(Command::Replay(load_of(seed.as_str(), count.as_str())?))
        }
        _ => None,
    }
}
