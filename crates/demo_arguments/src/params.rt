//! Numbers in the parameters of a path.
ghost use Rattle.std.specs.Prelude.{◌≡◌, option_map};
ghost use Rattle.demo_arguments.specs.LateAndWait.{delay_in, first_param, number_in};

use web_texts::{Pair, read_digits};

/// The longest delay that a parameter can ask for, in polls.
const MAX_DELAY: u64 = 1_000_000;

/// The value of the first parameter of this name.
fn first_param<'a>(params: &'a [Pair], name: &str) -> Option<&'a Pair>
    ensures { option_map (λ p. p.now) result ≡ first_param name.now params.now }
{
    params.iter().find(|pair| pair.name() == name)
}

/// The value of the first parameter of this name, if it is digits alone and at most `max`.
pub(crate) fn number_in(params: &[Pair], name: &str, max: u64) -> Option<u64>
    ensures { result ≡ number_in name.now max params.now }
{
    match first_param(params, name) {
        Some(pair) => read_digits(pair.value(), max),
        None => None,
    }
}

/// The parameter `delay`, if it is a number of at most 1,000,000, else 0.
pub(crate) fn delay_in(params: &[Pair]) -> u64
    ensures { result ≡ delay_in params.now }
{
    number_in(params, "delay", MAX_DELAY).unwrap_or(0)
}
