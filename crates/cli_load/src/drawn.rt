//! The exchanges of a load, as they are drawn.
ghost use Rattle.std.specs.Prelude.{◌≡◌, ◌<◌};
ghost use Rattle.cli_load.specs.Drawing.{drawn_of, next_state, route_of};

/// The multiplier and the increment of the linear congruential generator that Knuth gives for
/// MMIX.
const MULTIPLIER: u64 = 6_364_136_223_846_793_005;

const INCREMENT: u64 = 1_442_695_040_888_963_407;

/// The greatest number of an exchange, and one more.
const NUMBERS: u64 = 1000;

/// The resource that an exchange asks for.
#[derive(Clone, Copy, Debug, PartialEq, Eq)]
pub enum Route {
    Bytes,
    Json,
    Form,
}

/// An exchange, as it is drawn from one state.
#[derive(Clone, Copy, Debug, PartialEq, Eq)]
pub struct Drawn {
    pub route: Route,
    /// How many stalls stand between its two pieces, at most 2.
    pub stalls: u64,
    /// The number that its body has, below 1,000.
    pub number: u64,
}

/// The state after this one.
pub(crate) fn next_state(state: u64) -> u64
    ensures { result ≡ next_state state }
{
    state.wrapping_mul(MULTIPLIER).wrapping_add(INCREMENT)
}

fn route_of(draw: u64) -> Route
    ensures { result ≡ route_of draw }
{
    match draw % 3 {
        0 => Route::Bytes,
        1 => Route::Json,
        _ => Route::Form,
    }
}

/// The exchange that is drawn from a state: from its upper 31 bits, since the lower ones repeat
/// soon.
pub(crate) fn drawn_of(state: u64) -> Drawn
    ensures value { result ≡ drawn_of state }
    ensures stalls { result.stalls < 3 }
{
    let draw = state >> 33;
    Drawn {
        route: route_of(draw),
        stalls: draw / 3 % 3,
        number: draw / 9 % NUMBERS,
    }
}
