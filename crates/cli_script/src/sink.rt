//! Where the exchanges of a script go.
ghost use Rattle.std.specs.Prelude.{◌≡◌, ◌<◌, ◌^◌, ◌∷◌, [], List, true, length, OnOk};
ghost use Rattle.std.specs.Option.{ForSome};
ghost use Rattle.web_request.specs.Body.{is_body, piece_bytes};
ghost use Rattle.cli_script.specs.ExchangeSinks.{Adds, open_exchanges};
ghost use Rattle.cli_script.specs.ScriptedView.{ScriptedExchangeView};

use crate::exchange::ScriptedExchange;
use std::alloc::Global;
use web_texts::NoMemory;

/// Where `read_script_into` puts the exchanges of a script, in their order: a list of exchanges, or
/// of what a caller makes of each.
pub trait ExchangeSink {
    /// The sink holds these exchanges and nothing else.
    ghost holds: { Self → List ScriptedExchangeView → Type 0 };

    /// Adds an exchange after the others. Where allocation fails, what the sink holds then is not
    /// specified.
    fn add(&mut self, alloc: Global, exchange: ScriptedExchange) -> Result<(), NoMemory>
        requires body { is_body exchange.marks ≡ true }
        requires small { length (piece_bytes exchange.marks) < 2 ^ 63 }
        ensures { OnOk result (Adds holds self.old self.new (exchange ∷ [])) };
}

impl ExchangeSink for Vec<ScriptedExchange> {
    ghost use Rattle.std.specs.Prelude.{◌≡◌};

    ghost holds = { λ sink exchanges. sink.items ≡ exchanges };

    fn add(&mut self, _alloc: Global, exchange: ScriptedExchange) -> Result<(), NoMemory> {
        Ok(self.push(exchange)?)
    }
}

/// Adds an exchange to the sink, where there is one.
pub(crate) fn add_open<S: ExchangeSink>(
    alloc: Global,
    sink: &mut S,
    exchange: Option<ScriptedExchange>,
) -> Result<(), NoMemory>
    requires body { ForSome exchange (λ e. is_body e.marks ≡ true) }
    requires small { ForSome exchange (λ e. length (piece_bytes e.marks) < 2 ^ 63) }
    ensures { OnOk result (Adds S.holds sink.old sink.new (open_exchanges exchange)) }
{
    match exchange {
        Some(exchange) => sink.add(alloc, exchange),
        None => Ok(()),
    }
}
