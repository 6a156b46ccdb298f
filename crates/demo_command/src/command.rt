//! The command over the arguments that the first segment of a path asks for.
ghost use Rattle.std.specs.Prelude.{◌≡◌, List, ℕ, None, map, string_bytes, ⊤};
ghost use Rattle.cli_load.specs.declared.load.Load.{Load};
ghost use Rattle.web_worker.specs.HandlerPromises.{SamePromises};
ghost use Rattle.web_cli.specs.CommandWords.{IfUncalled, IsConnect, IsGenerate, IsReplay, IsServe};
ghost use Rattle.web_cli.specs.CommandWords.{command_of};
ghost use Rattle.web_cli.specs.ConnectionAnswers.{AllAnswered, ConnectionResult};
ghost use Rattle.web_cli.specs.LoadTexts.{load_script};
ghost use Rattle.web_cli.specs.Run.{Headline, ReadFaultIsReported, RefusesWords, ServeResult};
ghost use Rattle.web_cli.specs.Run.{TooLongIsReported, WriteFaultIsReported, WritesAlone};
ghost use Rattle.demo_command.specs.PickedScripts.{AppendsPickedCalls, ArePickedAnswers};
ghost use Rattle.demo_command.specs.PickedScripts.{ArePickedReplies, IsPickedSummary};

use demo_app::Demo;
use demo_picked::Picked;
use std::alloc::Global;
use web_cli::{Input, Output, Status, run_over};
use web_reply::Responder;
use web_worker::Handler;

/// Runs the command that `words` ask for (see [`run_over`]). The arguments of each exchange are
/// those that the first segment of its path asks for.
pub fn run<I: Input, O: Output, H: Handler<Picked>>(
    alloc: Global,
    words: &[String],
    input: &mut I,
    output: &mut O,
    handler: &mut H,
) -> Status
where
    H::Output: Responder<Demo>,
    requires ready { H.ready handler.old }
    ensures ready { H.ready handler.new }
    ensures same_promises { SamePromises (H.answers handler.old) (H.answers handler.new) }
    ensures no_command { command_of (map string_bytes words.now) ≡ None → RefusesWords result
        (I.state input.old) (I.state input.new) (O.state output.old) (O.state output.new) }
    ensures uncalled { IfUncalled (command_of (map string_bytes words.now))
        (handler.new ≡ handler.old) }
    ensures serves { (capacity : ℕ) → IsServe (map string_bytes words.now) capacity
        → (came : List ℕ) × ServeResult
        (ArePickedReplies (H.answers handler.old) H.Output.responds capacity)
        (AppendsPickedCalls (H.calls handler.old) (H.calls handler.new))
        (handler.new ≡ handler.old) result came
        (I.state input.old) (I.state input.new) (O.state output.old) (O.state output.new) }
    ensures headline { (capacity : ℕ) → IsServe (map string_bytes words.now) capacity → Headline
        (ArePickedReplies (H.answers handler.old) H.Output.responds capacity)
        (AppendsPickedCalls (H.calls handler.old) (H.calls handler.new)) result
        (I.state input.old) (I.state input.new) (O.state output.old) (O.state output.new) }
    ensures generates { (load : Load) → IsGenerate (map string_bytes words.now) load → WritesAlone
        (λ text. text ≡ load_script load) ⊤ result
        (I.state input.old) (I.state input.new) (O.state output.old) (O.state output.new) }
    ensures replays { (load : Load) → IsReplay (map string_bytes words.now) load → WritesAlone
        (IsPickedSummary (H.answers handler.old) H.Output.responds (load_script load))
        (AppendsPickedCalls (H.calls handler.old) (H.calls handler.new) (load_script load)) result
        (I.state input.old) (I.state input.new) (O.state output.old) (O.state output.new) }
    ensures connects { (capacity : ℕ) → IsConnect (map string_bytes words.now) capacity
        → (came : List ℕ) × ConnectionResult
        (ArePickedAnswers (H.answers handler.old) H.Output.responds capacity)
        (handler.new ≡ handler.old) result came
        (I.state input.old) (I.state input.new) (O.state output.old) (O.state output.new) }
    ensures answered { (capacity : ℕ) → IsConnect (map string_bytes words.now) capacity
        → AllAnswered (ArePickedAnswers (H.answers handler.old) H.Output.responds capacity) result
        (I.state input.old) (I.state input.new) (O.state output.old) (O.state output.new) }
    ensures read_fault { ReadFaultIsReported result (I.state input.old) (I.state input.new) }
    ensures write_fault { WriteFaultIsReported result (O.state output.old) (O.state output.new) }
    ensures too_long { TooLongIsReported result (I.state input.old) (I.state input.new) }
{
    run_over::<I, O, Picked, H>(alloc, words, input, output, handler)
}
