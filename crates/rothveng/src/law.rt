//! A law of the answers of a connection. There is nothing to call it for.
ghost use Rattle.std.specs.Prelude.{ℕ, List};
ghost use Rattle.web_http1.specs.Answers.{AllReplied, HasAnswers};
ghost use Rattle.web_cli.specs.ConnectionAnswers.{connection_limits};
ghost use Rattle.rothveng.specs.DemoAnswers.{demo_setting};

/// Each message of a connection has one reply of the program's, so all bytes have answers: it
/// cannot be that they have none.
pub fn demo_answers_law()
    ensures replied { (capacity : ℕ)
        → AllReplied (demo_setting capacity) connection_limits }
    ensures answered { (capacity : ℕ) (bytes : List ℕ)
        → HasAnswers (demo_setting capacity) connection_limits bytes }
{}
