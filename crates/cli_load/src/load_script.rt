//! The text of a script.
ghost use Rattle.std.specs.Prelude.{◌≡◌, ◌<◌, ◌≤◌, ◌++◌, IfOk, OnOk, decimal, drop, length, true};
ghost use Rattle.cli_script.specs.Script.{is_valid_script, script_lines};
ghost use Rattle.cli_load.specs.ScriptTexts.{end_text, exchange_text, exchanges_from};
ghost use Rattle.cli_load.specs.ScriptTexts.{head_text, plan_round, script_text, stalled_text};

use crate::drawn::{Drawn, Route, drawn_of, next_state};
use crate::load::Load;
use itoa::Buffer;
use std::alloc::Global;
use web_texts::NoMemory;

const BYTES_HEAD: &[u8] = b"exchange POST /bytes\ntext v\n";

const JSON_HEAD: &[u8] =
    b"exchange POST /json\nheader content-type application/json\ntext {\"name\":\"x\",\"n\":\n";

const FORM_HEAD: &[u8] =
    b"exchange POST /form\nheader content-type application/x-www-form-urlencoded\ntext name=x&n=\n";

/// The most bytes of an exchange: those of a form with two stalls and a number of three digits.
const LONGEST_EXCHANGE: usize = 110;

fn put(out: &mut Vec<u8>, text: &[u8]) -> Result<(), NoMemory>
    ensures { OnOk result (out.new.items ≡ out.old.items ++ text.now) }
{
    Ok(out.extend_from_slice(text)?)
}

fn put_number(out: &mut Vec<u8>, number: u64) -> Result<(), NoMemory>
    ensures { OnOk result (out.new.items ≡ out.old.items ++ decimal number) }
{
    let mut buffer = Buffer::new();
    put(out, buffer.format(number).as_bytes())
}

/// The lines before the stalls.
fn head_text(route: Route) -> &'static [u8]
    ensures { result.now ≡ head_text route }
{
    match route {
        Route::Bytes => BYTES_HEAD,
        Route::Json => JSON_HEAD,
        Route::Form => FORM_HEAD,
    }
}

/// The stalls, and the word of the line after them.
fn stalled_text(stalls: u64) -> &'static [u8]
    requires { stalls < 3 }
    ensures { result.now ≡ stalled_text stalls }
{
    match stalls {
        0 => b"text ",
        1 => b"stall\ntext ",
        _ => b"stall\nstall\ntext ",
    }
}

/// What stands after the number.
fn end_text(route: Route) -> &'static [u8]
    ensures { result.now ≡ end_text route }
{
    match route {
        Route::Json => b"}\n",
        Route::Bytes | Route::Form => b"\n",
    }
}

fn put_exchange(out: &mut Vec<u8>, drawn: Drawn) -> Result<(), NoMemory>
    requires stalls { drawn.stalls < 3 }
    ensures { OnOk result (out.new.items ≡ out.old.items ++ exchange_text drawn) }
{
    put(out, head_text(drawn.route))?;
    put(out, stalled_text(drawn.stalls))?;
    put_number(out, drawn.number)?;
    put(out, end_text(drawn.route))
}

fn put_exchanges(out: &mut Vec<u8>, load: Load) -> Result<(), NoMemory>
    ensures { OnOk result (out.new.items ≡ out.old.items ++ exchanges_from load.seed load.count) }
{
    let mut state = load.seed;
    for _ in 0..load.count {
        state = next_state(state);
        put_exchange(out, drawn_of(state))?;
    }
    Ok(())
}

/// A line of the plan for each exchange.
fn put_round(out: &mut Vec<u8>, count: u32) -> Result<(), NoMemory>
    ensures { OnOk result (out.new.items ≡ out.old.items ++ plan_round count) }
{
    for place in 0..count {
        put(out, b"plan ")?;
        put_number(out, u64::from(place))?;
        put(out, b"\n")?;
    }
    Ok(())
}

/// The same line again for each exchange, copied from where the first ones begin.
fn repeat_round(out: &mut Vec<u8>, start: usize) -> Result<(), NoMemory>
    requires inside { start ≤ length out.old.items }
    ensures { OnOk result (out.new.items ≡ out.old.items ++ drop start out.old.items) }
{
    Ok(out.extend_from_within(start..)?)
}

/// The most bytes that the script can have. No line of the plan has more digits than the count.
fn most_bytes(count: u32) -> usize {
    let mut buffer = Buffer::new();
    let plan_line = b"plan \n".len() + buffer.format(count).len();
    count as usize * (LONGEST_EXCHANGE + 2 * plan_line)
}

/// The script of a load: its exchanges, each with a body in two pieces and up to two stalls between
/// them, and then two lines of the plan for each. It is valid. Its room is allocated at once.
///
/// # Errors
///
/// `NoMemory` where the text cannot be allocated.
pub fn script_text(alloc: Global, load: Load) -> Result<Vec<u8>, NoMemory>
    ensures text { IfOk result (λ text. text.items ≡ script_text load.seed load.count) }
    ensures valid { IfOk result (λ text. is_valid_script (script_lines text.items) ≡ true) }
{
    let mut out = Vec::with_capacity(alloc, most_bytes(load.count))?;
    put_exchanges(&mut out, load)?;
    let start = out.len();
    put_round(&mut out, load.count)?;
    repeat_round(&mut out, start)?;
    Ok(out)
}
