//! The command with the demo's handler: it serves a script or a connection.
//!
//! `rothveng serve --pool=N` reads a script from standard input, serves its exchanges in the order
//! of its plan, and writes the replies to standard output; N is how many records the worker keeps
//! at most, 0 to 1024. `rothveng generate SEED COUNT` writes a script of so many exchanges, drawn
//! from the seed, and `rothveng replay SEED COUNT` serves that script and writes a summary.
//! `rothveng http1 --pool=N` reads the bytes of a connection of HTTP/1.1 and writes its answers.
//! The exit status is 0 where all was served and written, 2 where the script is refused or a
//! connection is too long, 3 where a read failed, 4 where a write failed, 5 where allocation
//! failed, and 64 where the arguments are no command.
#![tactic(auto)]

mod law;
mod program;

use program::run_program;
use std::env;
use std::io::ErrorKind;
use std::process::ExitCode;
use web_cli::{Status, StdInput, StdOutput};

/// The arguments without the program's name, or the status where they are no UTF-8 or allocation
/// failed.
fn arguments(rt: &HostRuntime) -> Result<Vec<String>, Status> {
    let mut arguments = match env::args(rt) {
        Ok(arguments) => arguments,
        Err(e) if e.kind() == ErrorKind::InvalidData => return Err(Status::Usage),
        Err(_) => return Err(Status::NoMemory),
    };
    let _name = arguments.next();
    arguments.collect(rt.alloc()).map_err(|_| Status::NoMemory)
}

fn main(rt: HostRuntime) -> ExitCode {
    let status = match arguments(&rt) {
        Ok(arguments) => {
            let mut input = StdInput::new(rt.stdin());
            let mut output = StdOutput::new(rt.stdout());
            run_program(rt.alloc(), &arguments, &mut input, &mut output)
        }
        Err(status) => status,
    };
    ExitCode::from(status.code())
}
