//! The files of a folder, behind a program that opens the socket: it reads the bytes of one
//! connection of HTTP/1.1 from standard input, and writes the replies to standard output.
//!
//! `example_files FOLDER [--listing] [--follow-links] [--hidden] [--no-date]`
#![tactic(auto)]

mod serving;
mod site;
mod words;

use crate::serving::serve_folder;
use crate::words::read_words;
use std::process::ExitCode;

const USAGE: &str =
    "usage: example_files FOLDER [--listing] [--follow-links] [--hidden] [--no-date]";

/// It writes the usage if the words are wrong, and nothing once it serves: behind inetd standard
/// error is the connection too.
fn main(rt: HostRuntime) -> ExitCode {
    let Ok(Some(words)) = read_words(&rt) else {
        let _told = eprintln!(rt; "{USAGE}");
        return ExitCode::FAILURE;
    };
    match serve_folder(rt, words) {
        Ok(()) => ExitCode::SUCCESS,
        Err(_) => ExitCode::FAILURE,
    }
}
