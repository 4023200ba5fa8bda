//! The program `recovery-trace`: one event at a time, its reply immediately, and the state if asked for. Begin at
//! `turn.rt`.
#![tactic(auto)]

mod faults;
mod moments;
mod qlog;
mod report;
mod requests;
mod states;
mod trace;
mod turn;

use recovery_replay::arguments::{ArgumentsError, arguments};
use recovery_replay::outcome::Outcome;
use recovery_replay::script::Ending;
use report::report;
use requests::{Choice, HELP, Request, USAGE, VERSION, request_of};
use std::io;
use std::io::BufReader;
use std::process::ExitCode;
use trace::trace;

/// Runs a trace from standard input to standard output.
fn traced(rt: &HostRuntime, choice: Choice) -> Outcome {
    match BufReader::new(rt.alloc(), rt.reader()) {
        Ok(mut input) => trace(
            rt.alloc(),
            choice,
            &mut input,
            &mut rt.stdout(),
            &mut rt.stderr(),
        ),
        Err(_) => Outcome::OutOfMemory,
    }
}

/// Returns the outcome of writing a requested text.
fn written(text: io::Result<()>) -> Outcome {
    match text {
        Ok(()) => Outcome::Ended(Ending::Whole),
        Err(error) => Outcome::of_failed_write(error),
    }
}

/// Does what the arguments ask for.
fn carried_out(rt: &HostRuntime) -> Outcome {
    match arguments(rt) {
        Ok(words) => match request_of(&words) {
            Request::Trace(choice) => traced(rt, choice),
            Request::Help => written(print!(rt; "{USAGE}\n{HELP}")),
            Request::Version => written(print!(rt; "{VERSION}")),
            Request::Unknown => Outcome::WrongArguments,
        },
        Err(ArgumentsError::OutOfMemory) => Outcome::OutOfMemory,
        Err(ArgumentsError::Unreadable) => Outcome::WrongArguments,
    }
}

fn main(rt: HostRuntime) -> ExitCode {
    let outcome = carried_out(&rt);
    let _told = report(outcome, &mut rt.stderr());
    ExitCode::from(outcome.status())
}
