//! The program `recovery-sender`: reads calls of a sender on standard input and writes the answers to standard output.
//! Begin at `play.rt`.
#![tactic(auto)]

mod answers;
mod choice;
mod lines;
mod pages;
mod play;
mod report;

use choice::{Choice, choice_of};
use pages::{HELP, VERSION};
use play::play;
use recovery_replay::arguments::{ArgumentsError, arguments};
use recovery_replay::outcome::Outcome;
use recovery_replay::script::Ending;
use report::report;
use std::io;
use std::io::BufReader;
use std::process::ExitCode;

/// Answers the calls on standard input.
fn played(rt: &HostRuntime, choice: Choice) -> Outcome {
    match BufReader::new(rt.alloc(), rt.reader()) {
        Ok(mut input) => {
            let (_output, outcome) = play(
                rt.alloc(),
                choice,
                &mut input,
                rt.stdout(),
                &mut rt.stderr(),
            );
            outcome
        }
        Err(_) => Outcome::OutOfMemory,
    }
}

/// Returns the outcome of writing a requested text.
fn written(text: io::Result<()>) -> Outcome {
    match text {
        Ok(()) => Outcome::Ended(Ending::Whole),
        Err(error) => Outcome::of_failed_write(error),
    }
}

/// Does what the arguments ask for.
fn asked(rt: &HostRuntime, words: &[String]) -> Outcome {
    match words {
        [word] if word.as_str() == "--help" => written(print!(rt; "{HELP}")),
        [word] if word.as_str() == "--version" => written(print!(rt; "{VERSION}")),
        words => match choice_of(words) {
            Some(choice) => played(rt, choice),
            None => Outcome::WrongArguments,
        },
    }
}

/// Does the same if the arguments can be read.
fn carried_out(rt: &HostRuntime) -> Outcome {
    match arguments(rt) {
        Ok(words) => asked(rt, &words),
        Err(ArgumentsError::OutOfMemory) => Outcome::OutOfMemory,
        Err(ArgumentsError::Unreadable) => Outcome::WrongArguments,
    }
}

fn main(rt: HostRuntime) -> ExitCode {
    let outcome = carried_out(&rt);
    let _told = report(outcome, &mut rt.stderr());
    ExitCode::from(outcome.status())
}
