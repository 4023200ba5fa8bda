//! The program `recovery-link`: a transfer over a simulated link, as figures, as calls of a sender or as qlog. Begin at
//! `transfer.rt`; docs/EXPERIMENTS.md shows it.
#![tactic(auto)]

mod amounts;
mod changes;
mod ending;
mod figures;
mod flow;
mod link;
mod pages;
mod peer;
mod scheduled;
mod sending;
mod settings;
mod tape;
mod telling;
mod transfer;

use changes::{Changes, Unfit, changes_of};
use ending::Ending;
use figures::Figures;
use pages::{HELP, VERSION};
use recovery_replay::arguments::{ArgumentsError, arguments};
use scheduled::{played, schedule_in, unused_in};
use settings::{Form, Settings, hint_of, settings_of};
use std::alloc::{AllocError, Global};
use std::io;
use std::io::ErrorKind;
use std::process::ExitCode;
use transfer::transferred;

/// Returns the ending after a requested text was written.
fn written(text: io::Result<()>) -> Ending {
    match text {
        Ok(()) => Ending::Ended,
        Err(error) if error.kind() == ErrorKind::BrokenPipe => Ending::Closed,
        Err(_) => Ending::WriteFailed,
    }
}

/// Returns the lines of figures: of several flows each line begins with the flow's number, from 1 on.
fn lines(alloc: Global, all: &[Figures]) -> Result<String, AllocError> {
    let mut text = String::new(alloc);
    let mut number: u64 = 0;
    for figures in all {
        number = number.saturating_add(1);
        let line = figures.line(alloc)?;
        if all.len() > 1 {
            let name = format!(in alloc; "flow={number} ")?;
            text.push_str(&name)?;
        }
        text.push_str(&line)?;
    }
    Ok(text)
}

/// Writes the lines of figures, to standard error if standard output has the run itself.
fn shown(rt: &HostRuntime, form: Form, all: &[Figures]) -> Ending {
    match lines(rt.alloc(), all) {
        Ok(line) if form == Form::Figures => written(print!(rt; "{line}")),
        Ok(line) => written(eprint!(rt; "{line}")),
        Err(_) => Ending::OutOfMemory,
    }
}

/// Runs a transfer over a link.
fn run(rt: &HostRuntime, settings: &Settings, changes: &Changes) -> Ending {
    match transferred(rt.alloc(), settings, changes, &mut rt.stdout()) {
        Ok(all) => shown(rt, settings.form, &all),
        Err(ending) => ending,
    }
}

/// Plays a schedule, if the arguments name one, else runs a transfer.
fn done(rt: &HostRuntime, settings: &Settings, words: &[String]) -> Ending {
    match (schedule_in(words), unused_in(words)) {
        (Some(_), Some(place)) => refused_with(rt, words, place, hint_of("schedule=")),
        (Some(file), None) => played(rt, settings, file),
        (None, _) => run_with(rt, settings, words),
    }
}

/// Runs a transfer over a link that changes as the arguments ask for.
fn run_with(rt: &HostRuntime, settings: &Settings, words: &[String]) -> Ending {
    match changes_of(rt.alloc(), words) {
        Ok(changes) => run(rt, settings, &changes),
        Err(Unfit::OutOfMemory) => Ending::OutOfMemory,
        Err(Unfit::Order(place)) => refused(rt, words, place),
    }
}

/// Reports the argument that cannot be read.
fn refused(rt: &HostRuntime, words: &[String], place: usize) -> Ending {
    match words.get(place) {
        Some(word) => refused_with(rt, words, place, hint_of(word.as_str())),
        None => Ending::Refused,
    }
}

/// Reports an argument, and what it may be.
fn refused_with(rt: &HostRuntime, words: &[String], place: usize, hint: &str) -> Ending {
    if let Some(word) = words.get(place) {
        let _told = eprint!(rt; "link: cannot read {word:?}: {hint}\n");
    }
    Ending::Refused
}

/// Does what the arguments ask for.
fn asked(rt: &HostRuntime, words: &[String]) -> Ending {
    match words {
        [word] if word.as_str() == "--help" => written(print!(rt; "{HELP}")),
        [word] if word.as_str() == "--version" => written(print!(rt; "{VERSION}")),
        words => match settings_of(words) {
            Ok(settings) => done(rt, &settings, words),
            Err(place) => refused(rt, words, place),
        },
    }
}

fn main(rt: HostRuntime) -> ExitCode {
    let ending = match arguments(&rt) {
        Ok(words) => asked(&rt, &words),
        Err(ArgumentsError::OutOfMemory) => Ending::OutOfMemory,
        Err(ArgumentsError::Unreadable) => Ending::WrongArguments,
    };
    let _told = eprint!(rt; "{}", ending.text());
    ExitCode::from(ending.status())
}
