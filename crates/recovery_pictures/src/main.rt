//! The program `recovery-pictures`: draws what a connection or a path did, from a text, as SVG. docs/PROGRAMS.md shows
//! the pictures.
#![tactic(auto)]

mod connection;
mod failure;
mod panels;
mod plot;
mod requests;
mod start;
mod tunnel;

use failure::Failure;
use recovery_replay::arguments::arguments;
use requests::{HELP, Request, VERSION, request_of};
use std::io::{ErrorKind, Read};
use std::process::ExitCode;

/// Returns all of the input, which must be UTF-8.
fn text(rt: &HostRuntime) -> Result<String, Failure> {
    let mut text = String::new(rt.alloc());
    match rt.reader().read_to_string(&mut text) {
        Ok(_) => Ok(text),
        Err(error) if error.kind() == ErrorKind::InvalidData => Err(Failure::NotUtf8),
        Err(error) => Err(Failure::Io(error)),
    }
}

/// Writes a text. A closed pipe is no failure.
fn write(rt: &HostRuntime, text: &str) -> Result<(), Failure> {
    match print!(rt; "{text}") {
        Err(error) if error.kind() != ErrorKind::BrokenPipe => Err(Failure::Io(error)),
        _ => Ok(()),
    }
}

fn run(rt: &HostRuntime) -> Result<(), Failure> {
    let words = arguments(rt)?;
    let picture = match request_of(&words) {
        Request::Connection(choice) if choice.over.is_some() => {
            connection::picture_of_two(rt.alloc(), choice, text(rt)?.as_str())?
        }
        Request::Connection(choice) => {
            connection::picture_of(rt.alloc(), choice, &mut rt.reader())?
        }
        Request::Tunnel => tunnel::picture_of(rt.alloc(), text(rt)?.as_str())?,
        Request::Help => return write(rt, HELP),
        Request::Version => return write(rt, VERSION),
        Request::Unknown => return Err(Failure::Usage),
    };
    write(rt, picture.as_str())
}

fn main(rt: HostRuntime) -> ExitCode {
    match run(&rt) {
        Ok(()) => ExitCode::SUCCESS,
        Err(failure) => {
            let _told = eprintln!(rt; "{failure}");
            ExitCode::from(failure.status())
        }
    }
}
