//! The effects of a failed allocation: a script of events is played twice, one by one and as one run.
//!
//! `tests/refused_memory.py` makes each of its allocations fail in turn.
#![tactic(auto)]

mod play;
mod readings;
mod scarce;
mod script;

use play::{Hit, Wrong, play_each, play_run};
use std::io;

/// Prints whose allocation failed.
fn tell(rt: &impl Print, how: &str, hit: Hit) -> io::Result<()> {
    match hit {
        Hit::None => println!(rt; "nothing was refused memory"),
        Hit::Outside(what) => println!(rt; "{how}: {what} was refused memory"),
        Hit::Event(step, name) => {
            println!(rt; "{how}: step {step}, {name}, was refused memory, and that left no trace")
        }
    }
}

#[derive(Debug, Drop, thiserror::Error)]
enum Failure {
    #[error("{0}")]
    Wrong(#[from] Wrong),
    #[error("cannot be written: {0}")]
    Io(#[from] io::Error),
}

/// Plays the script both ways; the one allocation that fails may be in either.
fn main(rt: HostRuntime) -> Result<(), Failure> {
    let mut hit = Hit::None;
    play_each(rt.alloc(), &mut hit)?;
    let how = match hit {
        Hit::None => "run",
        _ => "one by one",
    };
    play_run(rt.alloc(), &mut hit)?;
    tell(&rt, how, hit)?;
    Ok(())
}
