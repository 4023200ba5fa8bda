//! A trace: each line is read, its event applied and its answer written before the next line is read.
ghost use Rattle.recovery_replay.specs.Playing.{streams_of};
ghost use Rattle.recovery_trace.specs.Trace.{TracesAs, TracesBehind, TracesBy, TracesFrom, TracesOver};

use crate::qlog::HEADER;
use crate::requests::{Choice, Controllers, Shown};
use crate::turn::{Turn, take_turn, write_out};
use quic_recovery::LiveRecovery;
use rand_core::SeedableRng;
use rand_pcg::Pcg32;
use recovery_base::time::Instant;
use recovery_congestion::congestion::{ControllerFactory, NewRenoConfig};
use recovery_cubic::CubicConfig;
use recovery_queue::items::ItemQueue;
use recovery_replay::outcome::Outcome;
use recovery_replay::reading::{Next, next_line};
use recovery_replay::replay::{FIRST_PORT, config, skips};
use recovery_replay::script::Ending;
use recovery_script_syntax::lines::peer_at;
use std::alloc::Global;
use std::io::{Read, Write};

/// Runs the lines of an input on a recovery without any event.
fn run<F, R, W, E>(
    alloc: Global,
    live: &mut LiveRecovery<F, ItemQueue, Pcg32>,
    choice: Choice,
    input: &mut R,
    output: &mut W,
    errors: &mut E,
) -> Outcome
where
    F: ControllerFactory,
    R: Read,
    W: Write,
    E: Write,
    ensures { TracesFrom live.old.recovery choice (streams_of
        (R.remaining input.old) (R.remaining input.new)
        (W.contents output.old) (W.contents output.new)
        (E.contents errors.old) (E.contents errors.new)) result }
{
    let mut line = Vec::new(alloc);
    let mut text = String::new(alloc);
    let mut time = 0;
    let mut ended = Outcome::Ended(Ending::Whole);
    for number in 1..u64::MAX {
        let next = match next_line(input, &mut line) {
            Ok(Some(next)) => next,
            Ok(None) => return ended,
            Err(unread) => return Outcome::from(unread),
        };
        match take_turn(
            alloc,
            live,
            &line,
            number,
            choice.shows,
            &mut time,
            &mut text,
            output,
            errors,
        ) {
            Turn::Done => {}
            Turn::Bad if choice.is_strict => return Outcome::Ended(Ending::BadLine(number)),
            Turn::Bad => ended = Outcome::Ended(Ending::BadLine(number)),
            Turn::Over(outcome) => return outcome,
        }
        if let Next::Last = next {
            return ended;
        }
    }
    Outcome::Ended(Ending::ReadFailed)
}

/// Runs a trace over these controllers.
fn trace_over<F, R, W, E>(
    alloc: Global,
    factory: F,
    choice: Choice,
    input: &mut R,
    output: &mut W,
    errors: &mut E,
) -> Outcome
where
    F: ControllerFactory,
    R: Read,
    W: Write,
    E: Write,
    ensures { TracesOver F.built F.Controller.words factory choice (streams_of
        (R.remaining input.old) (R.remaining input.new)
        (W.contents output.old) (W.contents output.new)
        (E.contents errors.old) (E.contents errors.new)) result }
{
    let config = config(factory, peer_at(FIRST_PORT), skips(choice.seed));
    let rng = Pcg32::seed_from_u64(choice.seed.unwrap_or(0));
    match LiveRecovery::new(alloc, config, rng, Instant::from_nanos(0)) {
        Ok(mut live) => {
            let outcome = run(alloc, &mut live, choice, input, output, errors);
            drop(live);
            outcome
        }
        Err(_) => Outcome::OutOfMemory,
    }
}

/// Runs a trace over the chosen controllers.
fn trace_by<R: Read, W: Write, E: Write>(
    alloc: Global,
    choice: Choice,
    input: &mut R,
    output: &mut W,
    errors: &mut E,
) -> Outcome
    ensures { TracesBy choice.controllers choice (streams_of
        (R.remaining input.old) (R.remaining input.new)
        (W.contents output.old) (W.contents output.new)
        (E.contents errors.old) (E.contents errors.new)) result }
{
    match choice.controllers {
        Controllers::NewReno => {
            let factory = NewRenoConfig::default();
            trace_over(alloc, factory, choice, input, output, errors)
        }
        Controllers::Cubic => {
            let factory = CubicConfig::default();
            trace_over(alloc, factory, choice, input, output, errors)
        }
        Controllers::Fixed(factory) => { trace_over(alloc, factory, choice, input, output, errors) }
    }
}

/// Runs a trace after the header record of qlog.
fn trace_behind<R: Read, W: Write, E: Write>(
    alloc: Global,
    choice: Choice,
    input: &mut R,
    output: &mut W,
    errors: &mut E,
) -> Outcome
    ensures { TracesBehind choice (streams_of
        (R.remaining input.old) (R.remaining input.new)
        (W.contents output.old) (W.contents output.new)
        (E.contents errors.old) (E.contents errors.new)) result }
{
    match write_out(output, HEADER) {
        Ok(()) => trace_by(alloc, choice, input, output, errors),
        Err(outcome) => outcome,
    }
}

/// Reads lines and answers each before it reads the next. The answers, and the state if asked for, are written to
/// `output` and flushed; lines that cannot be parsed are reported to `errors`.
///
/// After each line the replies so far follow from the events so far, and all promises of `Recovery::run` hold for them.
/// Memory is allocated for one line and one answer, and for the recovery's state.
pub fn trace<R: Read, W: Write, E: Write>(
    alloc: Global,
    choice: Choice,
    input: &mut R,
    output: &mut W,
    errors: &mut E,
) -> Outcome
    ensures { TracesAs choice (streams_of
        (R.remaining input.old) (R.remaining input.new)
        (W.contents output.old) (W.contents output.new)
        (E.contents errors.old) (E.contents errors.new)) result }
{
    match choice.shows {
        Shown::Qlog => trace_behind(alloc, choice, input, output, errors),
        _ => trace_by(alloc, choice, input, output, errors),
    }
}
