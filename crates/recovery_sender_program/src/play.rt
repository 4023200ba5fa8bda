//! Reads calls and writes answers: each line is answered before the next is read.
ghost use Rattle.std.specs.Prelude.{◌≡◌, IfOk, Some};
ghost use Rattle.recovery_replay.specs.Playing.{streams_of};
ghost use Rattle.recovery_sender_program.specs.Beginning.{BeginsAs, settings_of, with_thresholds};
ghost use Rattle.recovery_sender_program.specs.CallAnswers.{said_line};
ghost use Rattle.recovery_sender_program.specs.Playing.{PlaysCalls};

use crate::answers::write_said;
use crate::choice::{Choice, Settings, Window};
use crate::lines::CallLines;
use rand_core::SeedableRng;
use rand_pcg::Pcg32;
use recovery_base::below::NoMemory;
use recovery_base::time::Instant;
use recovery_config::config::TransportConfig;
use recovery_congestion::congestion::{ControllerFactory, NewRenoConfig};
use recovery_cubic::CubicConfig;
use recovery_history::RecoveryConfig;
use recovery_queue::items::ItemQueue;
use recovery_replay::answering::{AnswerLines, Answers, ending_of};
use recovery_replay::giving::Lines;
use recovery_replay::outcome::Outcome;
use recovery_replay::replay::{FIRST_PORT, config, skips};
use recovery_script_syntax::lines::peer_at;
use recovery_sender::{CallRecord, Sender, run_over};
use std::alloc::{AllocError, Global};
use std::io::{Read, Write};
use std::net::SocketAddr;

/// How the answers of calls are written.
#[derive(Drop)]
struct CallAnswers;

impl AnswerLines for CallAnswers {
    type Answer = CallRecord<ItemQueue>;

    ghost line_of = { said_line };

    fn push_line(
        alloc: Global,
        text: &mut String,
        answer: CallRecord<ItemQueue>,
    ) -> Result<(), AllocError> {
        write_said(alloc, text, answer)
    }
}

/// Sets the settings of loss detection.
fn set<F>(transport: &mut TransportConfig<F>, settings: &Settings)
    ensures { transport.new ≡ with_thresholds (Some settings.now) transport.old }
{
    transport.packet_threshold(settings.packets);
    transport.time_threshold(settings.numerator, settings.denominator);
    transport.persistent_congestion_threshold(settings.periods);
}

/// Returns the settings of a run with these controllers and the peer's address: the defaults, except for the choices.
fn settings_of<F>(factory: F, remote: SocketAddr, choice: &Choice) -> RecoveryConfig<F>
    ensures { result ≡ settings_of factory remote choice.now }
{
    let mut config = config(factory, remote, skips(choice.seed));
    if let Some(settings) = &choice.settings {
        set(&mut config.transport, settings);
    }
    config
}

/// Returns a sender that has sent nothing.
pub fn begun<F: ControllerFactory>(
    alloc: Global,
    factory: F,
    choice: Choice,
) -> Result<Sender<F, ItemQueue, Pcg32>, NoMemory>
    ensures { IfOk result (BeginsAs choice factory) }
{
    let config = settings_of(factory, peer_at(FIRST_PORT), &choice);
    let rng = Pcg32::seed_from_u64(choice.seed.unwrap_or(0));
    let start = Instant::from_nanos(0);
    if choice.is_established {
        Sender::established(alloc, choice.side, config, rng, start)
    } else {
        Sender::new(alloc, choice.side, config, rng, start)
    }
}

/// Answers the calls of an input with a sender. Returns that, the output and the outcome.
pub fn answer_all<F, R, W, E>(
    alloc: Global,
    sender: Sender<F, ItemQueue, Pcg32>,
    input: &mut R,
    output: W,
    errors: &mut E,
) -> (Sender<F, ItemQueue, Pcg32>, W, Outcome)
where
    F: ControllerFactory,
    R: Read,
    W: Write + Drop,
    E: Write,
    ensures { PlaysCalls sender result.0 (streams_of
        (R.remaining input.old) (R.remaining input.new) (W.contents output) (W.contents result.1)
        (E.contents errors.old) (E.contents errors.new)) result.2 }
{
    let mut calls = Lines {
        alloc,
        grammar: CallLines,
        input,
        errors,
        outcome: None,
    };
    let answers = Answers::new(alloc, CallAnswers, output);
    let (sender, answers) = run_over(sender, &mut calls, answers);
    let outcome = ending_of(answers.broken, calls.outcome);
    (sender, answers.output, outcome)
}

/// Answers the calls of an input, with a sender that has sent nothing.
fn play_over<F, R, W, E>(
    alloc: Global,
    factory: F,
    choice: Choice,
    input: &mut R,
    output: W,
    errors: &mut E,
) -> (W, Outcome)
where
    F: ControllerFactory,
    R: Read,
    W: Write + Drop,
    E: Write,
{
    match begun(alloc, factory, choice) {
        Ok(sender) => {
            let (sender, output, outcome) = answer_all(alloc, sender, input, output, errors);
            drop(sender);
            (output, outcome)
        }
        Err(_) => (output, Outcome::OutOfMemory),
    }
}

/// Reads calls and answers each before it reads the next. A line that is no call is reported to `errors`. Returns the
/// output and the outcome.
pub fn play<R: Read, W: Write + Drop, E: Write>(
    alloc: Global,
    choice: Choice,
    input: &mut R,
    output: W,
    errors: &mut E,
) -> (W, Outcome) {
    match choice.window {
        Window::Fixed(factory) => play_over(alloc, factory, choice, input, output, errors),
        Window::Cubic => {
            let factory = CubicConfig::default();
            play_over(alloc, factory, choice, input, output, errors)
        }
        Window::NewReno => {
            let factory = NewRenoConfig::default();
            play_over(alloc, factory, choice, input, output, errors)
        }
    }
}
