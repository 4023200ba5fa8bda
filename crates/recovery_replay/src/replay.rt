//! Reads events and writes their replies.
ghost use Rattle.std.specs.Prelude.{◌≡◌, ℕ, Option, IfOk, OnOk, OnErr, MatchOption, string_bytes};
ghost use Rattle.std.specs.Io.KnownBytes.{Appends};
ghost use Rattle.recovery_replay.specs.Script.{ReaderParses};
ghost use Rattle.recovery_replay.specs.Replay.{error_text, settings, skips_with};
ghost use Rattle.recovery_replay.specs.Replay.{AreArguments, AreRead, IsSeed, IsWindow};
ghost use Rattle.recovery_replay.specs.Replay.{RunsProgram, RunsOver, Session, ProgramOutcomeOnBytes, ProgramOutcome};
ghost use Rattle.recovery_replay.specs.Replay.{TellsOutcome, EndsSo};

use crate::fixed_window::FixedWindowConfig;
use crate::outcome::Outcome;
use crate::script::{ScriptBytes, ScriptReader};
use crate::text::AnswerText;
use crate::writing::deliver;
use arrayvec::ArrayString;
use quic_recovery::Recovery;
use rand_core::SeedableRng;
use rand_pcg::Pcg32;
use recovery_base::below::{ConnectionId, NoMemory};
use recovery_base::time::Instant;
use recovery_config::config::TransportConfig;
use recovery_congestion::congestion::{ControllerFactory, NewRenoConfig};
use recovery_events::event::Event;
use recovery_events::feeding::Source;
use recovery_history::RecoveryConfig;
use recovery_packet_numbers::Skips;
use recovery_queue::items::ItemQueue;
use recovery_script_syntax::lines::peer_at;
use recovery_script_syntax::words::number_in;
use std::alloc::Global;
use std::io;
use std::io::{Read, Write};
use std::net::SocketAddr;

/// The port of the peer's first address, which `peer_at` names.
pub const FIRST_PORT: u16 = 4433;

/// The program's name in its error texts.
const NAME: &str = "replay";

/// The usage of the program.
const USAGE: &str = "usage: recovery-replay [SEED [WINDOW]]\n";

/// The choices of the arguments.
#[derive(Clone, Copy)]
struct Choice {
    /// The seed of the skipped numbers; without it none is skipped.
    seed: Option<u64>,
    /// The window of each controller, in bytes; without it the controllers are NewReno's.
    fixed: Option<FixedWindowConfig>,
}

/// Returns the settings of a run with these controllers and the peer's address: the defaults, except for the skips.
pub fn config<F>(factory: F, remote: SocketAddr, skips: Skips) -> RecoveryConfig<F>
    ensures { result ≡ settings factory remote skips }
{
    let transport = TransportConfig::with_factory(factory);
    let mut config = RecoveryConfig::new(transport, remote, ConnectionId::new(&[0xFF; 8]));
    config.skips(skips);
    config
}

/// Returns how packet numbers are skipped: drawn with a seed, and not at all without one.
pub fn skips(seed: Option<u64>) -> Skips
    ensures { result ≡ skips_with seed }
{
    match seed {
        Some(_) => Skips::Drawn,
        None => Skips::Disabled,
    }
}

/// Returns the lines of the replies to a script, in a run with these controllers and a seed or none.
fn answers_over<F, E>(
    alloc: Global,
    factory: F,
    seed: Option<u64>,
    script: &mut E,
) -> Result<String, NoMemory>
where
    F: ControllerFactory,
    E: Source<Event<ItemQueue>>,
    ensures { IfOk result (λ text. Session (RunsOver F.built F.Controller.words factory seed)
        (λ events. E.gives script.old events script.new) (λ lines. string_bytes text ≡ lines)) }
{
    let config = config(factory, peer_at(FIRST_PORT), skips(seed));
    let rng = Pcg32::seed_from_u64(seed.unwrap_or(0));
    let text = AnswerText::new(alloc);
    let start = Instant::from_nanos(0);
    let (recovery, text) = Recovery::run_over(alloc, config, rng, start, script, text)?;
    drop(recovery);
    text.into_text()
}

/// Returns the lines of the replies to a script, in the chosen run.
fn answers<E: Source<Event<ItemQueue>>>(
    alloc: Global,
    choice: Choice,
    script: &mut E,
) -> Result<String, NoMemory>
    ensures { IfOk result (λ text. Session (RunsProgram choice)
        (λ events. E.gives script.old events script.new) (λ lines. string_bytes text ≡ lines)) }
{
    match choice.fixed {
        Some(factory) => answers_over(alloc, factory, choice.seed, script),
        None => answers_over(alloc, NewRenoConfig::default(), choice.seed, script),
    }
}

/// Parses a word as a seed: a number, or `-` for none.
fn seed_in(word: &[u8]) -> Option<Option<u64>>
    ensures { MatchOption result ((seed : Option ℕ) → ¬ IsSeed word.now seed) (IsSeed word.now) }
{
    if word == "-".as_bytes() {
        return Some(None);
    }
    Some(Some(number_in(word)?))
}

/// Parses a word as a window: a number above zero.
fn window_in(word: &[u8]) -> Option<FixedWindowConfig>
    ensures { MatchOption result ((factory : FixedWindowConfig) → ¬ IsWindow word.now factory)
        (IsWindow word.now) }
{
    match number_in(word)? {
        0 => None,
        window => Some(FixedWindowConfig::new(window)),
    }
}

/// Parses the arguments of a run: nothing, a seed, or a seed and a window.
fn choice_in(words: &[String]) -> Option<Choice>
    ensures { AreRead words.now result }
{
    match words {
        [] => Some(Choice {
            seed: None,
            fixed: None,
        }),
        [seed] => Some(Choice {
            seed: seed_in(seed.as_bytes())?,
            fixed: None,
        }),
        [seed, window] => Some(Choice {
            seed: seed_in(seed.as_bytes())?,
            fixed: Some(window_in(window.as_bytes())?),
        }),
        _ => None,
    }
}

/// Returns the outcome of the program for an input in memory, whose text and status are the program's, and the answers.
/// The only error is `NoMemory`.
///
/// `words` are the arguments after the program's name: an optional seed, followed by an optional window in bytes. The
/// seed is 0 to `u64::MAX`, without sign or leading zeros, or `-` for none; the window is 1 to `u64::MAX`. With a seed
/// numbers of 1-RTT packets are skipped, as `Pcg32::seed_from_u64` draws them; without one none is. A window is that of
/// each path's controller throughout; without one the controllers are NewReno's.
pub fn play_bytes(
    alloc: Global,
    words: &[String],
    input: &[u8],
) -> Result<(Outcome, String), NoMemory>
    ensures played { IfOk result (λ played.
        ProgramOutcomeOnBytes words.now input.now played.0 (string_bytes played.1)) }
    ensures memory { OnErr result (AreArguments words.now) }
{
    let Some(choice) = choice_in(words) else {
        return Ok((Outcome::WrongArguments, String::new(alloc)));
    };
    let mut script = ScriptBytes::new(alloc, input);
    let text = answers(alloc, choice, &mut script)?;
    match script.ending() {
        Some(ending) => Ok((Outcome::Ended(ending), text)),
        None => Err(NoMemory),
    }
}

/// Reads events, and writes their answers when the input was read.
fn play<R: Read, W: Write>(
    alloc: Global,
    words: &[String],
    input: &mut R,
    output: &mut W,
) -> Outcome
    ensures { ProgramOutcome words.now (R.remaining input.old) (R.remaining input.new)
        (W.contents output.old) (W.contents output.new) result }
{
    let Some(choice) = choice_in(words) else {
        return Outcome::WrongArguments;
    };
    let mut script = ScriptReader::new(alloc, input);
    let (Ok(text), Some(ending)) = (answers(alloc, choice, &mut script), script.ending()) else {
        return Outcome::OutOfMemory;
    };
    match deliver(output, text.as_bytes()) {
        Ok(()) => Outcome::Ended(ending),
        Err(error) => Outcome::of_failed_write(error),
    }
}

/// Returns what the program writes to standard error, with a line feed at the end; empty on success.
pub fn message(outcome: Outcome) -> ArrayString<128>
    ensures { result.bytes ≡ error_text outcome }
{
    outcome.text(NAME, USAGE)
}

/// Writes the error text. After a failure a prefix of it was written.
pub fn report<E: Write>(outcome: Outcome, errors: &mut E) -> io::Result<()>
    ensures whole { OnOk result
        (Appends (E.contents errors.old) (E.contents errors.new) (error_text outcome)) }
    ensures front { TellsOutcome outcome (E.contents errors.old) (E.contents errors.new) }
{
    outcome.report(NAME, USAGE, errors)
}

/// Reads events, writes their answers and then the error text. Returns the outcome, and whether that text could be
/// written.
///
/// It does the same as `play_bytes` with the bytes that are read, unless a read or a write fails. The answers are
/// stored in memory and written when the input was read. A failed write to `errors` changes no outcome.
pub fn replay_and_tell<R: Read, W: Write, E: Write>(
    alloc: Global,
    words: &[String],
    input: &mut R,
    output: &mut W,
    errors: &mut E,
) -> (Outcome, io::Result<()>)
    ensures outcome { ProgramOutcome words.now (R.remaining input.old) (R.remaining input.new)
        (W.contents output.old) (W.contents output.new) result.0 }
    ensures told { OnOk result.1
        (Appends (E.contents errors.old) (E.contents errors.new) (error_text result.0)) }
    ensures front { TellsOutcome result.0 (E.contents errors.old) (E.contents errors.new) }
{
    let outcome = play(alloc, words, input, output);
    (outcome, report(outcome, errors))
}

/// Reads events, writes their answers and then the error text. Returns the exit status.
///
/// As `replay_and_tell`; a failed write to `errors` changes no status.
pub fn replay<R: Read, W: Write, E: Write>(
    alloc: Global,
    words: &[String],
    input: &mut R,
    output: &mut W,
    errors: &mut E,
) -> u8
    ensures { EndsSo result (λ outcome.
        ProgramOutcome words.now (R.remaining input.old) (R.remaining input.new)
        (W.contents output.old) (W.contents output.new) outcome
        × TellsOutcome outcome (E.contents errors.old) (E.contents errors.new)) }
{
    let (outcome, _) = replay_and_tell(alloc, words, input, output, errors);
    outcome.status()
}
