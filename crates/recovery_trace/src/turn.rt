//! One line of a trace and its outcome.
ghost use Rattle.std.specs.Prelude.{◌≡◌, ◌⊎◌, ◌++◌, IfErr, IfOk, OnOk, string_bytes};
ghost use Rattle.std.specs.Io.KnownBytes.{Appends};
ghost use Rattle.quic_recovery.specs.State.{state_of};
ghost use Rattle.recovery_replay.specs.Outcomes.{IsBroken};
ghost use Rattle.recovery_replay.specs.Writing.{AppendsFront};
ghost use Rattle.recovery_trace.specs.Turns.{TurnOutcome, LineOutcome, turn_text};

use crate::faults::EventLines;
use crate::moments::moment_of;
use crate::qlog::{Note, note_of, write_metrics, write_note};
use crate::requests::Shown;
use crate::states::write_state;
use quic_recovery::{LiveRecovery, Recovery};
use rand_pcg::Pcg32;
use recovery_base::below::NoMemory;
use recovery_congestion::congestion::ControllerFactory;
use recovery_events::event::{Answer, Refusal};
use recovery_queue::items::ItemQueue;
use recovery_replay::fault_reports::fault_line;
use recovery_replay::faults::is_silent;
use recovery_replay::outcome::Outcome;
use recovery_replay::writing::deliver;
use recovery_script_syntax::answers::write_reply;
use recovery_script_syntax::lines::event_in;
use std::alloc::{AllocError, Global};
use std::io::Write;

/// The outcome of a line.
#[derive(Clone, Copy)]
pub enum Turn {
    /// Its event was answered, or it is empty or a comment.
    Done,
    /// It cannot be parsed.
    Bad,
    /// The trace is over.
    Over(Outcome),
}

/// Appends the line of a reply, and that of the state if asked for; or qlog records.
fn write_turn<F>(
    text: &mut String,
    reply: &Result<Answer<ItemQueue>, Refusal>,
    recovery: &Recovery<F, ItemQueue, Pcg32>,
    shows: Shown,
    time: u64,
    note: Note,
) -> Result<(), AllocError>
where
    F: ControllerFactory,
    ensures { OnOk result (string_bytes text.new ≡ string_bytes text.old
        ++ turn_text F.Controller.words shows time note reply.now (state_of recovery.now)) }
{
    match shows {
        Shown::Answers => write_reply(text, reply),
        Shown::States => {
            write_reply(text, reply)?;
            write_state(text, time, recovery.current())
        }
        Shown::Qlog => {
            write_note(text, time, note, reply)?;
            write_metrics(text, time, recovery.current())
        }
    }
}

/// Applies the event of a line, advances the time to that of the event, and replaces the text by what is written for
/// it. Returns false, with no text, if the line is no event.
fn answer<F>(
    alloc: Global,
    live: &mut LiveRecovery<F, ItemQueue, Pcg32>,
    line: &[u8],
    shows: Shown,
    time: &mut u64,
    text: &mut String,
) -> Result<bool, NoMemory>
where
    F: ControllerFactory,
    ensures { IfOk result
        (TurnOutcome shows line.now live.old.recovery live.new.recovery time.old time.new
        (string_bytes text.new)) }
{
    text.clear();
    let Some(event) = event_in(alloc, line)? else {
        return Ok(false);
    };
    *time = (*time).max(moment_of(&event));
    let note = note_of(&event);
    let reply = live.apply(event);
    match write_turn(text, &reply, live.recovery(), shows, *time, note) {
        Ok(()) => Ok(true),
        Err(_) => Err(NoMemory),
    }
}

/// Writes a text and flushes. After a failure a prefix of it was written.
pub fn write_out<W: Write>(output: &mut W, text: &str) -> Result<(), Outcome>
    ensures whole { OnOk result (Appends (W.contents output.old) (W.contents output.new) text.now) }
    ensures front { AppendsFront (W.contents output.old) (W.contents output.new) text.now }
    ensures broken { IfErr result IsBroken }
{
    match deliver(output, text.as_bytes()) {
        Ok(()) => Ok(()),
        Err(error) => Err(Outcome::of_failed_write(error)),
    }
}

/// Processes one line. Its event is applied, and its answer is written to `output` and flushed before this returns. If
/// it cannot be parsed, that is reported to `errors`, and nothing else happens. `time` is the latest time so far, in
/// nanoseconds. `text` is the buffer for the output, which the caller reuses.
///
/// Reports that cannot be written to `errors` are dropped.
pub fn take_turn<F, W, E>(
    alloc: Global,
    live: &mut LiveRecovery<F, ItemQueue, Pcg32>,
    line: &[u8],
    number: u64,
    shows: Shown,
    time: &mut u64,
    text: &mut String,
    output: &mut W,
    errors: &mut E,
) -> Turn
where
    F: ControllerFactory,
    W: Write,
    E: Write,
    ensures { LineOutcome shows line.now number live.old.recovery live.new.recovery time.old
        time.new
        (W.contents output.old) (W.contents output.new)
        (E.contents errors.old) (E.contents errors.new) result }
{
    match answer(alloc, live, line, shows, time, text) {
        Ok(true) => match write_out(output, text) {
            Ok(()) => Turn::Done,
            Err(outcome) => Turn::Over(outcome),
        },
        Ok(false) if is_silent(line) => Turn::Done,
        Ok(false) => match fault_line::<EventLines>(alloc, line, number) {
            Ok(told) => {
                let _told = deliver(errors, told.as_bytes());
                Turn::Bad
            }
            Err(_) => Turn::Over(Outcome::OutOfMemory),
        },
        Err(_) => Turn::Over(Outcome::OutOfMemory),
    }
}
