//! Plays the script while one allocation may fail.
ghost use Rattle.std.specs.Prelude.{◌≡◌};
ghost use Rattle.recovery_packet_numbers.specs.Skips.{IsSkips};

use crate::readings::{Readings, readings_of};
use crate::scarce::ScarceConfig;
use crate::script::{Event, Reply, STEPS, Said, Scarce, event_at, said_by, wanted_at};
use quic_recovery::Recovery;
use quic_recovery_rows::config::{settings_with, words};
use recovery_base::below::NoMemory;
use recovery_base::time::Instant;
use recovery_config::config::TransportConfig;
use recovery_history::RecoveryConfig;
use recovery_packet_numbers::Skips;
use recovery_parts_tests::halving::HalvingConfig;
use std::alloc::Global;
use thiserror::Error;

/// Whose allocation failed.
#[derive(Clone, Copy)]
pub enum Hit {
    /// None.
    None,
    /// That of no event: a recovery, a list, or the parts of an event.
    Outside(&'static str),
    /// The event of this step.
    Event(u64, &'static str),
}

/// What is wrong.
#[derive(Clone, Copy, Debug, Error)]
pub enum Wrong {
    /// An allocation failed again, though memory is available.
    #[error("memory was refused twice")]
    Twice,
    /// The event that failed left a trace.
    #[error("step {0}: the refused event left a trace")]
    Trace(u64),
    /// The answer to an event is not the expected one.
    #[error("step {0}: another answer")]
    Answer(u64),
    /// A run has more or fewer replies than events.
    #[error("not one reply for each event")]
    Count,
    /// A run with a failed event leaves another state than one without that event.
    #[error("step {0}: a run leaves another state than one without that event")]
    Left(u64),
}

impl From<NoMemory> for Wrong {
    fn from(_refused: NoMemory) -> Self {
        Wrong::Twice
    }
}

fn start() -> Instant {
    Instant::from_nanos(0)
}

fn config(alloc: Global) -> RecoveryConfig<ScarceConfig>
    ensures issued { result.issued ≡ 1 }
    ensures skips { IsSkips result.skips }
{
    let halving = HalvingConfig::new(12_000);
    let transport = TransportConfig::with_factory(ScarceConfig { halving, alloc });
    settings_with(transport, 8, Skips::Disabled)
}

fn fresh(alloc: Global) -> Result<Scarce, NoMemory> {
    Recovery::new(alloc, config(alloc), words(), start())
}

fn note(hit: &mut Hit, found: Hit) -> Result<(), Wrong> {
    match *hit {
        Hit::None => {
            *hit = found;
            Ok(())
        }
        _ => Err(Wrong::Twice),
    }
}

/// Returns a recovery without any event.
fn begin(alloc: Global, hit: &mut Hit) -> Result<Scarce, Wrong> {
    if let Ok(recovery) = fresh(alloc) {
        return Ok(recovery);
    }
    note(hit, Hit::Outside("a recovery"))?;
    Ok(fresh(alloc)?)
}

/// Returns the event of a step, with its name.
fn made(alloc: Global, step: u64, hit: &mut Hit) -> Result<(&'static str, Event), Wrong> {
    if let Ok(made) = event_at(alloc, step) {
        return Ok(made);
    }
    note(hit, Hit::Outside("what an event is made of"))?;
    Ok(event_at(alloc, step)?)
}

/// Returns what is read after the events before a step, each with memory available.
fn readings_before(alloc: Global, step: u64) -> Result<Readings, Wrong> {
    let mut recovery = fresh(alloc)?;
    let read = readings_after(alloc, &mut recovery, step);
    drop(recovery);
    read
}

/// Applies the first events, up to this count, to a fresh recovery, and reads it.
fn readings_after(alloc: Global, recovery: &mut Scarce, steps: u64) -> Result<Readings, Wrong> {
    for step in 0..steps {
        let (_, event) = event_at(alloc, step)?;
        let said = said_by(&recovery.apply(event));
        compare(step, said, wanted_at(step))?;
    }
    Ok(readings_of(recovery))
}

/// Applies the event of a step once. Returns its name and its answer.
fn hand_in_once(
    alloc: Global,
    recovery: &mut Scarce,
    step: u64,
    hit: &mut Hit,
) -> Result<(&'static str, Said), Wrong> {
    let (name, event) = made(alloc, step, hit)?;
    Ok((name, said_by(&recovery.apply(event))))
}

/// Applies the event of a step, and an equal one if its allocation failed.
fn hand_in(alloc: Global, recovery: &mut Scarce, step: u64, hit: &mut Hit) -> Result<Said, Wrong> {
    let (name, said) = hand_in_once(alloc, recovery, step, hit)?;
    if said != Said::NoMemory {
        return Ok(said);
    }
    note(hit, Hit::Event(step, name))?;
    if readings_of(recovery) != readings_before(alloc, step)? {
        return Err(Wrong::Trace(step));
    }
    let (_, again) = hand_in_once(alloc, recovery, step, hit)?;
    Ok(again)
}

fn compare(step: u64, said: Said, wanted: Said) -> Result<(), Wrong> {
    if said == wanted {
        Ok(())
    } else {
        Err(Wrong::Answer(step))
    }
}

/// Plays the events one by one: each has the expected answer, if necessary at the second try.
pub fn play_each(alloc: Global, hit: &mut Hit) -> Result<(), Wrong> {
    let mut recovery = begin(alloc, hit)?;
    let played = play_steps(alloc, &mut recovery, hit);
    drop(recovery);
    played
}

/// Applies the events one by one, and compares each answer with the expected one.
fn play_steps(alloc: Global, recovery: &mut Scarce, hit: &mut Hit) -> Result<(), Wrong> {
    for step in 0..STEPS {
        let said = hand_in(alloc, recovery, step, hit)?;
        compare(step, said, wanted_at(step))?;
    }
    Ok(())
}

/// Returns whether the list took the event of a step.
fn is_added(
    alloc: Global,
    events: &mut Vec<Event>,
    step: u64,
    hit: &mut Hit,
) -> Result<bool, Wrong> {
    let (_, event) = made(alloc, step, hit)?;
    Ok(events.push(event).is_ok())
}

/// Adds the event of a step to the list, if necessary at the second try.
fn add(alloc: Global, events: &mut Vec<Event>, step: u64, hit: &mut Hit) -> Result<(), Wrong> {
    if is_added(alloc, events, step, hit)? {
        return Ok(());
    }
    note(hit, Hit::Outside("a list of events"))?;
    if is_added(alloc, events, step, hit)? {
        Ok(())
    } else {
        Err(Wrong::Twice)
    }
}

fn events_of(alloc: Global, hit: &mut Hit) -> Result<Vec<Event>, Wrong> {
    let mut events = Vec::new(alloc);
    for step in 0..STEPS {
        add(alloc, &mut events, step, hit)?;
    }
    Ok(events)
}

fn run_once(alloc: Global, events: Vec<Event>) -> Result<(Scarce, Vec<Reply>), NoMemory> {
    Recovery::run(alloc, config(alloc), words(), start(), events)
}

fn run(alloc: Global, hit: &mut Hit) -> Result<(Scarce, Vec<Reply>), Wrong> {
    let events = events_of(alloc, hit)?;
    if let Ok(run) = run_once(alloc, events) {
        return Ok(run);
    }
    note(hit, Hit::Outside("a run as a whole"))?;
    let again = events_of(alloc, hit)?;
    Ok(run_once(alloc, again)?)
}

/// Returns the step whose event failed for lack of memory, if any; there is at most one.
fn refused_in(replies: &[Reply]) -> Result<Option<u64>, Wrong> {
    let mut found = None;
    let mut step = 0u64;
    for reply in replies {
        if said_by(reply) == Said::NoMemory {
            if found.is_some() {
                return Err(Wrong::Twice);
            }
            found = Some(step);
        }
        step = step.saturating_add(1);
    }
    if step == STEPS {
        Ok(found)
    } else {
        Err(Wrong::Count)
    }
}

/// Compares a run with one that lacks the event that failed.
fn compare_without(
    alloc: Global,
    refused: u64,
    replies: &[Reply],
    readings: Readings,
    hit: &mut Hit,
) -> Result<(), Wrong> {
    if readings_without(alloc, refused, replies, hit)? == readings {
        Ok(())
    } else {
        Err(Wrong::Left(refused))
    }
}

/// Returns what is read after a run without one event, whose answers are those of the run with it.
fn readings_without(
    alloc: Global,
    refused: u64,
    replies: &[Reply],
    hit: &mut Hit,
) -> Result<Readings, Wrong> {
    let mut recovery = begin(alloc, hit)?;
    let read = play_without(alloc, &mut recovery, refused, replies, hit);
    drop(recovery);
    read
}

/// Applies all events but one, compares each answer with that of the run, and reads the state.
fn play_without(
    alloc: Global,
    recovery: &mut Scarce,
    refused: u64,
    replies: &[Reply],
    hit: &mut Hit,
) -> Result<Readings, Wrong> {
    let mut step = 0u64;
    for reply in replies {
        if step != refused {
            let said = hand_in(alloc, recovery, step, hit)?;
            compare(step, said_by(reply), said)?;
        }
        step = step.saturating_add(1);
    }
    Ok(readings_of(recovery))
}

/// Plays the events as one run: each has the expected answer, or all but one as if that one were missing.
pub fn play_run(alloc: Global, hit: &mut Hit) -> Result<(), Wrong> {
    let (left, replies) = run(alloc, hit)?;
    let judged = judge(alloc, &left, &replies, hit);
    drop(left);
    judged
}

/// Records that the allocation of this step's event failed.
fn note_event(alloc: Global, step: u64, hit: &mut Hit) -> Result<(), Wrong> {
    let (name, _) = made(alloc, step, hit)?;
    note(hit, Hit::Event(step, name))
}

/// Judges the state after a run and its answers.
fn judge(alloc: Global, left: &Scarce, replies: &[Reply], hit: &mut Hit) -> Result<(), Wrong> {
    if let Some(refused) = refused_in(replies)? {
        note_event(alloc, refused, hit)?;
        return compare_without(alloc, refused, replies, readings_of(left), hit);
    }
    let mut step = 0u64;
    for reply in replies {
        compare(step, said_by(reply), wanted_at(step))?;
        step = step.saturating_add(1);
    }
    Ok(())
}
