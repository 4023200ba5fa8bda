//! Parses a line as a step of two endpoints.
ghost use Rattle.std.specs.Prelude.{◌≡◌, IfOk};
ghost use Rattle.recovery_script_syntax.specs.Forms.{IsItemOf};
ghost use Rattle.recovery_script_syntax.specs.Reading.{ReadsBy, field, line_behind, reading, words_left};
ghost use Rattle.recovery_schedule.specs.StepReading.{IsHandRead, end_of, step_read};
ghost use Rattle.recovery_schedule.specs.Steps.{EncodesStep, arrive, discard, end_forms, expire, late, send};

use recovery_base::below::NoMemory;
use recovery_pair::{End, LocalStep, PairStep};
use recovery_replay::faults::{Grammar, line_named};
use recovery_script_syntax::lines::LINE_LIMIT;
use recovery_script_syntax::words::{Words, is_name};
use std::alloc::Global;

/// A line for each step, with words that fit.
const EXAMPLES: [&str; 9] = [
    "hand client data",
    "send client data 0 1200",
    "arrive 0 0",
    "expire client 0",
    "late client 0",
    "discard client initial 0",
    "validated server",
    "keys client",
    "confirmed client",
];

/// Returns the step of a line, given without its line feed, if it is one.
pub fn step_in(alloc: Global, line: &[u8]) -> Result<Option<PairStep>, NoMemory>
    ensures { IfOk result (IsItemOf EncodesStep line.now) }
{
    if line.len() > LINE_LIMIT {
        return Ok(None);
    }
    let mut words = Words::new(line);
    let Some(name) = words.next() else {
        return Ok(None);
    };
    if is_name(name, "hand") {
        return hand(alloc, &mut words);
    }
    match short_step(name, &mut words) {
        Some(step) if words.is_empty() => Ok(Some(step)),
        _ => Ok(None),
    }
}

/// Parses the endpoint, space and items of `hand`.
fn hand(alloc: Global, words: &mut Words<'_>) -> Result<Option<PairStep>, NoMemory>
    ensures { IfOk result (IsHandRead (words_left words.old)) }
{
    let Some(end) = end_in(words) else {
        return Ok(None);
    };
    let Some(space) = words.space() else {
        return Ok(None);
    };
    match words.items(alloc)? {
        Some(items) => Ok(Some(PairStep::Local {
            end,
            step: LocalStep::Hand { space, items },
        })),
        None => Ok(None),
    }
}

/// Parses a step that does not allocate, by its name and the fields after it.
#[tactic(auto, unfolding(crate::specs::StepReading::step_read))]
fn short_step(name: &[u8], words: &mut Words<'_>) -> Option<PairStep>
    ensures { ReadsBy (step_read name.now) words.old words.new result }
{
    if is_name(name, "arrive") {
        return arrive(words);
    }
    let end = end_in(words)?;
    end_step(name, end, words)
}

#[tactic(auto, unfolding(recovery_script_syntax::specs::Reading::fields_read))]
fn arrive(words: &mut Words<'_>) -> Option<PairStep>
    ensures { ReadsBy (reading arrive) words.old words.new result }
{
    let place = words.number()?;
    Some(PairStep::Arrive {
        at: place as usize,
        now: words.moment()?,
    })
}

/// Parses what an endpoint does, by the name of the step and the fields after the endpoint.
#[tactic(auto, unfolding(recovery_script_syntax::specs::Reading::line_behind))]
fn end_step(name: &[u8], end: End, words: &mut Words<'_>) -> Option<PairStep>
    ensures { ReadsBy (line_behind (end_forms end) name.now) words.old words.new result }
{
    match name {
        name if is_name(name, "send") => send(end, words),
        name if is_name(name, "expire") => expire(end, words),
        name if is_name(name, "late") => late(end, words),
        name if is_name(name, "discard") => discard(end, words),
        name if is_name(name, "validated") => Some(PairStep::Local {
            end,
            step: LocalStep::AddressValidated,
        }),
        name if is_name(name, "keys") => Some(PairStep::Local {
            end,
            step: LocalStep::HandshakeKeys,
        }),
        name if is_name(name, "confirmed") => Some(PairStep::Local {
            end,
            step: LocalStep::HandshakeConfirmed,
        }),
        _ => None,
    }
}

#[tactic(auto, unfolding(recovery_script_syntax::specs::Reading::fields_read))]
fn send(end: End, words: &mut Words<'_>) -> Option<PairStep>
    ensures { ReadsBy (reading (send end)) words.old words.new result }
{
    Some(PairStep::Send {
        end,
        space: words.space()?,
        now: words.moment()?,
        size: words.short()?,
    })
}

#[tactic(auto, unfolding(recovery_script_syntax::specs::Reading::fields_read))]
fn expire(end: End, words: &mut Words<'_>) -> Option<PairStep>
    ensures { ReadsBy (reading (expire end)) words.old words.new result }
{
    let now = words.moment()?;
    Some(PairStep::Local {
        end,
        step: LocalStep::Expire { now },
    })
}

#[tactic(auto, unfolding(recovery_script_syntax::specs::Reading::fields_read))]
fn late(end: End, words: &mut Words<'_>) -> Option<PairStep>
    ensures { ReadsBy (reading (late end)) words.old words.new result }
{
    let now = words.moment()?;
    Some(PairStep::Local {
        end,
        step: LocalStep::Late { now },
    })
}

#[tactic(auto, unfolding(recovery_script_syntax::specs::Reading::fields_read))]
fn discard(end: End, words: &mut Words<'_>) -> Option<PairStep>
    ensures { ReadsBy (reading (discard end)) words.old words.new result }
{
    let space = words.space()?;
    let now = words.moment()?;
    Some(PairStep::Local {
        end,
        step: LocalStep::Discard { space, now },
    })
}

/// Parses the next word as an endpoint: `client` or `server`.
#[tactic(auto, unfolding(recovery_script_syntax::specs::Reading::field, crate::specs::StepReading::end_of))]
fn end_in(words: &mut Words<'_>) -> Option<End>
    ensures { ReadsBy (field end_of) words.old words.new result }
{
    match words.next()? {
        word if is_name(word, "client") => Some(End::Client),
        word if is_name(word, "server") => Some(End::Server),
        _ => None,
    }
}

/// The lines that are steps.
#[derive(Drop)]
pub struct StepLines;

impl Grammar for StepLines {
    type Item = PairStep;

    ghost encodes = { EncodesStep };

    ghost are_short = { λ line step encoded. encoded.short };

    fn example_of(name: &[u8]) -> Option<&'static [u8]> {
        line_named(&EXAMPLES, name)
    }

    fn item_in(alloc: Global, line: &[u8]) -> Result<Option<PairStep>, NoMemory> {
        step_in(alloc, line)
    }
}
