//! Writes the answer to a step as a line.
ghost use Rattle.std.specs.Prelude.{◌≡◌, ◌++◌, Ok, OnOk, decimal};
ghost use Rattle.recovery_replay.specs.Answering.{ExtendsText};
ghost use Rattle.recovery_script_syntax.specs.Answers.{items_text};
ghost use lib.Chars.{codes};
ghost use Rattle.recovery_schedule.specs.Texts.{acked_text, answer_line, answer_text, arrived_text, congestion_text, end_text, error_text, expired_text, fate_text, has_losses, held_text, limits_text, lost_text, space_text};
ghost use Rattle.recovery_pair.specs.declared.steps.AckOutcome.TheVariants.{Taken};

use itoa::Buffer;
use recovery_base::below::SpaceId;
use recovery_base::time::Duration;
use recovery_pair::{AckOutcome, End, Fate, PairAnswer};
use recovery_replay::answering::{push_number, push_numbers};
use recovery_sender::{Acknowledged, Losses, SenderError, Timeout, Transmission};
use std::alloc::AllocError;

fn push_error(text: &mut String, error: SenderError) -> Result<(), AllocError>
    ensures { OnOk result (ExtendsText text.old (error_text error) text.new) }
{
    match error {
        SenderError::Event(refusal) => {
            push_number(text, "refused ", u64::from(refusal.number()))?;
            text.push_str(" ")?;
            text.push_str(refusal.name())
        }
        SenderError::Unsent => text.push_str("refused 128 Unsent"),
        SenderError::DataSpace => text.push_str("refused 129 DataSpace"),
    }
}

fn space_word(space: SpaceId) -> &'static str
    ensures { result.now ≡ space_text space }
{
    match space {
        SpaceId::Initial => "initial",
        SpaceId::Handshake => "handshake",
        SpaceId::Data => "data",
    }
}

fn end_word(end: End) -> &'static str
    ensures { result.now ≡ end_text end }
{
    match end {
        End::Client => "client",
        End::Server => "server",
    }
}

fn push_congestion(text: &mut String, losses: &Losses) -> Result<(), AllocError>
    ensures { OnOk result (ExtendsText text.old
        (congestion_text losses.now.is_persistent losses.now.congestion) text.new) }
{
    match losses.congestion {
        Some(bytes) if losses.is_persistent => push_number(text, " persistent ", bytes),
        Some(bytes) => push_number(text, " congestion ", bytes),
        None => Ok(()),
    }
}

/// Appends the numbers that are declared lost, and the congestion that this reports.
fn push_lost(text: &mut String, losses: &Losses) -> Result<(), AllocError>
    ensures { OnOk result (ExtendsText text.old (lost_text losses.now) text.new) }
{
    push_numbers(text, &losses.numbers)?;
    push_congestion(text, losses)?;
    if losses.is_cut {
        return text.push_str(" cut");
    }
    Ok(())
}

/// Returns whether something is declared lost, or allocation failed for a packet that is.
fn is_lost(losses: &Losses) -> bool
    ensures { result ≡ has_losses losses.now }
{
    losses.is_cut || !losses.numbers.is_empty()
}

fn push_acknowledged(text: &mut String, acknowledged: &Acknowledged) -> Result<(), AllocError>
    ensures { OnOk result (ExtendsText text.old (acked_text (Taken acknowledged.now)) text.new) }
{
    text.push_str(" acked")?;
    push_numbers(text, &acknowledged.numbers)?;
    if is_lost(&acknowledged.losses) {
        text.push_str(" lost")?;
        push_lost(text, &acknowledged.losses)?;
    }
    Ok(())
}

/// Appends what became of the ACK frame of a packet.
fn push_acked(text: &mut String, acked: &AckOutcome) -> Result<(), AllocError>
    ensures { OnOk result (ExtendsText text.old (acked_text acked.now) text.new) }
{
    match acked {
        AckOutcome::NoFrame => Ok(()),
        AckOutcome::Taken(acknowledged) => push_acknowledged(text, acknowledged),
        AckOutcome::Refused(error) => {
            text.push_str(" ack ")?;
            push_error(text, *error)
        }
    }
}

fn push_fate(text: &mut String, fate: &Fate) -> Result<(), AllocError>
    ensures { OnOk result (ExtendsText text.old (fate_text fate.now) text.new) }
{
    match fate {
        Fate::New { items, acked } => {
            text.push_str(" new")?;
            push_numbers(text, items)?;
            push_acked(text, acked)
        }
        Fate::Duplicate => text.push_str(" duplicate"),
        Fate::Dropped(error) => {
            text.push_str(" dropped ")?;
            push_error(text, *error)
        }
    }
}

fn push_held(text: &mut String, held: Transmission) -> Result<(), AllocError>
    ensures { OnOk result (ExtendsText text.old (held_text held) text.new) }
{
    match held {
        Transmission::Transmitted => text.push_str("transmitted"),
        Transmission::Blocked => text.push_str("blocked"),
        Transmission::Full { .. } => text.push_str("full"),
        Transmission::Delayed { until, .. } => push_number(text, "delayed ", until.as_nanos()),
    }
}

fn push_timeout(text: &mut String, timeout: &Timeout) -> Result<(), AllocError>
    ensures { OnOk result (ExtendsText text.old (expired_text timeout.now) text.new) }
{
    match timeout {
        Timeout::Nothing => text.push_str("nothing"),
        Timeout::Lost { space, losses } => {
            text.push_str("lost ")?;
            text.push_str(space_word(*space))?;
            push_lost(text, losses)
        }
        Timeout::Probe { space, count } => {
            text.push_str("probe ")?;
            text.push_str(space_word(*space))?;
            push_number(text, " ", u64::from(*count))
        }
    }
}

fn push_arrived(text: &mut String, to: End, space: SpaceId, number: u64) -> Result<(), AllocError>
    ensures { OnOk result (ExtendsText text.old (arrived_text to space number) text.new) }
{
    text.push_str("arrived ")?;
    text.push_str(end_word(to))?;
    text.push_str(" ")?;
    text.push_str(space_word(space))?;
    push_number(text, " ", number)
}

/// Appends whether a packet is not ack-eliciting, the window for which it was checked, the largest number of its ACK
/// frame, if it has one, and its ACK delay.
fn push_limits(
    text: &mut String,
    eliciting: bool,
    window: Option<u64>,
    largest: Option<u64>,
    delay: Duration,
) -> Result<(), AllocError>
    ensures { OnOk result
        (ExtendsText text.old (limits_text eliciting window largest delay) text.new) }
{
    if !eliciting {
        text.push_str(" ack-only")?;
    }
    if let Some(bytes) = window {
        push_number(text, " window ", bytes)?;
    }
    if let Some(number) = largest {
        push_number(text, " largest ", number)?;
    }
    push_delay(text, delay)
}

/// Appends an ACK delay in nanoseconds.
fn push_delay(text: &mut String, delay: Duration) -> Result<(), AllocError>
    ensures { OnOk result (ExtendsText text.old (codes " delay " ++ decimal delay) text.new) }
{
    text.push_str(" delay ")?;
    text.push_str(Buffer::new().format(delay.as_nanos()))
}

fn push_said(text: &mut String, answer: &PairAnswer) -> Result<(), AllocError>
    ensures { OnOk result (ExtendsText text.old (answer_text (Ok answer.now)) text.new) }
{
    match answer {
        PairAnswer::Done => text.push_str("done"),
        PairAnswer::Nothing => text.push_str("nothing"),
        PairAnswer::Held(held) => push_held(text, *held),
        PairAnswer::Failed(error) => {
            text.push_str("failed ")?;
            push_error(text, *error)
        }
        PairAnswer::Sent {
            number,
            items,
            eliciting,
            window,
            ack,
        } => {
            push_number(text, "sent ", *number)?;
            push_numbers(text, items)?;
            push_limits(text, *eliciting, *window, ack.largest, ack.delay)
        }
        PairAnswer::Arrived {
            to,
            space,
            number,
            fate,
            ..
        } => {
            push_arrived(text, *to, *space, *number)?;
            push_fate(text, fate)
        }
        PairAnswer::Expired(timeout) => push_timeout(text, timeout),
    }
}

/// Appends the line of an answer.
pub fn push_answer(
    text: &mut String,
    answer: &Result<PairAnswer, SenderError>,
) -> Result<(), AllocError>
    ensures { OnOk result (ExtendsText text.old (answer_line answer.now) text.new) }
{
    match answer {
        Ok(answer) => push_said(text, answer)?,
        Err(error) => push_error(text, *error)?,
    }
    text.push_str("\n")
}
