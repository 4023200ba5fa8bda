//! Writes one line for each call.
ghost use lib.Chars.{codes};
ghost use Rattle.std.specs.Prelude.{◌≡◌, ◌++◌, OnOk, decimal};
ghost use Rattle.recovery_replay.specs.Answering.{ExtendsText};
ghost use Rattle.recovery_script_syntax.specs.Answers.{answer_text, items_text};
ghost use Rattle.recovery_script_syntax.specs.Words.{space_word};
ghost use Rattle.recovery_sender_program.specs.CallAnswers.{acked_text, congestion_text, ecn_text, is_without, lost_behind, lost_numbers, losses_text, mark_text, marks_text, reply_text, required_text, retransmitted_text, said_line, timeout_text, timer_text, transmission_text};

use recovery_base::below::SpaceId;
use recovery_base::time::Instant;
use recovery_events::event::{Answer, Refusal};
use recovery_queue::items::ItemQueue;
use recovery_replay::answering::{push_number, push_numbers};
use recovery_script_syntax::answers::write_reply;
use recovery_sender::{
    Acknowledged, CallRecord, CallReplyValue, EcnOutcome, Losses, Retransmitted, SenderError,
    Timeout, Transmission,
};
use std::alloc::{AllocError, Global};

/// Returns whether an ACK frame's answer has no losses: no packet is lost, and allocation failed for none.
fn is_without(losses: &Losses) -> bool
    ensures { result ≡ is_without losses.now }
{
    !losses.is_cut && losses.numbers.is_empty() && losses.probe.is_none()
}

/// Appends a mark if it applies.
fn push_mark(text: &mut String, applies: bool, mark: &str) -> Result<(), AllocError>
    ensures { OnOk result (ExtendsText text.old (mark_text applies mark.now) text.new) }
{
    if applies {
        return text.push_str(mark);
    }
    Ok(())
}

fn push_congestion(
    text: &mut String,
    congestion: Option<u64>,
    is_persistent: bool,
) -> Result<(), AllocError>
    ensures { OnOk result
        (ExtendsText text.old (congestion_text congestion is_persistent) text.new) }
{
    match congestion {
        Some(bytes) if is_persistent => push_number(text, " persistent ", bytes),
        Some(bytes) => push_number(text, " congestion ", bytes),
        None => Ok(()),
    }
}

/// Appends the numbers of lost packets, that of the MTU probe last.
fn push_lost_numbers(
    text: &mut String,
    numbers: &[u64],
    probe: Option<u64>,
) -> Result<(), AllocError>
    ensures { OnOk result (ExtendsText text.old (lost_numbers numbers.now probe) text.new) }
{
    match probe {
        Some(probe) => {
            push_numbers(text, numbers)?;
            push_number(text, " ", probe)
        }
        None if numbers.is_empty() => text.push_str(" none"),
        None => push_numbers(text, numbers),
    }
}

/// Appends whether a black hole is reported, and whether allocation failed for a packet that is lost.
fn push_marks(text: &mut String, is_black_hole: bool, is_cut: bool) -> Result<(), AllocError>
    ensures { OnOk result (ExtendsText text.old (marks_text is_black_hole is_cut) text.new) }
{
    push_mark(text, is_black_hole, " black-hole")?;
    push_mark(text, is_cut, " cut")
}

fn push_lost(text: &mut String, losses: &Losses) -> Result<(), AllocError>
    ensures { OnOk result (ExtendsText text.old (losses_text losses.now) text.new) }
{
    text.push_str("lost")?;
    push_lost_numbers(text, &losses.numbers, losses.probe)?;
    push_congestion(text, losses.congestion, losses.is_persistent)?;
    push_marks(text, losses.is_black_hole, losses.is_cut)
}

/// Appends what is lost with a space.
fn push_retransmitted(text: &mut String, all: &Retransmitted) -> Result<(), AllocError>
    ensures { OnOk result
        (ExtendsText text.old (retransmitted_text all.now.numbers.items all.now.is_cut) text.new) }
{
    text.push_str("lost")?;
    push_lost_numbers(text, &all.numbers, None)?;
    push_mark(text, all.is_cut, " cut")
}

fn push_ecn(text: &mut String, ecn: EcnOutcome) -> Result<(), AllocError>
    ensures { OnOk result (ExtendsText text.old (ecn_text ecn) text.new) }
{
    match ecn {
        EcnOutcome::Quiet => Ok(()),
        EcnOutcome::Marked => text.push_str(" ecn-congestion"),
        EcnOutcome::Failed => text.push_str(" ecn-failed"),
    }
}

/// Appends what is lost, if anything is.
fn push_losses_behind(text: &mut String, losses: &Losses) -> Result<(), AllocError>
    ensures { OnOk result (ExtendsText text.old (lost_behind losses.now) text.new) }
{
    if is_without(losses) {
        return Ok(());
    }
    text.push_str(" ")?;
    push_lost(text, losses)
}

fn push_acknowledged(text: &mut String, acknowledged: &Acknowledged) -> Result<(), AllocError>
    ensures { OnOk result (ExtendsText text.old (acked_text acknowledged.now.numbers.items
        acknowledged.now.losses acknowledged.now.ecn) text.new) }
{
    if acknowledged.numbers.is_empty() {
        return text.push_str("acked none");
    }
    text.push_str("acked")?;
    push_numbers(text, &acknowledged.numbers)?;
    push_losses_behind(text, &acknowledged.losses)?;
    push_ecn(text, acknowledged.ecn)
}

/// Appends whether an ACK is required.
fn push_required(text: &mut String, ack: bool) -> Result<(), AllocError>
    ensures { OnOk result (ExtendsText text.old (required_text ack) text.new) }
{
    if ack {
        return text.push_str(" ack");
    }
    Ok(())
}

fn push_transmission(text: &mut String, transmission: Transmission) -> Result<(), AllocError>
    ensures { OnOk result (ExtendsText text.old (transmission_text transmission) text.new) }
{
    match transmission {
        Transmission::Transmitted => text.push_str("transmitted"),
        Transmission::Blocked => text.push_str("blocked"),
        Transmission::Full { ack } => {
            text.push_str("full")?;
            push_required(text, ack)
        }
        Transmission::Delayed { until, ack } => {
            push_number(text, "delayed ", until.as_nanos())?;
            push_required(text, ack)
        }
    }
}

fn space_word(space: SpaceId) -> &'static str
    ensures { result.now ≡ space_word space }
{
    match space {
        SpaceId::Initial => "initial",
        SpaceId::Handshake => "handshake",
        SpaceId::Data => "data",
    }
}

fn push_timeout(text: &mut String, timeout: &Timeout) -> Result<(), AllocError>
    ensures { OnOk result (ExtendsText text.old (timeout_text timeout.now) text.new) }
{
    match timeout {
        Timeout::Nothing => text.push_str("nothing"),
        Timeout::Lost { losses, .. } => push_lost(text, losses),
        Timeout::Probe { space, count } => {
            text.push_str("probe ")?;
            text.push_str(space_word(*space))?;
            push_number(text, " ", u64::from(*count))
        }
    }
}

/// Appends an answer or error of the recovery, without a line feed.
fn push_answer(
    alloc: Global,
    text: &mut String,
    reply: &Result<Answer<ItemQueue>, Refusal>,
) -> Result<(), AllocError>
    ensures { OnOk result (ExtendsText text.old (answer_text reply.now) text.new) }
{
    let mut line = String::new(alloc);
    write_reply(&mut line, reply)?;
    line.pop();
    text.push_str(&line)
}

fn push_timer(text: &mut String, timer: Option<Instant>) -> Result<(), AllocError>
    ensures { OnOk result (ExtendsText text.old (timer_text timer) text.new) }
{
    match timer {
        Some(time) => push_number(text, " timer ", time.as_nanos()),
        None => text.push_str(" timer none"),
    }
}

fn push_reply(
    alloc: Global,
    text: &mut String,
    reply: CallReplyValue<ItemQueue>,
) -> Result<(), AllocError>
    ensures { OnOk result (ExtendsText text.old (reply_text reply) text.new) }
{
    match reply {
        CallReplyValue::Transmission(transmission) => push_transmission(text, transmission),
        CallReplyValue::Acknowledged(acknowledged) => push_acknowledged(text, &acknowledged),
        CallReplyValue::Newly(newly) => push_numbers(text, &newly.numbers),
        CallReplyValue::Timeout(timeout) => push_timeout(text, &timeout),
        CallReplyValue::Probe(queue) => push_answer(alloc, text, &Ok(Answer::Queue(queue))),
        CallReplyValue::Retransmitted(all) => push_retransmitted(text, &all),
        CallReplyValue::Answer(answer) => push_answer(alloc, text, &Ok(answer)),
        CallReplyValue::Done => text.push_str("done"),
        CallReplyValue::Decided => text.push_str("decided"),
    }
}

/// Appends the error of a frame that acknowledges a packet that was never sent.
fn push_unsent(text: &mut String) -> Result<(), AllocError>
    ensures { OnOk result (ExtendsText text.old (codes "refused 128 Unsent") text.new) }
{
    text.push_str("refused 128 Unsent")
}

/// Appends the error of a discard of the space of 1-RTT packets.
fn push_data_space(text: &mut String) -> Result<(), AllocError>
    ensures { OnOk result (ExtendsText text.old (codes "refused 129 DataSpace") text.new) }
{
    text.push_str("refused 129 DataSpace")
}

/// Appends the line of a call, with the loss detection timer unless it is an error.
pub fn write_said(
    alloc: Global,
    text: &mut String,
    said: CallRecord<ItemQueue>,
) -> Result<(), AllocError>
    ensures { OnOk result (ExtendsText text.old (said_line said) text.new) }
{
    let CallRecord { reply, timer } = said;
    match reply {
        Ok(reply) => {
            push_reply(alloc, text, reply)?;
            push_timer(text, timer)?;
        }
        Err(SenderError::Event(refusal)) => push_answer(alloc, text, &Err(refusal))?,
        Err(SenderError::Unsent) => push_unsent(text)?,
        Err(SenderError::DataSpace) => push_data_space(text)?,
    }
    text.push_str("\n")
}
