//! Writes one line for each reply.
ghost use Rattle.std.specs.Prelude.{◌≡◌, ◌+◌, ◌<◌, ◌≤◌, ◌++◌, ◌∷◌, [], ℕ, List, OnOk, length, string_bytes, decimal};
ghost use Rattle.recovery_script_syntax.specs.Answers.{Writes, new_text, sent_text, done_with_text};
ghost use Rattle.recovery_script_syntax.specs.Answers.{retire_text, flag_text, timeout_text};
ghost use Rattle.recovery_script_syntax.specs.Answers.{in_flight_text, delayed_text, probe_text};
ghost use Rattle.recovery_script_syntax.specs.Answers.{black_hole_text, sendable_text, queue_text};
ghost use Rattle.recovery_script_syntax.specs.Answers.{refusal_text};
ghost use Rattle.recovery_script_syntax.specs.Answers.{answer_text};
ghost use lib.Chars.{codes};

use arrayvec::ArrayString;
use itoa::Buffer;
use recovery_base::below::ResetToken;
use recovery_base::time::Instant;
use recovery_events::event::{Answer, Refusal};
use recovery_queue::items::ItemQueue;
use recovery_spaces::spaces::SendableFrames;
use std::alloc::AllocError;
use std::ops::Range;

/// Appends a number between two short texts. They are joined first, so that the text grows once.
#[inline(always)]
fn push_number(text: &mut String, before: &str, number: u64, behind: &str) -> Result<(), AllocError>
    requires { length before.now + length behind.now ≤ 28 }
    ensures { OnOk result (string_bytes text.new
        ≡ string_bytes text.old ++ before.now ++ decimal number ++ behind.now) }
{
    let mut part = ArrayString::<48>::new();
    part.push_str(before);
    part.push_str(Buffer::new().format(number));
    part.push_str(behind);
    text.push_str(part.as_str())
}

/// Appends a line with a text and a number.
#[inline(always)]
fn write_number(text: &mut String, before: &str, number: u64) -> Result<(), AllocError>
    requires { length before.now ≤ 27 }
    ensures { OnOk result (Writes text.old (before.now ++ decimal number) text.new) }
{
    push_number(text, before, number, "\n")
}

/// Appends a constant line, given with its line feed.
#[inline(always)]
fn write_line(text: &mut String, line: &str) -> Result<(), AllocError>
    ensures { (word : List ℕ) → line.now ≡ word ++ 10 ∷ []
        → OnOk result (Writes text.old word text.new) }
{
    text.push_str(line)
}

/// Appends a line with a word.
fn write_word(text: &mut String, word: &str) -> Result<(), AllocError>
    ensures { OnOk result (Writes text.old word.now text.new) }
{
    text.push_str(word)?;
    text.push_str("\n")
}

fn write_new(text: &mut String, arm: bool) -> Result<(), AllocError>
    ensures { OnOk result (Writes text.old (new_text arm) text.new) }
{
    if arm {
        write_line(text, "new arm\n")
    } else {
        write_line(text, "new\n")
    }
}

fn write_sent(text: &mut String, number: u64, forgotten: Option<u64>) -> Result<(), AllocError>
    ensures { OnOk result (Writes text.old (sent_text number forgotten) text.new) }
{
    match forgotten {
        None => write_number(text, "sent ", number),
        Some(forgotten) => {
            push_number(text, "sent ", number, "")?;
            write_number(text, " forgot ", forgotten)
        }
    }
}

/// Appends the line of an acknowledged packet: whether it was a probe.
fn write_acked(text: &mut String, probe: bool) -> Result<(), AllocError>
    ensures { OnOk result (Writes text.old (done_with_text (codes "acked") probe) text.new) }
{
    if probe {
        write_line(text, "acked probe\n")
    } else {
        write_line(text, "acked\n")
    }
}

/// Appends the line of a lost packet: whether it was a probe.
fn write_lost(text: &mut String, probe: bool) -> Result<(), AllocError>
    ensures { OnOk result (Writes text.old (done_with_text (codes "lost") probe) text.new) }
{
    if probe {
        write_line(text, "lost probe\n")
    } else {
        write_line(text, "lost\n")
    }
}

fn write_retire(
    text: &mut String,
    retired: &Option<(Range<u64>, ResetToken)>,
) -> Result<(), AllocError>
    ensures { OnOk result (Writes text.old (retire_text retired.now) text.new) }
{
    match retired {
        Some((numbers, _)) => {
            push_number(text, "retire ", numbers.start, "")?;
            write_number(text, " ", numbers.end)
        }
        None => write_line(text, "retire none\n"),
    }
}

fn flag_word(flag: bool) -> &'static str
    ensures { result.now ≡ flag_text flag }
{
    if flag { "yes" } else { "no" }
}

fn write_flag(text: &mut String, flag: bool) -> Result<(), AllocError>
    ensures { OnOk result (Writes text.old (flag_text flag) text.new) }
{
    if flag {
        write_line(text, "yes\n")
    } else {
        write_line(text, "no\n")
    }
}

fn write_timeout(text: &mut String, time: Option<Instant>) -> Result<(), AllocError>
    ensures { OnOk result (Writes text.old (timeout_text time) text.new) }
{
    match time {
        Some(time) => write_number(text, "timeout ", time.as_nanos()),
        None => write_line(text, "timeout none\n"),
    }
}

fn write_in_flight(text: &mut String, bytes: u64, ack_eliciting: u64) -> Result<(), AllocError>
    ensures { OnOk result (Writes text.old (in_flight_text bytes ack_eliciting) text.new) }
{
    push_number(text, "in-flight ", bytes, " ")?;
    write_number(text, "", ack_eliciting)
}

fn write_delayed(text: &mut String, until: Instant) -> Result<(), AllocError>
    ensures { OnOk result (Writes text.old (delayed_text until) text.new) }
{
    write_number(text, "delayed ", until.as_nanos())
}

fn write_probe(text: &mut String, number: u64, size: u16) -> Result<(), AllocError>
    ensures { OnOk result (Writes text.old (probe_text number size) text.new) }
{
    push_number(text, "probe ", number, "")?;
    write_number(text, " ", u64::from(size))
}

fn write_black_hole(text: &mut String, reported: bool) -> Result<(), AllocError>
    ensures { OnOk result (Writes text.old (black_hole_text reported) text.new) }
{
    if reported {
        write_line(text, "black-hole yes\n")
    } else {
        write_line(text, "black-hole no\n")
    }
}

fn write_sendable(text: &mut String, frames: SendableFrames) -> Result<(), AllocError>
    ensures { OnOk result (Writes text.old (sendable_text frames) text.new) }
{
    text.push_str("sendable ")?;
    text.push_str(flag_word(frames.acks))?;
    text.push_str(" ")?;
    write_flag(text, frames.other)
}

fn write_queue(text: &mut String, queue: &ItemQueue) -> Result<(), AllocError>
    ensures { OnOk result (Writes text.old (queue_text queue.now) text.new) }
{
    text.push_str("queue")?;
    for item in queue.items() {
        push_number(text, " ", *item, "")?;
    }
    text.push_str("\n")
}

fn write_refusal(text: &mut String, refusal: Refusal) -> Result<(), AllocError>
    ensures { OnOk result (Writes text.old (refusal_text refusal) text.new) }
{
    push_number(text, "refused ", u64::from(refusal.number()), " ")?;
    match refusal {
        Refusal::Ecn(reason) => {
            text.push_str(refusal.name())?;
            text.push_str(" ")?;
            write_word(text, reason)
        }
        _ => write_word(text, refusal.name()),
    }
}

/// Appends the line of a reply. The only error is lack of memory; nothing is guaranteed about the text then.
///
/// It is inlined into its callers: one that knows which event it was retains only the answers that this one can have.
#[inline(always)]
pub fn write_reply(
    text: &mut String,
    reply: &Result<Answer<ItemQueue>, Refusal>,
) -> Result<(), AllocError>
    ensures { OnOk result (Writes text.old (answer_text reply.now) text.new) }
{
    match reply {
        Ok(Answer::New { arm }) => write_new(text, *arm),
        Ok(Answer::Duplicate) => write_line(text, "duplicate\n"),
        Ok(Answer::Sent { number, forgotten }) => write_sent(text, *number, *forgotten),
        Ok(Answer::Acked { probe }) => write_acked(text, *probe),
        Ok(Answer::Lost { probe }) => write_lost(text, *probe),
        Ok(Answer::Retire(retired)) => write_retire(text, retired),
        Ok(Answer::Flag(flag)) => write_flag(text, *flag),
        Ok(Answer::Timeout(time)) => write_timeout(text, *time),
        Ok(
            Answer::InFlight {
                bytes,
                ack_eliciting,
            },
        ) => write_in_flight(text, *bytes, *ack_eliciting),
        Ok(Answer::Transmitted) => write_line(text, "transmitted\n"),
        Ok(Answer::Blocked) => write_line(text, "blocked\n"),
        Ok(Answer::Delayed(until)) => write_delayed(text, *until),
        Ok(Answer::Ready) => write_line(text, "ready\n"),
        Ok(Answer::Probe { number, size }) => write_probe(text, *number, *size),
        Ok(Answer::NoProbe) => write_line(text, "no probe\n"),
        Ok(Answer::BlackHole(reported)) => write_black_hole(text, *reported),
        Ok(Answer::Sendable(frames)) => write_sendable(text, *frames),
        Ok(Answer::Queue(queue)) => write_queue(text, queue),
        Ok(Answer::Done) => write_line(text, "done\n"),
        Err(refusal) => write_refusal(text, *refusal),
    }
}
