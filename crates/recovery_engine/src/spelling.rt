//! How replies and other results are encoded in numbers.
ghost use Rattle.std.specs.Prelude.{◌≡◌};
ghost use Rattle.recovery_engine.specs.Replies.{bad_argument, decided, no_memory, no_recovery, no_sender, plain, sent_spelled, retire_spelled, timeout_spelled, refusal_spelled, fault_number, space_number, encoded, IsWritten};

use crate::numbers::{
    ANSWER_ACKED, ANSWER_BLACK_HOLE, ANSWER_BLOCKED, ANSWER_DELAYED, ANSWER_DONE, ANSWER_DUPLICATE,
    ANSWER_FLAG, ANSWER_IN_FLIGHT, ANSWER_LOST, ANSWER_NEW, ANSWER_NO_PROBE, ANSWER_PROBE,
    ANSWER_QUEUE, ANSWER_READY, ANSWER_REFUSED, ANSWER_RETIRE, ANSWER_SENDABLE, ANSWER_SENT,
    ANSWER_TIMEOUT, ANSWER_TRANSMITTED, FAULT_BLEACHED, FAULT_CE_FALLS, FAULT_CORRUPTED,
    FAULT_ECT0_FALLS, FAULT_ECT1_FALLS, REFUSAL_BAD_ARGUMENT, REFUSAL_DECIDED, REFUSAL_NO_RECOVERY,
    REFUSAL_NO_SENDER,
};
use recovery_base::below::{ResetToken, SpaceId};
use recovery_base::time::Instant;
use recovery_events::event::{Answer, Refusal};
use recovery_queue::items::ItemQueue;
use std::ops::Range;

/// The reply to an event, in numbers.
#[repr(C)]
#[derive(Clone, Copy)]
pub struct EncodedReply {
    /// Which answer, or that the call failed.
    pub kind: u8,
    /// The number of the error, or 0. For an ECN error, `first` is the number of the fault.
    pub refusal: u8,
    /// New: whether to start the ACK delay timer. Sent: whether a non-ack-eliciting packet was forgotten for it. Acked,
    /// lost: whether it was the path's MTU probe. Retire: whether any connection IDs are to be retired. Flag: yes or
    /// no. Timeout: whether a timer is running. Black hole: whether one was reported. Sendable: whether an ACK is to be
    /// sent. Full, delayed by a sender: whether an ACK is required in the space. Acknowledged: whether the outcome has
    /// more than the two counts. Otherwise false.
    pub flag: bool,
    /// Sendable: whether there is something else to send. Otherwise false.
    pub other: bool,
    /// Probe: its size in bytes. Otherwise 0.
    pub size: u16,
    /// Sent, probe: the packet number. Retire: the first sequence number. Timeout, delayed: the time, in nanoseconds.
    /// In flight: the bytes. Acknowledged: how many numbers are newly acknowledged. Needs room: how many words of
    /// packets. Losses of a timeout, probes: the space. Otherwise 0.
    pub first: u64,
    /// Sent: the packet number that was forgotten. Retire: one above the last sequence number. In flight: how many
    /// packets are ack-eliciting. Acknowledged: how many numbers are lost. Needs room: how many lost numbers. Probes:
    /// how many are due. Otherwise 0.
    pub second: u64,
}

impl EncodedReply {
    /// Returns the error of a failed allocation.
    pub fn no_memory() -> EncodedReply
        ensures { result ≡ no_memory }
    {
        encode_refusal(Refusal::NoMemory)
    }

    /// Returns the error if the handle holds no recovery.
    pub fn no_recovery() -> EncodedReply
        ensures { result ≡ no_recovery }
    {
        EncodedReply {
            refusal: REFUSAL_NO_RECOVERY,
            ..EncodedReply::plain(ANSWER_REFUSED)
        }
    }

    /// Returns the error if the handle holds a bare recovery.
    pub fn no_sender() -> EncodedReply
        ensures { result ≡ no_sender }
    {
        EncodedReply {
            refusal: REFUSAL_NO_SENDER,
            ..EncodedReply::plain(ANSWER_REFUSED)
        }
    }

    /// Returns the error if only the sender itself makes the event.
    pub fn decided() -> EncodedReply
        ensures { result ≡ decided }
    {
        EncodedReply {
            refusal: REFUSAL_DECIDED,
            ..EncodedReply::plain(ANSWER_REFUSED)
        }
    }

    /// Returns the error if an argument is out of range.
    pub fn bad_argument() -> EncodedReply
        ensures { result ≡ bad_argument }
    {
        EncodedReply {
            refusal: REFUSAL_BAD_ARGUMENT,
            ..EncodedReply::plain(ANSWER_REFUSED)
        }
    }

    /// Returns the same reply, rebuilt field by field, so that it stays in registers. Without this the compiler copies
    /// the bytes of a returned reply through memory if a function out of line may return it too.
    #[inline(always)]
    pub fn by_field(self) -> EncodedReply
        ensures { result ≡ self }
    {
        EncodedReply {
            kind: self.kind,
            refusal: self.refusal,
            flag: self.flag,
            other: self.other,
            size: self.size,
            first: self.first,
            second: self.second,
        }
    }

    /// Returns an answer without contents.
    pub fn plain(kind: u8) -> EncodedReply
        ensures { result ≡ plain kind }
    {
        EncodedReply {
            kind,
            refusal: 0,
            flag: false,
            other: false,
            size: 0,
            first: 0,
            second: 0,
        }
    }
}

/// Returns which fault the ECN counts have, by its text (RFC 9000, 13.4.2.1).
fn fault_number(text: &str) -> u64
    ensures { result ≡ fault_number text.now }
{
    if text == "peer ECT(0) count regression" {
        FAULT_ECT0_FALLS
    } else if text == "peer ECT(1) count regression" {
        FAULT_ECT1_FALLS
    } else if text == "peer CE count regression" {
        FAULT_CE_FALLS
    } else if text == "ECN bleaching" {
        FAULT_BLEACHED
    } else {
        FAULT_CORRUPTED
    }
}

fn spell_sent(number: u64, forgotten: Option<u64>) -> EncodedReply
    ensures { result ≡ sent_spelled number forgotten }
{
    match forgotten {
        Some(forgotten) => EncodedReply {
            flag: true,
            first: number,
            second: forgotten,
            ..EncodedReply::plain(ANSWER_SENT)
        },
        None => EncodedReply {
            first: number,
            ..EncodedReply::plain(ANSWER_SENT)
        },
    }
}

fn spell_retire(retired: &Option<(Range<u64>, ResetToken)>) -> EncodedReply
    ensures { result ≡ retire_spelled retired.now }
{
    match retired {
        Some((numbers, _)) => EncodedReply {
            flag: true,
            first: numbers.start,
            second: numbers.end,
            ..EncodedReply::plain(ANSWER_RETIRE)
        },
        None => EncodedReply::plain(ANSWER_RETIRE),
    }
}

fn spell_timeout(time: Option<Instant>) -> EncodedReply
    ensures { result ≡ timeout_spelled time }
{
    match time {
        Some(time) => EncodedReply {
            flag: true,
            first: time.as_nanos(),
            ..EncodedReply::plain(ANSWER_TIMEOUT)
        },
        None => EncodedReply::plain(ANSWER_TIMEOUT),
    }
}

/// Returns an answer with a number.
pub fn encode_number(kind: u8, first: u64) -> EncodedReply
    ensures { result ≡ record (plain kind) { first = first } }
{
    EncodedReply {
        first,
        ..EncodedReply::plain(kind)
    }
}

fn spell_delayed(until: Instant) -> EncodedReply
    ensures { result ≡ record (plain ANSWER_DELAYED) { first = until } }
{
    encode_number(ANSWER_DELAYED, until.as_nanos())
}

/// Returns an answer with a flag.
pub fn encode_flag(kind: u8, flag: bool) -> EncodedReply
    ensures { result ≡ record (plain kind) { flag = flag } }
{
    EncodedReply {
        flag,
        ..EncodedReply::plain(kind)
    }
}

/// Encodes an error.
pub fn encode_refusal(refusal: Refusal) -> EncodedReply
    ensures { result ≡ refusal_spelled refusal }
{
    let first = match refusal {
        Refusal::Ecn(text) => fault_number(text),
        _ => 0,
    };
    EncodedReply {
        refusal: refusal.number(),
        first,
        ..EncodedReply::plain(ANSWER_REFUSED)
    }
}

/// Encodes a reply.
#[inline(always)]
pub fn encode_reply(reply: &Result<Answer<ItemQueue>, Refusal>) -> EncodedReply
    ensures { result ≡ encoded reply.now }
{
    match reply {
        Ok(Answer::New { arm }) => encode_flag(ANSWER_NEW, *arm),
        Ok(Answer::Duplicate) => EncodedReply::plain(ANSWER_DUPLICATE),
        Ok(Answer::Sent { number, forgotten }) => spell_sent(*number, *forgotten),
        Ok(Answer::Acked { probe }) => encode_flag(ANSWER_ACKED, *probe),
        Ok(Answer::Lost { probe }) => encode_flag(ANSWER_LOST, *probe),
        Ok(Answer::Retire(retired)) => spell_retire(retired),
        Ok(Answer::Flag(flag)) => encode_flag(ANSWER_FLAG, *flag),
        Ok(Answer::Timeout(time)) => spell_timeout(*time),
        Ok(
            Answer::InFlight {
                bytes,
                ack_eliciting,
            },
        ) => EncodedReply {
            first: *bytes,
            second: *ack_eliciting,
            ..EncodedReply::plain(ANSWER_IN_FLIGHT)
        },
        Ok(Answer::Transmitted) => EncodedReply::plain(ANSWER_TRANSMITTED),
        Ok(Answer::Blocked) => EncodedReply::plain(ANSWER_BLOCKED),
        Ok(Answer::Delayed(until)) => spell_delayed(*until),
        Ok(Answer::Ready) => EncodedReply::plain(ANSWER_READY),
        Ok(Answer::Probe { number, size }) => EncodedReply {
            first: *number,
            size: *size,
            ..EncodedReply::plain(ANSWER_PROBE)
        },
        Ok(Answer::NoProbe) => EncodedReply::plain(ANSWER_NO_PROBE),
        Ok(Answer::BlackHole(found)) => encode_flag(ANSWER_BLACK_HOLE, *found),
        Ok(Answer::Sendable(frames)) => EncodedReply {
            flag: frames.acks,
            other: frames.other,
            ..EncodedReply::plain(ANSWER_SENDABLE)
        },
        Ok(Answer::Queue(_)) => EncodedReply::plain(ANSWER_QUEUE),
        Ok(Answer::Done) => EncodedReply::plain(ANSWER_DONE),
        Err(refusal) => encode_refusal(*refusal),
    }
}

/// Returns the number of a packet number space.
pub fn space_number(space: SpaceId) -> u8
    ensures { result ≡ space_number space }
{
    match space {
        SpaceId::Initial => 0,
        SpaceId::Handshake => 1,
        SpaceId::Data => 2,
    }
}

/// Returns the count of the numbers, and writes them if there is room for all.
pub fn copy_numbers(numbers: &[u64], out: &mut [u64]) -> usize
    ensures { IsWritten numbers.now out.old result out.new }
{
    let count = numbers.len();
    if count <= out.len() {
        out[..count].copy_from_slice(numbers);
    }
    count
}
