//! Calls of a sender with more than numbers, and its last outcome (RFC 9002).
ghost use Rattle.std.specs.Prelude.{◌≡◌};
ghost use Rattle.recovery_engine.specs.Kept.{numbers_told, packets_told, pto_count_of};
ghost use Rattle.recovery_engine.specs.Replies.{IsWritten};
ghost use Rattle.recovery_engine.specs.SenderViews.{no_sender_view, sender_view_of};
ghost use Rattle.recovery_engine.specs.Sending.{no_told, told_view};
ghost use Rattle.recovery_stack.specs.Answers.{ReadsHandle};
ghost use Rattle.recovery_stack.specs.SenderCalls.{ack_given, frame_given, room_given, AsksAck};
ghost use Rattle.recovery_stack.specs.Codes.{side_coded};

use crate::codes::{space_coded, span};
use crate::handle::Handle;
use recovery_base::below::EcnCounts;
use recovery_base::time::Instant;
use recovery_engine::sending::{AckRange, AckRoom, OutcomeView, TakenAck};
use recovery_engine::spelling::EncodedReply;
use recovery_engine::views::SenderView;
use recovery_losses::{Ack, Side};
use std::alloc::Global;

/// The fields of an ACK frame, except its ranges, and what the caller knows at its arrival.
#[repr(C)]
#[derive(Clone, Copy)]
pub struct AckFrame {
    /// The ACK delay that the peer reports, in whole seconds.
    pub delay_secs: u64,
    /// The count of ECT(0), if the frame has counts (RFC 9000, 19.3.2).
    pub ect0: u64,
    /// The count of ECT(1).
    pub ect1: u64,
    /// The count of ECN-CE.
    pub ce: u64,
    /// If `is_limited`: how many words of `recovery_ffi_told_packets` the caller has room for.
    pub packets_room: u64,
    /// If `is_limited`: how many lost numbers of `recovery_ffi_told_numbers` it has room for.
    pub lost_room: u64,
    /// If `has_received`: when the frame was received, in nanoseconds. A later time than that of the call counts as
    /// that.
    pub received: u64,
    /// The rest of the ACK delay in nanoseconds, below 10^9.
    pub delay_nanos: u32,
    /// Whether the frame has ECN counts.
    pub has_ecn: bool,
    /// Whether the sender had too little to send to fill its window (RFC 9002, 7.8).
    pub app_limited: bool,
    /// Whether the frame is processed only if the caller has room for all that it may read of the outcome. If not, the
    /// caller may read the outcome later.
    pub is_limited: bool,
    /// Whether the frame was received earlier than it is processed (RFC 9002, 5.3).
    pub has_received: bool,
}

/// Returns the fields of a frame, if its delay has less than 10^9 nanoseconds.
#[inline(always)]
fn ack_of(given: &AckFrame) -> Option<Ack>
    ensures { result ≡ ack_given given.now }
{
    let delay = span(given.delay_secs, given.delay_nanos)?;
    let counts = EcnCounts {
        ect0: given.ect0,
        ect1: given.ect1,
        ce: given.ce,
    };
    let received = Instant::from_nanos(given.received);
    Some(Ack {
        delay,
        ecn: if given.has_ecn { Some(counts) } else { None },
        app_limited: given.app_limited,
        received: if given.has_received {
            Some(received)
        } else {
            None
        },
    })
}

/// Returns the room that the caller has for the outcome.
#[inline(always)]
fn room_of(given: &AckFrame) -> AckRoom
    ensures { result ≡ room_given given.now }
{
    if given.is_limited {
        AckRoom {
            packets: given.packets_room,
            lost: given.lost_room,
        }
    } else {
        AckRoom {
            packets: u64::MAX,
            lost: u64::MAX,
        }
    }
}

/// Returns a frame that was received in a space, if there is that space and its delay has less than 10^9 nanoseconds.
#[inline(always)]
fn frame_of(space: u8, now: u64, given: &AckFrame) -> Option<TakenAck>
    ensures { result ≡ frame_given space now given.now }
{
    Some(TakenAck {
        space: space_coded(space)?,
        now: Instant::from_nanos(now),
        ack: ack_of(given)?,
        room: room_of(given),
    })
}

/// Returns the role of a sender's endpoint.
pub fn side_of(client: bool) -> Side
    ensures { result ≡ side_coded client }
{
    if client { Side::Client } else { Side::Server }
}

impl Handle {
    /// Processes a received ACK frame (RFC 9002, A.7), with its ranges, the highest first, as on the wire. An error if
    /// there is no such space, or if its delay has 10^9 nanoseconds or more. Nothing changes if the caller has too
    /// little room.
    #[inline(always)]
    pub fn take_ack(
        &mut self,
        alloc: Global,
        space: u8,
        now: u64,
        frame: &AckFrame,
        ranges: &[AckRange],
    ) -> EncodedReply
        ensures { AsksAck (frame_given space now frame.now) ranges.now
            self.old.slot.held result self.new.slot.held }
    {
        let Some(frame) = frame_of(space, now, frame) else {
            return EncodedReply::bad_argument();
        };
        self.take_frame(alloc, frame, ranges)
    }

    /// Returns the number of consecutive probe timeouts (RFC 9002, 6.2.1); 0 if there is no sender.
    pub fn pto_count(&mut self, alloc: Global) -> u32
        ensures { ReadsHandle self.old.slot.held self.new.slot.held (λ stack.
            result ≡ pto_count_of stack.kept) (result ≡ 0) }
    {
        let Some(stack) = self.take(alloc) else {
            return 0;
        };
        let count = stack.kept.pto_count();
        self.put(stack);
        count
    }

    /// Returns the purpose of the sender's timer, and the room that is left on the path in use; empty if there is no
    /// sender.
    pub fn sender_view(&mut self, alloc: Global) -> SenderView
        ensures { ReadsHandle self.old.slot.held self.new.slot.held (λ stack.
            result ≡ sender_view_of stack.kept) (result ≡ no_sender_view) }
    {
        let Some(stack) = self.take(alloc) else {
            return SenderView::none();
        };
        let view = stack.kept.sender_view();
        self.put(stack);
        view
    }

    /// Returns the last outcome; an empty one before the first, or if there is no sender.
    pub fn last_outcome(&mut self, alloc: Global) -> OutcomeView
        ensures { ReadsHandle self.old.slot.held self.new.slot.held (λ stack.
            result ≡ told_view stack.kept) (result ≡ no_told) }
    {
        let Some(stack) = self.take(alloc) else {
            return OutcomeView::none();
        };
        let view = stack.kept.last_outcome();
        self.put(stack);
        view
    }

    /// Returns how many numbers the last outcome newly acknowledged, or found lost, and writes them if there is room
    /// for all.
    pub fn told_numbers(&mut self, alloc: Global, lost: bool, out: &mut [u64]) -> usize
        ensures { ReadsHandle self.old.slot.held self.new.slot.held (λ stack.
            IsWritten (numbers_told lost stack.kept) out.old result out.new)
            ((result ≡ 0) × (out.new ≡ out.old)) }
    {
        let Some(stack) = self.take(alloc) else {
            return 0;
        };
        let count = stack.kept.copy_numbers(lost, out);
        self.put(stack);
        count
    }

    /// Returns how many words the packets that the last outcome newly acknowledged and their items need, and writes
    /// them if there is room for all.
    pub fn told_packets(&mut self, alloc: Global, out: &mut [u64]) -> usize
        ensures { ReadsHandle self.old.slot.held self.new.slot.held (λ stack.
            IsWritten (packets_told stack.kept) out.old result out.new)
            ((result ≡ 0) × (out.new ≡ out.old)) }
    {
        let Some(stack) = self.take(alloc) else {
            return 0;
        };
        let count = stack.kept.copy_packets(out);
        self.put(stack);
        count
    }
}
