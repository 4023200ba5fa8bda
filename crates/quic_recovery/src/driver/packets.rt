//! The events of packets and spaces (RFC 9000, 12.3 and 13; RFC 9002, A).
ghost use Rattle.std.specs.Prelude.{◌≡◌, ◌<◌, Decides};
ghost use Rattle.recovery_base.specs.Units.{number_limit};
ghost use Rattle.recovery_spaces.specs.Packets.{entry_number, IsTooLarge};
ghost use Rattle.recovery_history.specs.Numbers.{number_behind, skipping_behind};
ghost use Rattle.recovery_history.specs.Replies.{reply_to, refusal_of};

use crate::driver::Recovery;
use rand_core::Rng;
use recovery_base::below::{NoMemory, SpaceId};
use recovery_base::time::Instant;
use recovery_congestion::congestion::ControllerFactory;
use recovery_events::event::{Answer, Refusal};
use recovery_packet_numbers::PacketNumberFilter;
use recovery_queue::queue::RetransmitQueue;
use recovery_spaces::paths::LedgerError;
use recovery_spaces::spaces::{NUMBER_LIMIT, Receipt, ReceiveError, SentPacket};

impl<F, Q, R> Recovery<F, Q, R>
where
    F: ControllerFactory,
    Q: RetransmitQueue,
    R: Rng + Drop,
{
    ghost use Rattle.recovery_events.specs.declared.event.Event.TheVariants.{Received, Send, Acked, Lost, DiscardSpace};
    ghost use Rattle.recovery_history.specs.ReplyInputs.{number_in};
    ghost use Rattle.quic_recovery.specs.State.{Transition, state_of};
    ghost use Rattle.recovery_history.specs.Transitions.{inputs_of};

    /// A packet was received (RFC 9000, 12.3).
    #[inline(always)]
    pub(super) fn received(
        &mut self,
        space: SpaceId,
        now: Instant,
        number: u64,
        ack_eliciting: bool,
    ) -> Result<Answer<Q>, Refusal>
        ensures { Transition (Received space now number ack_eliciting) self.old result self.new }
    {
        if self.discarded.contains(space) {
            return Err(Refusal::SpaceDiscarded);
        }
        reply_to(self.spaces[space].receive(now, number, ack_eliciting))
    }

    /// A packet is sent (RFC 9002, A.5).
    #[inline(always)]
    pub(crate) fn send(
        &mut self,
        space: SpaceId,
        now: Instant,
        size: u16,
        ack_eliciting: bool,
        largest_acked: Option<u64>,
        queue: Q,
        stream_frames: Q::Meta,
    ) -> Result<Answer<Q>, Refusal>
        ensures { Transition (Send space now size ack_eliciting largest_acked queue stream_frames)
            self.old result self.new }
    {
        let here = &mut self.spaces[space];
        if self.discarded.contains(space) {
            return Err(Refusal::SpaceDiscarded);
        }
        if is_too_large(largest_acked) {
            return Err(Refusal::NumberTooLarge);
        }
        let packet = SentPacket {
            path_generation: self.paths.generation(),
            time_sent: now,
            size,
            ack_eliciting,
            largest_acked,
            retransmits: queue,
            stream_frames,
        };
        let next = here.next_packet_number();
        let number = number_behind(&self.filter, space, next);
        if number >= NUMBER_LIMIT {
            return Err(Refusal::NumbersExhausted);
        }
        let forgotten = match self.paths.sent(number, packet, here) {
            Ok(forgotten) => forgotten,
            Err(error) => return Err(refusal_of(error)),
        };
        here.on_sent(number, ack_eliciting, now);
        draw_skip(&mut self.filter, &mut self.rng, space, next);
        self.paths.on_sent(now, u64::from(size), number);
        Ok(Answer::Sent {
            number,
            forgotten: number_of(&forgotten),
        })
    }

    /// A packet is acknowledged (RFC 9002, A.7).
    #[inline(always)]
    pub(crate) fn acked(
        &mut self,
        space: SpaceId,
        now: Instant,
        number: u64,
        app_limited: bool,
    ) -> Result<Answer<Q>, Refusal>
        ensures { Transition (Acked space now number app_limited) self.old result self.new }
    {
        let here = &mut self.spaces[space];
        if self.discarded.contains(space) {
            return Err(Refusal::SpaceDiscarded);
        }
        let Some(packet) = here.take(number) else {
            return Err(Refusal::NotTracked);
        };
        here.on_acked(number, &packet);
        let probe = self
            .paths
            .on_packet_acked(space, number, now, &packet, app_limited);
        Ok(Answer::Acked { probe })
    }

    /// A packet is sent, out of line: the match over all events is inlined.
    #[inline(never)]
    pub(super) fn send_apart(
        &mut self,
        space: SpaceId,
        now: Instant,
        size: u16,
        ack_eliciting: bool,
        largest_acked: Option<u64>,
        queue: Q,
        stream_frames: Q::Meta,
    ) -> Result<Answer<Q>, Refusal>
        ensures { Transition (Send space now size ack_eliciting largest_acked queue stream_frames)
            self.old result self.new }
    {
        self.send(
            space,
            now,
            size,
            ack_eliciting,
            largest_acked,
            queue,
            stream_frames,
        )
    }

    /// A packet is acknowledged, out of line: the match over all events is inlined.
    #[inline(never)]
    pub(super) fn acked_apart(
        &mut self,
        space: SpaceId,
        now: Instant,
        number: u64,
        app_limited: bool,
    ) -> Result<Answer<Q>, Refusal>
        ensures { Transition (Acked space now number app_limited) self.old result self.new }
    {
        self.acked(space, now, number, app_limited)
    }

    /// A packet is lost (RFC 9002, A.10).
    pub(super) fn lost(&mut self, space: SpaceId, number: u64) -> Result<Answer<Q>, Refusal>
        ensures { Transition (Lost space number) self.old result self.new }
    {
        let here = &mut self.spaces[space];
        if self.discarded.contains(space) {
            return Err(Refusal::SpaceDiscarded);
        }
        match here.lose(number) {
            Ok(Some(packet)) => {
                let probe = self.paths.on_packet_lost(space, number, &packet);
                Ok(Answer::Lost { probe })
            }
            Ok(None) => Err(Refusal::NotTracked),
            Err(NoMemory) => Err(Refusal::NoMemory),
        }
    }

    /// The keys of a space are dropped (RFC 9001, 4.9).
    #[inline(always)]
    pub(super) fn discard(&mut self, space: SpaceId) -> Result<Answer<Q>, Refusal>
        ensures { Transition (DiscardSpace space) self.old result self.new }
    {
        if self.discarded.contains(space) {
            return Err(Refusal::SpaceDiscarded);
        }
        let alloc = self.alloc;
        let here = &mut self.spaces[space];
        self.paths.forget_all(here);
        here.take_pending(alloc);
        self.discarded.insert(space);
        Ok(Answer::Done)
    }

    /// Returns the packet number that a space assigns next.
    pub(super) fn number_in(&self, space: SpaceId) -> u64
        ensures { result ≡ number_in (inputs_of (state_of self.now)) space }
    {
        number_behind(&self.filter, space, self.spaces[space].next_packet_number())
    }
}

/// Returns the packet number that a space assigns next. `next` is one above the last one; some 1-RTT numbers are
/// skipped (RFC 9000, 21.4).
fn number_behind(filter: &PacketNumberFilter, space: SpaceId, next: u64) -> u64
    ensures { result ≡ number_behind filter.now space next }
{
    match space {
        SpaceId::Data => filter.peek(next),
        _ => next,
    }
}

/// Records that this number, below 2^62, was assigned. If a 1-RTT number was skipped for it, draws the next skip.
#[inline(always)]
fn draw_skip<R: Rng>(filter: &mut PacketNumberFilter, rng: &mut R, space: SpaceId, next: u64)
    requires { number_behind filter.old space next < number_limit }
    ensures { record { filter = filter.new; words = R.stream rng.new }
        ≡ skipping_behind space next (record { filter = filter.old; words = R.stream rng.old }) }
{
    if let SpaceId::Data = space {
        filter.allocate(rng, next);
    }
}

/// Returns the answer to a received packet.
fn reply_to<Q>(receipt: Result<Receipt, ReceiveError>) -> Result<Answer<Q>, Refusal>
    ensures { result ≡ reply_to receipt }
{
    match receipt {
        Ok(Receipt::New { arm }) => Ok(Answer::New { arm }),
        Ok(Receipt::Duplicate) => Ok(Answer::Duplicate),
        Err(ReceiveError::NumberTooLarge) => Err(Refusal::NumberTooLarge),
        Err(ReceiveError::NoMemory) => Err(Refusal::NoMemory),
    }
}

/// Returns the error of a packet that cannot be tracked.
fn refusal_of(error: LedgerError) -> Refusal
    ensures { result ≡ refusal_of error }
{
    match error {
        LedgerError::NoMemory => Refusal::NoMemory,
        LedgerError::Overflow => Refusal::Overflow,
    }
}

/// Returns whether a number is given that exceeds all packet numbers (RFC 9000, 12.3).
fn is_too_large(number: Option<u64>) -> bool
    ensures { Decides result (IsTooLarge number) }
{
    match number {
        Some(number) => number >= NUMBER_LIMIT,
        None => false,
    }
}

/// Returns the number of the forgotten packet, if any.
fn number_of<Q: RetransmitQueue>(forgotten: &Option<(u64, SentPacket<Q>)>) -> Option<u64>
    ensures { result ≡ entry_number forgotten.now }
{
    match forgotten {
        Some((number, _)) => Some(*number),
        None => None,
    }
}
